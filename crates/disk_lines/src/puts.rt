//! Write sets: placed nodes with a semicolon between two, `nothing PATH`, and `staged MODE NUMBER SIZE SHA1 PATH` for a file whose bytes
//! the caller staged.
use line_words::{Answer, Line};
use root_words::placed_want;
use root_words::tree_memory::cny_base::Path;
use tree_journal::journal_log::{Put, Puts, Want};

// `MODE NUMBER SIZE SHA1`.
fn staged_of(line: &mut Line, raw: &str) -> Option<Want> {
    let (mode, rest) = raw.split_once(' ')?;
    let (number, rest) = rest.split_once(' ')?;
    let (size, name) = rest.split_once(' ')?;
    Some(Want::Staged {
        mode: line.part(mode)?,
        number: line.part(number)?,
        size: line.part(size)?,
        name: line.part(name)?,
    })
}

fn put_of(line: &mut Line, raw: &str) -> Option<Put> {
    let Some(raw) = raw.strip_prefix("staged ") else {
        let (path, want) = placed_want(line, raw)?;
        return Some(Put { path, want });
    };
    let (staged, path) = raw.rsplit_once(' ')?;
    let path: Path = line.part(path)?;
    let want = staged_of(line, staged)?;
    Some(Put { path, want })
}

/// The puts at a place, in any order.
pub fn items(line: &mut Line, place: usize) -> Vec<Put> {
    let raw = line.raw(place);
    line.each(raw, put_of)
}

/// The write set at a place, of puts whose paths rise.
pub fn puts(line: &mut Line, place: usize) -> Option<Puts> {
    let puts = Puts::new(items(line, place));
    line.some(puts)
}

fn push_numbers(number: u32, size: u32, name: &[u8; 20], answer: &mut Answer) {
    answer.text(" ");
    answer.number(u64::from(number));
    answer.text(" ");
    answer.number(u64::from(size));
    answer.text(" ");
    answer.hex(name);
}

// What is to stand. No log holds the bytes of a file, so they aren't told.
fn push_want(want: &Want, answer: &mut Answer) {
    match want {
        Want::Nothing => answer.text("nothing"),
        Want::Dir { mode } => answer.dir(*mode),
        Want::File { .. } => answer.text("file"),
        Want::Link { target } => answer.link(target.text()),
        Want::Staged {
            mode,
            number,
            size,
            name,
        } => {
            answer.text("staged ");
            answer.mode(*mode);
            push_numbers(*number, *size, name, answer);
        }
    }
}

/// Appends the puts as a field, with a semicolon behind each.
pub fn push_puts(puts: &[Put], answer: &mut Answer) {
    answer.field("");
    for put in puts {
        push_want(&put.want, answer);
        answer.texts(&[" ", put.path.text(), ";"]);
    }
}
