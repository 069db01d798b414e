//! The steps of a content store, over any disk.
use crate::disk::told_holds;
use line_words::{Answer, Line};
use root_words::Quiet;
use root_words::content_store::{
    ByteNamer, Contents, Namer, NoContents, Sha1Namer, clear, get, has, put, put_file,
};
use root_words::tree_memory::cny_base::{Bytes, Path, Refusal, Stop};
use root_words::tree_memory::tree_disk::steps;

// The longest directory that a content is put into.
const LONGEST_DIR: usize = 983;

fn told_name(name: &[u8; 20], answer: &mut Answer) {
    answer.field("ok ");
    answer.hex(name);
}

// What was put, or why it wasn't: two contents of one name by the name and the place of the first difference.
fn said_name(done: Result<[u8; 20], Stop>, answer: &mut Answer) {
    if let Err(Stop::Refused(Refusal::Collision { name, at })) = &done {
        answer.field("collision ");
        answer.hex(name);
        return answer.field_number(*at);
    }
    answer.outcome(done, told_name);
}

fn told_found(found: &Option<Bytes>, answer: &mut Answer) {
    let Some(bytes) = found else {
        return answer.field("none");
    };
    answer.field("ok ");
    answer.contents(bytes.get());
}

// `store find DIR NAME`: what a source without contents finds under a name, whatever the directory holds: nothing. It never fails.
fn find(content: &[u8; 20], answer: &mut Answer) {
    match NoContents.find(answer.alloc(), content) {
        Ok(found) => told_found(&found, answer),
        Err(_) => answer.unreadable(),
    }
}

// `store put DIR NAMER CONTENT`, and `store put_file DIR NAMER PATH`.
fn put_by<N: Namer>(disk: &mut Quiet, namer: &N, dir: &Path, line: &mut Line, answer: &mut Answer) {
    if dir.text().len() > LONGEST_DIR {
        return line.unreadable();
    }
    if line.name() == "store put" {
        return said_name(put(line.alloc(), disk, namer, dir, line.bytes(2)), answer);
    }
    if let Some(from) = line.path(2) {
        said_name(put_file(line.alloc(), disk, namer, dir, &from), answer);
    }
}

fn put_named(disk: &mut Quiet, dir: &Path, line: &mut Line, answer: &mut Answer) {
    match line.text(1) {
        "sha1" => put_by(disk, &Sha1Namer, dir, line, answer),
        "byte" => put_by(disk, &ByteNamer, dir, line, answer),
        _ => line.unreadable(),
    }
}

fn at_path(disk: &mut Quiet, step: &str, path: &Path, line: &mut Line, answer: &mut Answer) {
    let alloc = line.alloc();
    match step {
        "put" | "put_file" => put_named(disk, path, line, answer),
        "fill" => answer.done(steps::append(alloc, disk, path, line.bytes(1))),
        "get" => answer.outcome(get(alloc, disk, path, &line.digest(1)), told_found),
        "has" => answer.outcome(has(alloc, disk, path, &line.digest(1)), told_holds),
        "clear" => answer.done(clear(alloc, disk, path, &line.digest(1))),
        "find" => find(&line.digest(1), answer),
        _ => line.unreadable(),
    }
}

/// Makes a step of the store.
pub fn call(disk: &mut Quiet, step: &str, line: &mut Line, answer: &mut Answer) {
    if let Some(path) = line.path(0) {
        at_path(disk, step, &path, line, answer);
    }
}
