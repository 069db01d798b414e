//! What a trove records, as text.
ghost use Rattle.std.specs.Prelude.{◌≡◌, ◌<◌, ◌++◌, ◌∷◌, [], IfOk, OnOk, string_bytes};
ghost use Rattle.update_job.specs.cny-base.Number.{octal_text};
ghost use Rattle.cny_dep.specs.Dep.{dep_text};
ghost use Rattle.cny_report.specs.Records.{owner_field, flag_field, flags_field, content_field, record_text, file_line, trove_text};

use crate::digits::digits_of;
use crate::lines::{Line, push_lines};
use cny_dep::Dep;
use std::alloc::{AllocError, Global};
use std::fmt::Write;
use update_job::cny_base::{Mode, OutOfMemory, Text, octal};
use update_job::cny_stream::{FileRec, Flags, Owner};
use update_job::trove_parts::FileAt;
use update_job::trove_stream::Trove;

fn push_digit(out: &mut String, digit: u8) -> Result<(), AllocError>
    requires { digit < 128 }
    ensures { OnOk result (string_bytes out.new ≡ string_bytes out.old ++ digit ∷ []) }
{
    out.push(char::from(digit))
}

fn push_mode(out: &mut String, mode: Mode) -> Result<(), AllocError>
    ensures { OnOk result (string_bytes out.new ≡ string_bytes out.old ++ octal_text mode) }
{
    let [first, second, third, fourth] = octal(mode);
    push_digit(out, first)?;
    push_digit(out, second)?;
    push_digit(out, third)?;
    push_digit(out, fourth)
}

fn push_owner(out: &mut String, owner: &Owner) -> Result<(), AllocError>
    ensures { OnOk result (string_bytes out.new ≡ string_bytes out.old ++ owner_field owner.now) }
{
    if owner.is_root() {
        return Ok(());
    }
    let (user, group) = (owner.user(), owner.group());
    write!(out, " {user}:{group}")
}

fn word_if(flag: bool, word: &str) -> &str
    ensures { result.now ≡ flag_field flag word.now }
{
    if flag { word } else { "" }
}

fn push_flags(out: &mut String, flags: Flags) -> Result<(), AllocError>
    ensures { OnOk result (string_bytes out.new ≡ string_bytes out.old ++ flags_field flags) }
{
    let config = word_if(flags.config, " config");
    let initial = word_if(flags.initial, " initial");
    let transient = word_if(flags.transient, " transient");
    write!(out, "{config}{initial}{transient}")
}

fn push_content(
    alloc: Global,
    out: &mut String,
    size: u32,
    name: &[u8; 20],
) -> Result<(), AllocError>
    ensures { OnOk result (string_bytes out.new ≡ string_bytes out.old ++ content_field size name.now) }
{
    let digits = digits_of(alloc, name)?;
    write!(out, " {size} {digits}")
}

// Appends a word, the mode and the owner, with which a directory and a file begin.
fn push_owned(out: &mut String, word: &str, mode: Mode, owner: &Owner) -> Result<(), AllocError>
    ensures { OnOk result (string_bytes out.new ≡ string_bytes out.old ++ (word.now ++ octal_text mode ++ owner_field owner.now)) }
{
    out.push_str(word)?;
    push_mode(out, mode)?;
    push_owner(out, owner)
}

fn push_dir(out: &mut String, path: &str, mode: Mode, owner: &Owner) -> Result<(), AllocError>
    ensures { OnOk result (string_bytes out.new ≡ string_bytes out.old ++ record_text path.now (FileRec.Dir mode owner.now)) }
{
    push_owned(out, "dir ", mode, owner)?;
    write!(out, " {path}")
}

fn push_link(out: &mut String, path: &str, target: &str) -> Result<(), AllocError>
    ensures { OnOk result (string_bytes out.new ≡ string_bytes out.old ++ record_text path.now (FileRec.Link target.now)) }
{
    write!(out, "link {path} -> {target}")
}

fn push_record(alloc: Global, out: &mut String, path: &str, rec: &FileRec) -> Result<(), AllocError>
    ensures { OnOk result (string_bytes out.new ≡ string_bytes out.old ++ record_text path.now rec.now) }
{
    match rec {
        FileRec::Dir { mode, owner } => push_dir(out, path, *mode, owner),
        FileRec::File {
            mode,
            owner,
            flags,
            size,
            name,
        } => {
            push_owned(out, "file ", *mode, owner)?;
            push_content(alloc, out, *size, name)?;
            push_flags(out, *flags)?;
            write!(out, " {path}")
        }
        FileRec::Link { target } => push_link(out, path, target.text()),
    }
}

impl Line for FileAt {
    ghost line = { file_line };

    fn push(&self, alloc: Global, out: &mut String) -> Result<(), OutOfMemory> {
        push_record(alloc, out, self.path.text(), &self.rec)?;
        out.push('\n')?;
        Ok(())
    }
}

impl Line for Dep {
    ghost line = { λ dep. dep_text dep ++ 10 ∷ [] };

    fn push(&self, _: Global, out: &mut String) -> Result<(), OutOfMemory> {
        out.push_str(self.text())?;
        out.push('\n')?;
        Ok(())
    }
}

fn push_trove(alloc: Global, out: &mut String, trove: &Trove) -> Result<(), OutOfMemory>
    ensures { OnOk result (string_bytes out.new ≡ string_bytes out.old ++ trove_text trove.now) }
{
    trove.push(alloc, out)?;
    push_lines(alloc, out, "", trove.files())?;
    push_lines(alloc, out, "ref ", trove.refs())?;
    push_lines(alloc, out, "requires ", trove.requires_())?;
    push_lines(alloc, out, "provides ", trove.provides())
}

/// A trove with all that it records: the line of its id; for each path, in path order, `dir MODE PATH`,
/// `file MODE SIZE HEX [config] [initial] [transient] PATH` or `link PATH -> TARGET`, of a directory or file that root doesn't
/// own with `USER:GROUP` behind the mode; then the lines `ref T`, `requires DEP` and `provides DEP`.
pub fn trove_text(alloc: Global, trove: &Trove) -> Result<Text, OutOfMemory>
    ensures value { IfOk result (λ text. text ≡ trove_text trove.now) }
{
    let mut text = String::new(alloc);
    push_trove(alloc, &mut text, trove)?;
    Ok(Text::from_string(text))
}
