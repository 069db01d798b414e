//! The lines behind the version's, up to the line `end`.
ghost use Rattle.std.specs.Prelude.{◌≡◌, ◌<◌, ◌≤◌, Ok, Some, false, length, codes, IfOk, OnOk, IfErr};
ghost use Rattle.std.specs.Str.{bytes_eq};
ghost use Rattle.manifest_troves.specs.cny-base.declared.limits.TheConstants.{CONTENT_LIMIT};
ghost use Rattle.cny_manifest.specs.Grammar.{InBody, InContent, InTarget};
ghost use Rattle.cny_manifest.specs.Lines.{line_at};
ghost use Rattle.cny_manifest.specs.Reading.{Runs, StopsBy, IsWordAt, IsFaultAt, IsFile, NoFile};

use crate::draft::Draft;
use crate::entries::{FileLine, target_of};
use crate::fault::{ReadError, Unread, fault_at};
use crate::fields::is_same;
use crate::lines::{content_of, line_of};
use crate::words::{WholeLine, Word, word_at};
use manifest_troves::cny_base::{CONTENT_LIMIT, OutOfMemory, Path, TextFault};
use std::alloc::Global;

// Whether a line was taken; else the fault at its first byte.
fn line_taken(taken: Result<(), TextFault>, rest: &[u8]) -> Result<(), ReadError>
    ensures ok { OnOk result (IfErr taken (λ fault. ⊥)) }
    ensures err { IfErr result (IsFaultAt rest.now taken) }
{
    match taken {
        Ok(()) => Ok(()),
        Err(TextFault::Bad) => Err(fault_at(rest)),
        Err(TextFault::Memory) => Err(ReadError::Memory),
    }
}

// Takes a line that is whole by itself.
fn take_whole(
    alloc: Global,
    draft: &mut Draft,
    word: WholeLine,
    line: &[u8],
    fields: &[u8],
    rest: &[u8],
    behind: &[u8],
) -> Result<(), ReadError>
    requires { IsWordAt (Word.Whole word) rest.now line.now fields.now behind.now }
    ensures ok { OnOk result (Runs (InBody draft.old) rest.now (InBody draft.new) behind.now) }
    ensures err { IfErr result (StopsBy (InBody draft.old) rest.now) }
{
    let taken = draft.take_whole(alloc, word, fields);
    line_taken(taken, rest)?;
    Ok(())
}

// What the fields of a `file` line say, within the limit of a content.
fn file_line(
    alloc: Global,
    draft: &Draft,
    fields: &[u8],
    rest: &[u8],
) -> Result<FileLine, ReadError>
    ensures ok { IfOk result (λ line. IsFile draft.now fields.now line) }
    ensures err { IfErr result (NoFile draft.now fields.now rest.now) }
{
    match draft.file_line(alloc, fields) {
        Ok(line) => {
            if line.size > u64::from(CONTENT_LIMIT) {
                return Err(ReadError::Unread(Unread::TooLarge { size: line.size }));
            }
            Ok(line)
        }
        Err(TextFault::Bad) => Err(fault_at(rest)),
        Err(TextFault::Memory) => Err(ReadError::Memory),
    }
}

// Takes the content of a file, and gives what is behind it.
fn take_content<'a>(
    alloc: Global,
    draft: &mut Draft,
    line: FileLine,
    rest: &'a [u8],
) -> Result<&'a [u8], ReadError>
    requires { line.size ≤ CONTENT_LIMIT }
    ensures ok { IfOk result (λ after. Runs (InContent draft.old line) rest.now (InBody draft.new) after.now) }
    ensures shorter { IfOk result (λ after. length after.now < length rest.now) }
    ensures err { IfErr result (StopsBy (InContent draft.old line) rest.now) }
{
    let (content, after) = content_of(line.size as usize, rest)?;
    draft.push_file(alloc, line, content)?;
    Ok(after)
}

// Takes a `file` line and the content behind it, and gives what is behind that.
fn take_file<'a>(
    alloc: Global,
    draft: &mut Draft,
    line: &[u8],
    fields: &[u8],
    rest: &[u8],
    behind: &'a [u8],
) -> Result<&'a [u8], ReadError>
    requires { IsWordAt Word.File rest.now line.now fields.now behind.now }
    ensures ok { IfOk result (λ after. Runs (InBody draft.old) rest.now (InBody draft.new) after.now) }
    ensures shorter { IfOk result (λ after. length after.now < length rest.now) }
    ensures err { IfErr result (StopsBy (InBody draft.old) rest.now) }
{
    let file = file_line(alloc, draft, fields, rest)?;
    take_content(alloc, draft, file, behind)
}

// Takes the line with the target of a link, and gives what is behind it.
fn take_target<'a>(
    alloc: Global,
    draft: &mut Draft,
    path: Path,
    rest: &'a [u8],
) -> Result<&'a [u8], ReadError>
    ensures ok { IfOk result (λ after. Runs (InTarget draft.old path) rest.now (InBody draft.new) after.now) }
    ensures shorter { IfOk result (λ after. length after.now < length rest.now) }
    ensures err { IfErr result (StopsBy (InTarget draft.old path) rest.now) }
{
    let (line, after) = line_of(rest)?;
    match target_of(alloc, line) {
        Ok(target) => {
            draft.push_link(path, target)?;
            Ok(after)
        }
        Err(TextFault::Bad) => Err(fault_at(rest)),
        Err(TextFault::Memory) => Err(ReadError::Memory),
    }
}

// The path of a `link` line.
fn link_path(
    alloc: Global,
    draft: &Draft,
    line: &[u8],
    fields: &[u8],
    rest: &[u8],
    behind: &[u8],
) -> Result<Path, ReadError>
    requires { IsWordAt Word.Link rest.now line.now fields.now behind.now }
    ensures ok { IfOk result (λ path. Runs (InBody draft.now) rest.now (InTarget draft.now path) behind.now) }
    ensures err { IfErr result (StopsBy (InBody draft.now) rest.now) }
{
    match draft.link_path(alloc, fields) {
        Ok(path) => Ok(path),
        Err(TextFault::Bad) => Err(fault_at(rest)),
        Err(TextFault::Memory) => Err(ReadError::Memory),
    }
}

// Takes a `link` line and the target behind it, and gives what is behind that.
fn take_link<'a>(
    alloc: Global,
    draft: &mut Draft,
    line: &[u8],
    fields: &[u8],
    rest: &[u8],
    behind: &'a [u8],
) -> Result<&'a [u8], ReadError>
    requires { IsWordAt Word.Link rest.now line.now fields.now behind.now }
    ensures ok { IfOk result (λ after. Runs (InBody draft.old) rest.now (InBody draft.new) after.now) }
    ensures shorter { IfOk result (λ after. length after.now < length rest.now) }
    ensures err { IfErr result (StopsBy (InBody draft.old) rest.now) }
{
    let path = link_path(alloc, draft, line, fields, rest, behind)?;
    take_target(alloc, draft, path, behind)
}

// Takes the line at the front, and what belongs to it, and gives what is behind that.
fn take_line<'a>(
    alloc: Global,
    draft: &mut Draft,
    line: &[u8],
    rest: &[u8],
    behind: &'a [u8],
) -> Result<&'a [u8], ReadError>
    requires line { line_at rest.now ≡ Ok (line.now, behind.now) }
    requires goes_on { bytes_eq line.now (codes "end") ≡ false }
    ensures ok { IfOk result (λ after. Runs (InBody draft.old) rest.now (InBody draft.new) after.now) }
    ensures shorter { IfOk result (λ after. length after.now < length rest.now) }
    ensures err { IfErr result (StopsBy (InBody draft.old) rest.now) }
{
    let Some((word, fields)) = word_at(line) else {
        return Err(fault_at(rest));
    };
    match word {
        Word::Whole(word) => {
            take_whole(alloc, draft, word, line, fields, rest, behind)?;
            Ok(behind)
        }
        Word::File => take_file(alloc, draft, line, fields, rest, behind),
        Word::Link => take_link(alloc, draft, line, fields, rest, behind),
    }
}

/// Takes the lines up to the line `end`; gives what is left from that line on, and what is behind it.
pub(crate) fn take_lines<'a>(
    alloc: Global,
    draft: &mut Draft,
    bytes: &'a [u8],
) -> Result<(&'a [u8], &'a [u8]), ReadError>
    ensures ok { IfOk result (λ left. Runs (InBody draft.old) bytes.now (InBody draft.new) left.0.now) }
    ensures end { IfOk result (λ left. line_at left.0.now ≡ Ok (codes "end", left.1.now)) }
    ensures err { IfErr result (StopsBy (InBody draft.old) bytes.now) }
{
    let mut rest = bytes;
    'lines: loop {
        let (line, behind) = line_of(rest)?;
        if is_same(line, b"end") {
            return Ok((rest, behind));
        }
        rest = take_line(alloc, draft, line, rest, behind)?;
    }
}
