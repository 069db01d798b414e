//! Lists of troves as texts.
ghost use Rattle.std.specs.Prelude.{◌≡◌, ◌++◌, IfOk, OnOk, string_bytes};
ghost use Rattle.update_job.specs.trove-parts.Id.{id_text_of};
ghost use Rattle.cny_report.specs.Troves as spec;
ghost use Rattle.cny_report.specs.Troves.{id_line, troves_text, named_text, told_id, committed_text};

use crate::lines::{Line, lines_text};
use std::alloc::Global;
use std::fmt::Write;
use update_job::cny_base::{Name, OutOfMemory, Text};
use update_job::trove_parts::{TroveId, id_text};
use update_job::trove_stream::Trove;

/// Appends a word, which ends in a space, and the text of an id.
pub(crate) fn push_id(
    alloc: Global,
    out: &mut String,
    word: &str,
    id: &TroveId,
) -> Result<(), OutOfMemory>
    ensures { OnOk result (string_bytes out.new ≡ string_bytes out.old ++ (word.now ++ id_text_of id.now)) }
{
    let id = id_text(alloc, id)?;
    let id = id.get();
    write!(out, "{word}{id}")?;
    Ok(())
}

/// Appends a word, which ends in a space, and the line of an id.
pub(crate) fn push_told(
    alloc: Global,
    out: &mut String,
    word: &str,
    id: &TroveId,
) -> Result<(), OutOfMemory>
    ensures { OnOk result (string_bytes out.new ≡ string_bytes out.old ++ told_id word.now id.now) }
{
    push_id(alloc, out, word, id)?;
    out.push('\n')?;
    Ok(())
}

impl Line for TroveId {
    ghost line = { id_line };

    fn push(&self, alloc: Global, out: &mut String) -> Result<(), OutOfMemory> {
        push_told(alloc, out, "", self)
    }
}

// A trove is told by its id alone.
impl Line for Trove {
    ghost line = { λ trove. id_line trove.id };

    fn push(&self, alloc: Global, out: &mut String) -> Result<(), OutOfMemory> {
        push_told(alloc, out, "", self.id())
    }
}

/// What is written where nothing changes.
pub(crate) fn nothing_changes(alloc: Global) -> Result<Text, OutOfMemory>
    ensures { IfOk result (λ text. text ≡ spec.nothing_changes) }
{
    Text::new(alloc, "nothing changes\n")
}

/// A line for each trove, in the order given: the text of its id, and a line feed.
pub fn troves_text(alloc: Global, troves: &[Trove]) -> Result<Text, OutOfMemory>
    ensures value { IfOk result (λ text. text ≡ troves_text troves.now) }
{
    lines_text(alloc, "", troves)
}

/// The same of the troves of this name alone.
pub fn named_text(alloc: Global, name: &Name, troves: &[Trove]) -> Result<Text, OutOfMemory>
    ensures value { IfOk result (λ text. text ≡ named_text name.now troves.now) }
{
    let mut text = String::new(alloc);
    for trove in troves {
        if trove.id().name == *name {
            trove.push(alloc, &mut text)?;
        }
    }
    Ok(Text::from_string(text))
}

/// A line `committed T` for each id, in the order given, or `nothing changes` where there is none.
pub fn committed_text(alloc: Global, ids: &[TroveId]) -> Result<Text, OutOfMemory>
    ensures value { IfOk result (λ text. text ≡ committed_text ids.now) }
{
    if ids.is_empty() {
        return nothing_changes(alloc);
    }
    lines_text(alloc, "committed ", ids)
}
