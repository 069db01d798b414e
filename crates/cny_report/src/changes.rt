//! Change sets as texts.
ghost use Rattle.std.specs.Prelude.{◌≡◌, ◌∷◌, [], ◌++◌, IfOk, OnOk, codes, string_bytes};
ghost use Rattle.update_job.specs.trove-parts.Id.{id_text_of};
ghost use Rattle.cny_report.specs.Changes.{part_line, content_line, change_text};

use crate::digits::digits_of;
use crate::lines::{Line, push_lines};
use crate::troves::{push_id, push_told};
use std::alloc::Global;
use std::fmt::Write;
use update_job::change_set::{Carried, ChangeSet, Part};
use update_job::cny_base::{OutOfMemory, Text};
use update_job::trove_parts::TroveId;

fn push_relative(
    alloc: Global,
    out: &mut String,
    old: &TroveId,
    fresh: &TroveId,
) -> Result<(), OutOfMemory>
    ensures { OnOk result (string_bytes out.new
        ≡ string_bytes out.old ++ (codes "relative " ++ id_text_of fresh.now ++ codes " from " ++ id_text_of old.now ++ 10 ∷ [])) }
{
    push_id(alloc, out, "relative ", fresh)?;
    push_told(alloc, out, " from ", old)
}

impl Line for Part {
    ghost line = { part_line };

    fn push(&self, alloc: Global, out: &mut String) -> Result<(), OutOfMemory> {
        match self {
            Part::Whole(trove) => push_told(alloc, out, "absolute ", trove.id()),
            Part::Relative(rel) => {
                let parts = rel.parts();
                push_relative(alloc, out, &parts.old, &parts.fresh)
            }
        }
    }
}

impl Line for Carried {
    ghost line = { content_line };

    fn push(&self, alloc: Global, out: &mut String) -> Result<(), OutOfMemory> {
        let name = digits_of(alloc, &self.name)?;
        let size = self.bytes.get().len();
        write!(out, "content {name} {size}\n")?;
        Ok(())
    }
}

/// What a change set holds, in its order: a line `absolute T` for each whole trove, `relative T from T` for each relative
/// one, of the id that it leads to and the one that it starts from, and then `content HEX SIZE` for each content, with the
/// digits of its name and the number of its bytes. Each line ends in a line feed.
pub fn change_text(alloc: Global, change: &ChangeSet) -> Result<Text, OutOfMemory>
    ensures value { IfOk result (λ text. text ≡ change_text change.now) }
{
    let mut text = String::new(alloc);
    push_lines(alloc, &mut text, "", change.parts.get())?;
    push_lines(alloc, &mut text, "", change.contents.get())?;
    Ok(Text::from_string(text))
}
