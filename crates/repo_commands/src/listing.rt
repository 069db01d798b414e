//! The command that lists committed troves.
ghost use Rattle.std.specs.Prelude.{◌≡◌, ◌++◌, List, ℕ, OnOk, string_bytes};
ghost use Rattle.std.specs.Option.{option_copied};
ghost use Rattle.repo_index.specs.Catalogue.{named};
ghost use Rattle.repo_index.specs.Places.{troves_at};
ghost use Rattle.cli_call.specs.Answer.{AnswersSo};
ghost use Rattle.cli_call.specs.Alone.{ActsOnRepository, AnswersByLists};
ghost use Rattle.cli_call.specs.Command.{disks, AreReady};
ghost use Rattle.repo_commands.specs.Listing as spec;
ghost use Rattle.repo_commands.specs.Listing.{line_of, listed, IsTextOfTroves};

use cli_call::cny_base::{Fault, Name, OutOfMemory, Refusal, Text};
use cli_call::tree_disk::TreeDisk;
use cli_call::trove_stream::Trove;
use cli_call::{Failure, Opened, store_laws};
use cny_report::troves_text;
use repo_index::Catalogue;
use repo_load::stored_state;
use std::alloc::Global;
use std::slice;

// Appends the line of a trove, if there is one.
fn push_line(alloc: Global, text: &mut String, trove: Option<&Trove>) -> Result<(), OutOfMemory>
    ensures { OnOk result (string_bytes text.new ≡ string_bytes text.old ++ line_of (option_copied trove.entry)) }
{
    if let Some(trove) = trove {
        let line = troves_text(alloc, slice::from_ref(trove))?;
        text.push_str(line.get())?;
    }
    Ok(())
}

// A line for the trove at each of these places.
fn text_at(alloc: Global, catalogue: &Catalogue, places: &[usize]) -> Result<Text, OutOfMemory>
    ensures { IsTextOfTroves (troves_at catalogue.now.troves places.now) result }
{
    let mut text = String::new(alloc);
    let mut rest = places;
    while let [place, after @ ..] = rest {
        push_line(alloc, &mut text, catalogue.trove_at(*place))?;
        rest = after;
    }
    Ok(Text::from_string(text))
}

// A line for each trove of a name, of which there is one at least.
fn list_named(alloc: Global, catalogue: &Catalogue, name: &Name) -> Result<Text, Fault>
    ensures { AnswersSo (spec.listed_of name.now (named name.now catalogue.now.troves)) result }
{
    let text = text_at(alloc, catalogue, catalogue.by_name(name))?;
    if text.get().is_empty() {
        return Err(Fault::Refused(Refusal::MissingTrove {
            spec: Text::new(alloc, name.text())?,
        }));
    }
    Ok(text)
}

fn list(alloc: Global, catalogue: &Catalogue, name: &Option<Name>) -> Result<Text, Fault>
    ensures { AnswersSo (listed name.now catalogue.now.troves) result }
{
    match name {
        None => Ok(troves_text(alloc, catalogue.troves())?),
        Some(name) => list_named(alloc, catalogue, name),
    }
}

/// A line for each committed trove, or for each of a name, in the order of the commits; `MissingTrove` where there is none of
/// the name. No call of a disk is made.
pub fn list_committed<T: TreeDisk, P: TreeDisk>(
    alloc: Global,
    name: &Option<Name>,
    opened: &Opened,
    repo: &P,
    root: &T,
) -> Result<Text, Failure>
    requires { AreReady T.disk P.disk (disks root.now repo.now opened.now) }
    ensures acts { (input : List ℕ) → ActsOnRepository T.disk P.disk (spec.list_committed name.now) input (disks root.now repo.now opened.now)
        (disks root.now repo.now opened.now) result }
    ensures lists { (input : List ℕ) → AnswersByLists T.disk P.disk (spec.list_committed name.now) input (disks root.now repo.now opened.now)
        (disks root.now repo.now opened.now) result }
    // Where it is done, a further command may begin.
    ensures again { OnOk result (AreReady T.disk P.disk (disks root.now repo.now opened.now)) }
{
    store_laws();
    stored_state();
    Ok(list(alloc, &opened.catalogue, name)?)
}
