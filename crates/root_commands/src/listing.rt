//! The command that lists installed troves.
ghost use Rattle.std.specs.Prelude.{List, ℕ, OnOk};
ghost use Rattle.cli_call.specs.Alone.{AnswersByLists, PerformsAlone};
ghost use Rattle.cli_call.specs.Answer.{AnswersSo};
ghost use Rattle.cli_call.specs.Command.{disks, AreReady, Performs};
ghost use Rattle.root_commands.specs.Listing as spec;
ghost use Rattle.root_commands.specs.Listing.{listed};

use cli_call::cny_base::{Fault, Name, Refusal, Text};
use cli_call::tree_disk::TreeDisk;
use cli_call::trove_stream::Installed;
use cli_call::{Failure, Opened, store_laws};
use cny_report::{trove_text, troves_text};
use local_db::distinct_databases;
use std::alloc::Global;

// What the installed trove of a name records.
fn describe(alloc: Global, installed: &Installed, name: &Name) -> Result<Text, Fault>
    ensures { AnswersSo (spec.described name.now installed.now) result }
{
    match installed.get(name) {
        Some(trove) => Ok(trove_text(alloc, trove)?),
        None => {
            let name = Text::new(alloc, name.text())?;
            Err(Fault::Refused(Refusal::NotInstalled { name }))
        }
    }
}

fn list(alloc: Global, installed: &Installed, name: &Option<Name>) -> Result<Text, Fault>
    ensures { AnswersSo (listed name.now installed.now) result }
{
    match name {
        None => Ok(troves_text(alloc, installed.troves())?),
        Some(name) => describe(alloc, installed, name),
    }
}

/// A line for each installed trove, in the order of their names; or what the one of a name records, `NotInstalled` where there is
/// none of it. No call of a disk is made.
pub fn list_installed<T: TreeDisk, P: TreeDisk>(
    alloc: Global,
    name: &Option<Name>,
    opened: &Opened,
    repo: &P,
    root: &T,
) -> Result<Text, Failure>
    requires { AreReady T.disk P.disk (disks root.now repo.now opened.now) }
    ensures performs { (input : List ℕ) → Performs T.disk P.disk (spec.list_installed name.now) input (disks root.now repo.now opened.now)
        (disks root.now repo.now opened.now) result }
    ensures alone { (input : List ℕ) → PerformsAlone T.disk P.disk (spec.list_installed name.now) input (disks root.now repo.now opened.now)
        (disks root.now repo.now opened.now) result }
    ensures lists { (input : List ℕ) → AnswersByLists T.disk P.disk (spec.list_installed name.now) input (disks root.now repo.now opened.now)
        (disks root.now repo.now opened.now) result }
    // Where it is done, a further command may begin.
    ensures again { OnOk result (AreReady T.disk P.disk (disks root.now repo.now opened.now)) }
{
    store_laws();
    distinct_databases();
    Ok(list(alloc, &opened.db.installed, name)?)
}
