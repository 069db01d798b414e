//! The commands by which a repository takes over what it lacks of another one.
ghost use Rattle.std.specs.Prelude.{false, List, ℕ, OnOk};
ghost use Rattle.cli_call.specs.cny-laws.Call.{FilesStay};
ghost use Rattle.cli_call.specs.Alone.{ActsOnRepository, AnswersByContents, AnswersByLists};
ghost use Rattle.cli_call.specs.Command.{disks, AreReady};
ghost use Rattle.repo_commands.specs.AskMirror as ask_spec;
ghost use Rattle.repo_commands.specs.TakeMirror as take_spec;

use crate::committing::commit_set;
use cli_call::cny_base::{Bytes, Text};
use cli_call::tree_disk::TreeDisk;
use cli_call::{Failure, Opened, store_laws};
use repo_load::stored_state;
use repo_mirror::{ask, take};
use std::alloc::Global;

/// The stream with the one request to another repository for all troves but those that are committed. `TooLarge` where it would
/// have more than 268,435,456 bytes, with its length. No call of a disk is made.
pub fn ask_mirror<T: TreeDisk, P: TreeDisk>(
    alloc: Global,
    opened: &Opened,
    repo: &P,
    root: &T,
) -> Result<Bytes, Failure>
    requires { AreReady T.disk P.disk (disks root.now repo.now opened.now) }
    ensures acts { (input : List ℕ) → ActsOnRepository T.disk P.disk ask_spec.ask_mirror input (disks root.now repo.now opened.now)
        (disks root.now repo.now opened.now) result }
    ensures lists { (input : List ℕ) → AnswersByLists T.disk P.disk ask_spec.ask_mirror input (disks root.now repo.now opened.now)
        (disks root.now repo.now opened.now) result }
    // Where it is done, a further command may begin.
    ensures again { OnOk result (AreReady T.disk P.disk (disks root.now repo.now opened.now)) }
{
    store_laws();
    stored_state();
    Ok(ask(alloc, &opened.catalogue)?)
}

/// Commits the change set of whole troves that the input has, which is a stream with this one reply, as what another repository
/// answers to what was asked: a line `committed T` for each trove, in their order, or `nothing changes` where there is none.
/// `Malformed` for any other input, with the place of its first fault. It takes effect as a whole or not at all, whenever the machine
/// stops.
pub fn take_mirror<T: TreeDisk, P: TreeDisk>(
    alloc: Global,
    input: &[u8],
    opened: &mut Opened,
    repo: &mut P,
    root: &T,
) -> Result<Text, Failure>
    requires { AreReady T.disk P.disk (disks root.now repo.old opened.old) }
    ensures performs { ActsOnRepository T.disk P.disk take_spec.take_mirror input.now (disks root.now repo.old opened.old) (disks root.now repo.new opened.new) result }
    // Also where other contents of the repository are damaged; and the files of the commits and of committed contents stay.
    ensures whole { AnswersByContents T.disk P.disk take_spec.take_mirror input.now (disks root.now repo.old opened.old) (disks root.now repo.new opened.new) result }
    ensures files { FilesStay P.disk opened.old.catalogue false repo.old repo.new }
    // Where it is done, a further command may begin.
    ensures again { OnOk result (AreReady T.disk P.disk (disks root.now repo.new opened.new)) }
{
    store_laws();
    let set = take(alloc, input)?;
    commit_set(alloc, &set, opened, repo, root)
}
