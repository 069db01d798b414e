//! The command that describes a change set.
ghost use Rattle.std.specs.Prelude.{OnOk};
ghost use Rattle.cli_call.specs.Alone.{AnswersByLists, PerformsAlone};
ghost use Rattle.cli_call.specs.Command.{disks, AreReady, Performs};
ghost use Rattle.repo_commands.specs.ShowChangeSet as spec;

use cli_call::change_set::decode;
use cli_call::cny_base::Text;
use cli_call::tree_disk::TreeDisk;
use cli_call::{Failure, Opened, store_laws};
use cny_report::change_text;
use std::alloc::Global;

/// Describes the change set that the input is: a line for each part, and one for each content. No call of a disk is made.
pub fn show_change_set<T: TreeDisk, P: TreeDisk>(
    alloc: Global,
    input: &[u8],
    opened: &Opened,
    repo: &P,
    root: &T,
) -> Result<Text, Failure>
    requires { AreReady T.disk P.disk (disks root.now repo.now opened.now) }
    ensures performs { Performs T.disk P.disk spec.show_change_set input.now (disks root.now repo.now opened.now) (disks root.now repo.now opened.now) result }
    ensures alone { PerformsAlone T.disk P.disk spec.show_change_set input.now (disks root.now repo.now opened.now) (disks root.now repo.now opened.now) result }
    ensures lists { AnswersByLists T.disk P.disk spec.show_change_set input.now (disks root.now repo.now opened.now) (disks root.now repo.now opened.now) result }
    // Where it is done, a further command may begin.
    ensures again { OnOk result (AreReady T.disk P.disk (disks root.now repo.now opened.now)) }
{
    store_laws();
    let change = decode(alloc, input)?;
    Ok(change_text(alloc, &change)?)
}
