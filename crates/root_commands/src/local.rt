//! The command that answers the local changes of a root.
ghost use Rattle.std.specs.Prelude.{List, ℕ, OnOk};
ghost use Rattle.cli_call.specs.Alone.{AnswersByTree, PerformsAlone};
ghost use Rattle.cli_call.specs.Command.{disks, AreReady, Performs};
ghost use Rattle.root_commands.specs.LocalChanges as spec;

use cli_call::change_set::encode;
use cli_call::cny_base::{Bytes, Name};
use cli_call::tree_disk::TreeDisk;
use cli_call::{Failure, Opened, on_root, store_laws};
use local_db::distinct_databases;
use root_edits::local;
use std::alloc::Global;

/// The stream of the change set of the local changes: from the installed troves that the one of this name reaches to troves on the
/// branch `local@local:LOCAL` that record what stands. `NotInstalled` where there is no trove of this name, `TooLarge` of a version,
/// of a file that stands or of the set, and `Collision`, as `root_edits::local` and `cli_call::change_set::encode` say. No name of a disk
/// changes.
pub fn change_locally<T: TreeDisk, P: TreeDisk>(
    alloc: Global,
    name: &Name,
    opened: &Opened,
    repo: &P,
    root: &mut T,
) -> Result<Bytes, Failure>
    requires { AreReady T.disk P.disk (disks root.old repo.now opened.now) }
    ensures performs { (input : List ℕ) → Performs T.disk P.disk (spec.change_locally name.now) input (disks root.old repo.now opened.now)
        (disks root.new repo.now opened.now) result }
    ensures alone { (input : List ℕ) → PerformsAlone T.disk P.disk (spec.change_locally name.now) input (disks root.old repo.now opened.now)
        (disks root.new repo.now opened.now) result }
    ensures tree { (input : List ℕ) → AnswersByTree T.disk P.disk (spec.change_locally name.now) input (disks root.old repo.now opened.now)
        (disks root.new repo.now opened.now) result }
    // Where it is done, a further command may begin.
    ensures again { OnOk result (AreReady T.disk P.disk (disks root.new repo.now opened.now)) }
{
    store_laws();
    distinct_databases();
    let set = on_root(local(alloc, root, &opened.db.installed, name))?;
    Ok(encode(alloc, &set)?)
}
