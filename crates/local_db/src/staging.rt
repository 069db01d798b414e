//! The directory in which contents are staged before it is known what they belong to.
ghost use Rattle.std.specs.Prelude.{◌≡◌, ◌≤◌, IfErr, IfOk, IsErrOf, IsTrue, OnOk};
ghost use Rattle.trove_stream.specs.cny-base.Count.{Rose};
ghost use Rattle.trove_stream.specs.cny-base.Reserved.{private_directory};
ghost use Rattle.trove_stream.specs.cny-base.declared.stop.Stop.TheVariants as stop;
ghost use Rattle.tree_journal.specs.tree-disk.Confined.{Among, Confined, LeavesOnly};
ghost use Rattle.tree_journal.specs.tree-disk.Steps.{IsDiskStop};
ghost use Rattle.tree_journal.specs.journal-log.Own.{staged};
ghost use Rattle.tree_journal.specs.Apply.{IsAsBefore};
ghost use Rattle.tree_journal.specs.EmptyStage.{is_stage_name, CanEmptyStage, HasEmptyStage, IsSyncedElsewhere};
ghost use Rattle.local_db.specs.Stage.{KeepsSystem};

use crate::names::base_path;
use std::alloc::Global;
use tree_journal::clear_stage;
use tree_journal::tree_disk::TreeDisk;
use trove_stream::cny_base::{Path, Stop};

/// Makes the directory of staged contents an empty one, and answers its path, so that a change set may be pulled into it that
/// comes in pieces. What the root stores stays.
///
/// Where the root tells its tree, the parent of the private directory is a directory, and the commit flag isn't
/// set and its name isn't unsynced. `Failed` comes only where the root's count of faults rose.
pub fn stage<T: TreeDisk>(alloc: Global, root: &mut T) -> Result<Path, Stop>
    requires { IsTrue T.disk.tells → CanEmptyStage T.disk private_directory root.old }
    ensures path { IfOk result (λ path. path ≡ staged private_directory) }
    // After Ok it is an empty directory.
    ensures emptied { IsTrue T.disk.tells → OnOk result (HasEmptyStage private_directory (T.disk.reads root.new)) }
    // However it ends, the root stores the system that it stored.
    ensures keeps { IsTrue T.disk.tells → KeepsSystem T.disk root.old root.new }
    // At every moment, also inside each call of the disk and where a call fails, a crash leaves a tree that recovers to
    // some crash image at entry.
    ensures any_moment { IsTrue T.disk.tells → LeavesOnly T.disk root.old root.new (IsAsBefore T.disk private_directory root.old) }
    // However it ends, no name changed or became unsynced but the private directory, that directory and what lies below it. After Ok
    // no other name is unsynced.
    ensures confined { IsTrue T.disk.tells → Confined T.disk (Among (is_stage_name private_directory)) root.old root.new }
    ensures synced { IsTrue T.disk.tells → OnOk result (IsSyncedElsewhere T.disk private_directory root.new) }
    ensures later { T.disk.faults root.old ≤ T.disk.faults root.new }
    ensures failed { IsErrOf result stop.Failed → Rose (T.disk.faults root.old) (T.disk.faults root.new) }
    ensures stops { IfErr result IsDiskStop }
{
    let base = base_path(alloc)?;
    clear_stage(alloc, root, &base)
}
