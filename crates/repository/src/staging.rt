//! The directory in which contents are staged before it is known what they belong to.
ghost use Rattle.std.specs.Prelude.{◌≡◌, ◌≤◌, IfErr, IfOk, IsErrOf, IsTrue, OnOk};
ghost use Rattle.repo_load.specs.cny-base.Count.{Rose};
ghost use Rattle.repo_load.specs.cny-base.declared.stop.Stop.TheVariants as stop;
ghost use Rattle.repo_load.specs.tree-disk.Confined.{Among, Confined, LeavesOnly};
ghost use Rattle.repo_load.specs.tree-disk.Steps.{IsDiskStop};
ghost use Rattle.repo_load.specs.journal-log.Own.{staged};
ghost use Rattle.repo_load.specs.Files.{repository_base};
ghost use Rattle.tree_journal.specs.Apply.{IsAsBefore};
ghost use Rattle.tree_journal.specs.EmptyStage.{is_stage_name, HasEmptyStage, IsSyncedElsewhere};
ghost use Rattle.repository.specs.Stage.{KeepsRepository, MayStage};

use repo_load::base_path;
use repo_load::cny_base::{Path, Stop};
use repo_load::tree_disk::TreeDisk;
use std::alloc::Global;
use tree_journal::clear_stage;

/// Makes the directory of staged contents an empty one, and answers its path, so that a change set may be pulled into it that
/// comes in pieces. What the disk stores stays.
///
/// Where the disk tells its tree, it is recovered: the commit flag isn't set and its name isn't unsynced. `Failed` comes only where
/// the disk's count of faults rose.
pub fn stage<D: TreeDisk>(alloc: Global, disk: &mut D) -> Result<Path, Stop>
    requires { IsTrue D.disk.tells → MayStage D.disk disk.old }
    ensures path { IfOk result (λ path. path ≡ staged repository_base) }
    // After Ok it is an empty directory.
    ensures emptied { IsTrue D.disk.tells → OnOk result (HasEmptyStage repository_base (D.disk.reads disk.new)) }
    // However it ends, the disk stores the repository that it stored, and a commit may be made where one might be.
    ensures keeps { IsTrue D.disk.tells → KeepsRepository D.disk disk.old disk.new }
    // At every moment, also inside each call of the disk and where a call fails, a crash leaves a tree that recovers to
    // some crash image at entry.
    ensures any_moment { IsTrue D.disk.tells → LeavesOnly D.disk disk.old disk.new (IsAsBefore D.disk repository_base disk.old) }
    // However it ends, no name changed or became unsynced but the base, that directory and what lies below it. After Ok no other
    // name is unsynced.
    ensures confined { IsTrue D.disk.tells → Confined D.disk (Among (is_stage_name repository_base)) disk.old disk.new }
    ensures synced { IsTrue D.disk.tells → OnOk result (IsSyncedElsewhere D.disk repository_base disk.new) }
    ensures later { D.disk.faults disk.old ≤ D.disk.faults disk.new }
    ensures failed { IsErrOf result stop.Failed → Rose (D.disk.faults disk.old) (D.disk.faults disk.new) }
    ensures stops { IfErr result IsDiskStop }
{
    let base = base_path(alloc)?;
    clear_stage(alloc, disk, &base)
}
