//! A root made ready for a command.
ghost use Rattle.std.specs.Prelude.{◌≡◌, ◌≤◌, Err, IfErr, IfOk, IsTrue, false, true};
ghost use Rattle.std.specs.FinMap.{get};
ghost use Rattle.rollback_stack.specs.cny-base.Reserved.{is_reserved, private_directory};
ghost use Rattle.rollback_stack.specs.cny-base.declared.refusal.Refusal.{Refusal};
ghost use Rattle.rollback_stack.specs.tree-disk.Confined.{Among, Confined, LeavesOnly};
ghost use Rattle.rollback_stack.specs.tree-disk.Disk.{HasRead};
ghost use Rattle.rollback_stack.specs.tree-disk.Steps.{no_name};
ghost use Rattle.rollback_stack.specs.tree-disk.Tree.{AgreesOutside, Tree};
ghost use Rattle.rollback_stack.specs.tree-disk.Unfailed.{UnlessFailed};
ghost use Rattle.tree_journal.specs.Recovery.{RecoversTo, is_committed};
ghost use Rattle.rollback_stack.specs.Migrated.{is_up_to_date};
ghost use Rattle.local_db.specs.Names.{database};
ghost use Rattle.local_db.specs.SystemState.{SystemState};
ghost use Rattle.local_db.specs.Stores.{IsDatabase, RecoversToSystem};
ghost use Rattle.local_db.specs.declared.format.Format.TheVariants.{Two};
ghost use Rattle.system_core.specs.FixedDirs.{fixed_dirs};
ghost use Rattle.system_core.specs.Migrating.{RecoversInAFormat};
ghost use Rattle.system_core.specs.Ready.{HasReadied, IsOnTheWay, IsReadyStop, MakesReady, Readies, ShowsOnTheWay};
ghost use Rattle.tree_journal.specs.Recovered.{RecoversToNone};

use crate::migrating::load_migrated;
use crate::opening::recover_root;
use local_db::{Db, distinct_databases, migrated_system};
use rollback_stack::cny_base::Stop;
use rollback_stack::one_record;
use rollback_stack::tree_disk::TreeDisk;
use std::alloc::Global;

// What is promised of trees, and on every disk.
fn ready_trees<T: TreeDisk>(alloc: Global, root: &mut T) -> Result<Db, Stop>
    ensures { Readies T.disk root.old root.new result }
{
    recover_root(alloc, root)?;
    load_migrated(alloc, root)
}

/// Makes a root ready for a command, and answers its database: its fixed directories are tested, what a crash left is recovered, and a
/// root of format 1 is brought to format 2 in one write, which changes no stored system.
///
/// `Parent` exactly where one of the fixed directories isn't a directory, with the first of them, and where the first write of the
/// log behind a set commit flag that can't be put is at that path. `Damaged` exactly where that log or a file that it stages is
/// damaged; and else where the database of what the root recovers to fails its grammar or a cross-check, or in format 1 a record does,
/// each with the path of the file. A refused call leaves the root as it stands, and so does a damaged log.
///
/// At every moment a crash leaves a tree that might have been left before, or one that recovers to the same as the root did, as it is
/// or in format 2. `Failed` comes only where the root's count of faults rose.
pub fn ready<T: TreeDisk>(alloc: Global, root: &mut T) -> Result<Db, Stop>
    // After Ok the root is at rest, and holds what it recovered to in format 2, with this database.
    ensures ready { IsTrue T.disk.tells → IfOk result (HasReadied T.disk root.old root.new) }
    ensures images { IsTrue T.disk.tells → LeavesOnly T.disk root.old root.new (IsOnTheWay T.disk root.old) }
    ensures reads { IsTrue T.disk.tells → (x : Tree) → RecoversTo private_directory (T.disk.reads root.old) x → RecoversInAFormat x (T.disk.reads root.new) }
    // Where no call of the disk failed.
    ensures shown { IsTrue T.disk.tells → UnlessFailed T.disk root.old root.new
        (λ t. (x : Tree) → RecoversTo private_directory (T.disk.reads root.old) x → ShowsOnTheWay (T.disk.reads root.old) x t) }
    // By each system that the root recovers to: it is the same all the while.
    ensures makes { IsTrue T.disk.tells → (s : SystemState) → RecoversToSystem (T.disk.reads root.old) s → MakesReady T.disk s root.old root.new result }
    // Where a fixed directory is none, the root is only read.
    ensures missing { IsTrue T.disk.tells → (why : Refusal) → fixed_dirs (T.disk.reads root.old) ≡ Err why → HasRead T.disk root.old root.new (Unit {0}) }
    // A root that recovers to no tree is left as it stands; and so is one whose commit flag isn't set and whose database is up to date.
    ensures untouched { IsTrue T.disk.tells → RecoversToNone private_directory (T.disk.reads root.old) → Confined T.disk (Among no_name) root.old root.new }
    ensures clear { IsTrue T.disk.tells → is_committed private_directory (T.disk.reads root.old) ≡ false
        → is_up_to_date (get (T.disk.reads root.old) database) ≡ true → Confined T.disk (Among no_name) root.old root.new }
    // On every disk, also where it tells nothing.
    ensures database { IfOk result (λ db. IsDatabase Two db.installed db.oldest db.newest) }
    ensures stops { IfErr result (IsReadyStop T.disk root.old root.new) }
    ensures later { T.disk.faults root.old ≤ T.disk.faults root.new }
    // Where the commit flag wasn't set no name outside the private directory is another than at entry, however it ends.
    ensures outer { IsTrue T.disk.tells → is_committed private_directory (T.disk.reads root.old) ≡ false
        → AgreesOutside is_reserved (T.disk.reads root.new) (T.disk.reads root.old) }
{
    // A tree holds one database and of each number one record; what a migration writes changes no stored system.
    distinct_databases();
    one_record();
    migrated_system();
    ready_trees(alloc, root)
}
