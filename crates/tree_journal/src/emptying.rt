//! The directory of staged bytes, made empty for files that are staged before a write set is known.
ghost use Rattle.std.specs.Prelude.{◌≡◌, ◌≤◌, IfErr, IfOk, IsErrOf, IsTrue, OnOk, length};
ghost use Rattle.journal_log.specs.cny-base.Count.{Rose};
ghost use Rattle.journal_log.specs.cny-base.Path.{is_path};
ghost use Rattle.journal_log.specs.cny-base.declared.stop.Stop.TheVariants as stop;
ghost use Rattle.journal_log.specs.tree-disk.Confined.{Among, Confined, LeavesOnly};
ghost use Rattle.journal_log.specs.tree-disk.Steps.{IsDiskStop};
ghost use Rattle.journal_log.specs.Own.{staged};
ghost use Rattle.tree_journal.specs.Apply.{IsAsBefore};
ghost use Rattle.tree_journal.specs.EmptyStage.{is_stage_name, CanEmptyStage, Empties, HasEmptyStage, IsSyncedElsewhere};

use crate::directory::make_dir;
use crate::flag::own_path;
use crate::staging::clear_dir;
use journal_log::Puts;
use journal_log::cny_base::{Path, Stop};
use journal_log::tree_disk::{TreeDisk, steps};
use std::alloc::Global;

/// Makes the directory of staged bytes an empty one, and answers its path. Files may then be staged there, which staged writes
/// of the next `apply` take. What the disk stores stays.
///
/// The base is the journal's private directory; it is made where it isn't one. It has at most 1,011 bytes. Where the disk tells
/// its tree, its parent is a directory, and the commit flag isn't set and its name isn't unsynced.
///
/// `Failed` comes only where the disk's count of faults rose.
pub fn clear_stage<D: TreeDisk>(alloc: Global, disk: &mut D, base: &Path) -> Result<Path, Stop>
    requires short { length base.now ≤ 1011 }
    requires told { IsTrue D.disk.tells → CanEmptyStage D.disk base.now disk.old }
    ensures path { IfOk result (λ path. path ≡ staged base.now) }
    // After Ok it is an empty directory.
    ensures emptied { IsTrue D.disk.tells → OnOk result (HasEmptyStage base.now (D.disk.reads disk.new)) }
    // At every moment, also inside each call of the disk and where a call fails, a crash leaves a tree that recovers to
    // some crash image at entry.
    ensures any_moment { IsTrue D.disk.tells → LeavesOnly D.disk disk.old disk.new (IsAsBefore D.disk base.now disk.old) }
    // However it ends, no name changed or became unsynced but the base, that directory and what lies below it. After Ok no other
    // name is unsynced.
    ensures confined { IsTrue D.disk.tells → Confined D.disk (Among (is_stage_name base.now)) disk.old disk.new }
    ensures synced { IsTrue D.disk.tells → OnOk result (IsSyncedElsewhere D.disk base.now disk.new) }
    ensures later { D.disk.faults disk.old ≤ D.disk.faults disk.new }
    ensures failed { IsErrOf result stop.Failed → Rose (D.disk.faults disk.old) (D.disk.faults disk.new) }
    ensures stops { IfErr result IsDiskStop }
{
    let dir = own_path(alloc, base, "p")?;
    empty_dir(alloc, disk, base, &dir)?;
    Ok(dir)
}

// Makes it an empty directory. The sync is there since a name that is unsynced may lie below a base that has to be made: a
// crash could then leave anything at it.
fn empty_dir<D: TreeDisk>(alloc: Global, disk: &mut D, base: &Path, dir: &Path) -> Result<(), Stop>
    requires base { IsTrue (is_path base.now) }
    requires short { length base.now ≤ 1011 }
    requires dir { dir.now ≡ staged base.now }
    requires told { IsTrue D.disk.tells → CanEmptyStage D.disk base.now disk.old }
    ensures { Empties D.disk base.now disk.old disk.new result }
{
    let Some(none) = Puts::new(Vec::new(alloc)) else {
        unreachable!()
    };
    steps::sync(alloc, disk)?;
    make_dir(alloc, disk, base)?;
    clear_dir(alloc, disk, dir, &none)
}
