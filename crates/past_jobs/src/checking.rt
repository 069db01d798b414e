//! Whether a job can be taken back.
ghost use Rattle.std.specs.Prelude.{◌≤◌, IfErr, OnOk};
ghost use Rattle.std.specs.List.Sorted.{IsStrictlySortedBy};
ghost use Rattle.change_rel.specs.cny-base.Count.{Rose};
ghost use Rattle.local_db.specs.tree-disk.Disk.{Reads};
ghost use Rattle.local_db.specs.tree-disk.Steps.{Tests};
ghost use Rattle.past_jobs.specs.Outcome.{CanUndoNext, IsTestStop, IsUndoStop};
ghost use Rattle.local_db.specs.Record.{entry_cmp};
ghost use Rattle.past_jobs.specs.Seen.{undo_tested};

use crate::found::FoundMarks;
use crate::obstacles::{Obstacle, first_with};
use local_db::PathChange;
use local_db::cny_base::{Refusal, Stop, Text};
use local_db::tree_disk::TreeDisk;
use std::alloc::Global;

// The test, by what the disk holds and the newer jobs found.
fn test_undo<D: TreeDisk>(
    alloc: Global,
    disk: &mut D,
    found: &FoundMarks,
    changes: &[PathChange],
) -> Result<(), Stop>
    requires { IsStrictlySortedBy entry_cmp changes.now }
    ensures tests { Tests D.disk (λ done. done)
        (λ tree. undo_tested found.now changes.now tree)
        disk.old disk.new result }
    // On every disk, also where it tells nothing.
    ensures kinds { IfErr result IsTestStop }
{
    let edited = first_with(alloc, disk, found, changes, Obstacle::Edited)?;
    if let Some(path) = edited {
        let path = Text::new(alloc, path.text())?;
        return Err(Stop::Refused(Refusal::Edited { path }));
    }
    let orphan = first_with(alloc, disk, found, changes, Obstacle::Orphan)?;
    if let Some(path) = orphan {
        let path = Text::new(alloc, path.text())?;
        return Err(Stop::Refused(Refusal::Parent { path }));
    }
    Ok(())
}

/// Whether a job with these changes, which rise by path, can be taken back, once newer jobs were that found these marks: `Edited`
/// exactly for the first path, in their order, that was changed since, or at which the job made a directory into which something
/// else was put; else `Parent` exactly for the first path of the result whose parent isn't a directory. It only reads.
pub fn check_undo<D: TreeDisk>(
    alloc: Global,
    disk: &mut D,
    found: &FoundMarks,
    changes: &[PathChange],
) -> Result<(), Stop>
    requires { IsStrictlySortedBy entry_cmp changes.now }
    ensures can { Reads D.disk disk.old disk.new (OnOk result (CanUndoNext (D.disk.reads disk.old) found.now changes.now)) }
    ensures stops { IfErr result (IsUndoStop D.disk.tells (D.disk.reads disk.old) found.now changes.now
        (Rose (D.disk.faults disk.old) (D.disk.faults disk.new))) }
    ensures later { D.disk.faults disk.old ≤ D.disk.faults disk.new }
{
    test_undo(alloc, disk, found, changes)
}
