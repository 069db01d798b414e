//! What stands in the way of taking a job back.
ghost use Rattle.std.specs.Prelude.{IfErr, Ok};
ghost use Rattle.std.specs.List.Sorted.{IsStrictlySortedBy};
ghost use Rattle.local_db.specs.tree-disk.Steps.{IsDiskStop, Tests};
ghost use Rattle.local_db.specs.Record.{entry_cmp};
ghost use Rattle.past_jobs.specs.Seen as spec;

use crate::edits::is_edited;
use crate::found::FoundMarks;
use crate::parents::is_orphan;
use local_db::PathChange;
use local_db::cny_base::{Copies, Path, Stop};
use local_db::tree_disk::TreeDisk;
use std::alloc::Global;

/// What may stand in the way at a path of the job.
#[derive(Clone, Copy)]
pub(crate) enum Obstacle {
    /// The path was changed since.
    Edited,
    /// The path would lack its directory.
    Orphan,
}

// Whether the obstacle is at the path.
fn is_there<D: TreeDisk>(
    alloc: Global,
    disk: &mut D,
    found: &FoundMarks,
    changes: &[PathChange],
    obstacle: Obstacle,
    change: &PathChange,
) -> Result<bool, Stop>
    requires { IsStrictlySortedBy entry_cmp changes.now }
    ensures tests { Tests D.disk (λ there. there)
        (λ tree. Ok (spec.test_of obstacle found.now changes.now tree change.now))
        disk.old disk.new result }
    ensures stops { IfErr result IsDiskStop }
{
    match obstacle {
        Obstacle::Edited => is_edited(alloc, disk, found, changes, change),
        Obstacle::Orphan => is_orphan(alloc, disk, found, changes, change),
    }
}

/// The first path of the job that has the obstacle.
pub(crate) fn first_with<D: TreeDisk>(
    alloc: Global,
    disk: &mut D,
    found: &FoundMarks,
    changes: &[PathChange],
    obstacle: Obstacle,
) -> Result<Option<Path>, Stop>
    requires { IsStrictlySortedBy entry_cmp changes.now }
    ensures tests { Tests D.disk (λ path. path)
        (λ tree. Ok (spec.first_path (spec.test_of obstacle found.now changes.now tree) changes.now))
        disk.old disk.new result }
    ensures stops { IfErr result IsDiskStop }
{
    for change in changes {
        let there = is_there(alloc, disk, found, changes, obstacle, change)?;
        if there {
            let path = change.path().copy()?;
            return Ok(Some(path));
        }
    }
    Ok(None)
}
