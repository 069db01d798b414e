//! Paths of a job that were changed since.
ghost use Rattle.std.specs.Prelude.{IfErr, Ok};
ghost use Rattle.std.specs.List.Sorted.{IsStrictlySortedBy};
ghost use Rattle.local_db.specs.tree-disk.Steps.{IsDiskStop, Tests};
ghost use Rattle.local_db.specs.Record.{entry_cmp};
ghost use Rattle.past_jobs.specs.Seen as spec;

use crate::foreign::has_foreign;
use crate::found::{FoundMarks, mark_now};
use local_db::PathChange;
use local_db::cny_base::Stop;
use local_db::tree_disk::TreeDisk;
use std::alloc::Global;

// Whether something else stands at the path than what the job left, or in a directory that it made there.
pub(crate) fn is_edited<D: TreeDisk>(
    alloc: Global,
    disk: &mut D,
    found: &FoundMarks,
    changes: &[PathChange],
    change: &PathChange,
) -> Result<bool, Stop>
    requires { IsStrictlySortedBy entry_cmp changes.now }
    ensures tests { Tests D.disk (λ edited. edited)
        (λ tree. Ok (spec.is_edited found.now changes.now tree change.now))
        disk.old disk.new result }
    ensures stops { IfErr result IsDiskStop }
{
    let mark = mark_now(alloc, disk, found, change.path())?;
    if !mark.is_same(change.new_mark()) {
        return Ok(true);
    }
    let any = has_foreign(alloc, disk, found, changes, change)?;
    Ok(any)
}
