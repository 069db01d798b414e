//! Paths of a job that would lack their directory.
ghost use Rattle.std.specs.Prelude.{◌≡◌, IfErr, IfOk, Ok};
ghost use Rattle.std.specs.List.Sorted.{IsStrictlySortedBy};
ghost use Rattle.change_rel.specs.cny-base.Path.{parent};
ghost use Rattle.local_db.specs.tree-disk.Steps.{IsDiskStop, Tests};
ghost use Rattle.local_db.specs.Record.{entry_cmp};
ghost use Rattle.past_jobs.specs.Seen as spec;

use crate::found::{FoundMarks, is_dir_now};
use crate::search::place_of;
use local_db::PathChange;
use local_db::cny_base::{Copies, OutOfMemory, Path, Stop};
use local_db::tree_disk::TreeDisk;
use std::alloc::Global;

// The path of the directory that a path stands in. (That of `/` is `/` itself.)
fn dir_of(alloc: Global, path: &Path) -> Result<Path, OutOfMemory>
    ensures { IfOk result (λ dir. dir ≡ parent path.now) }
{
    if let Some(above) = path.parent_path(alloc)? {
        return Ok(above);
    }
    let same = path.copy()?;
    Ok(same)
}

// Whether a directory stands at the path once the job is taken back.
fn is_dir_after<D: TreeDisk>(
    alloc: Global,
    disk: &mut D,
    found: &FoundMarks,
    changes: &[PathChange],
    path: &Path,
) -> Result<bool, Stop>
    requires { IsStrictlySortedBy entry_cmp changes.now }
    ensures tests { Tests D.disk (λ dir. dir)
        (λ tree. Ok (spec.is_dir_after found.now changes.now tree path.now))
        disk.old disk.new result }
    ensures stops { IfErr result IsDiskStop }
{
    if let Some(place) = place_of(changes, path.text()) {
        return Ok(changes[place].old_mark().is_dir());
    }
    let dir = is_dir_now(alloc, disk, found, path)?;
    Ok(dir)
}

// Whether the path would lack its directory.
pub(crate) fn is_orphan<D: TreeDisk>(
    alloc: Global,
    disk: &mut D,
    found: &FoundMarks,
    changes: &[PathChange],
    change: &PathChange,
) -> Result<bool, Stop>
    requires { IsStrictlySortedBy entry_cmp changes.now }
    ensures tests { Tests D.disk (λ orphan. orphan)
        (λ tree. Ok (spec.is_orphan found.now changes.now tree change.now))
        disk.old disk.new result }
    ensures stops { IfErr result IsDiskStop }
{
    if change.old_mark().is_nothing() {
        return Ok(false);
    }
    let above = dir_of(alloc, change.path())?;
    let dir = is_dir_after(alloc, disk, found, changes, &above)?;
    Ok(!dir)
}
