//! The first path of the result whose parent isn't a directory.
ghost use Rattle.std.specs.Prelude.{◌≡◌, false, IsTrue, IfErr, IfOk, Ok, Some, All};
ghost use Rattle.trove_stream.specs.cny-base.Path.{parent};
ghost use Rattle.tree_scan.specs.tree-disk.Disk.{NamesOf};
ghost use Rattle.tree_scan.specs.tree-disk.Rows.{is_dir_at};
ghost use Rattle.tree_scan.specs.tree-disk.Steps.{IsDiskStop, Tests};
ghost use Rattle.tree_scan.specs.tree-disk.Tree.{children};
ghost use Rattle.conflict_plan.specs.Orphans as spec;
ghost use Rattle.conflict_plan.specs.Orphans.{first_remaining, has_way, is_dir_fate, orphan_by, least_orphan, IsSeenPlan};

use crate::making::{Fate, Plan};
use crate::planned::Planned;
use crate::settling::{child_of, is_gone};
use std::alloc::Global;
use tree_scan::tree_disk::{TreeDisk, steps};
use trove_stream::cny_base::{Copies, OutOfMemory, Path, Stop, Text};
use trove_stream::cny_stream::FileRec;

// Whether a directory is to stand there.
fn is_dir(fate: Fate) -> bool
    ensures { result ≡ is_dir_fate (Some fate) false }
{
    match fate {
        Fate::Gone => false,
        Fate::Dir => true,
        Fate::Other => false,
    }
}

// Whether the parent of a path is a directory, where it isn't planned: what stands at the path stands in one, and else it is
// looked at.
fn stands_in_dir<D: TreeDisk>(
    alloc: Global,
    disk: &mut D,
    planned: &Planned,
    above: &Path,
) -> Result<bool, Stop>
    requires seen { IsTrue D.disk.tells → IsSeenPlan (D.disk.reads disk.old) planned.now }
    requires above { above.now ≡ parent planned.now.path }
    ensures tests { Tests D.disk (λ dir. dir)
        (λ tree. Ok (is_dir_at tree above.now))
        disk.old disk.new result }
    ensures stops { IfErr result IsDiskStop }
{
    if !planned.was.is_nothing() {
        return Ok(true);
    }
    let look = steps::look(alloc, disk, above)?;
    Ok(look.is_dir())
}

// Whether the parent of a planned path is a directory in the result. (That of `/` is `/` itself.)
fn has_way<D: TreeDisk>(
    alloc: Global,
    disk: &mut D,
    plan: &Plan,
    planned: &Planned,
) -> Result<bool, Stop>
    requires { IsTrue D.disk.tells → IsSeenPlan (D.disk.reads disk.old) planned.now }
    ensures tests { Tests D.disk (λ has. has)
        (λ tree. Ok (has_way plan.now tree planned.now.path))
        disk.old disk.new result }
    ensures stops { IfErr result IsDiskStop }
{
    let found = planned.path.parent_path(alloc)?;
    let Some(above) = found else {
        return Ok(true);
    };
    if let Some(fate) = plan.fate(&above) {
        return Ok(is_dir(fate));
    }
    let dir = stands_in_dir(alloc, disk, planned, &above)?;
    Ok(dir)
}

// The path of the first of the names directly below a path that doesn't go.
fn first_remaining(
    alloc: Global,
    plan: &Plan,
    path: &Path,
    names: &[Text],
) -> Result<Option<Path>, OutOfMemory>
    requires { NamesOf path.now names.now }
    ensures { IfOk result (λ first. first ≡ first_remaining plan.now path.now names.now) }
{
    for last in names {
        let child = child_of(alloc, path, last.get())?;
        if !is_gone(plan, &child) {
            return Ok(Some(child));
        }
    }
    Ok(None)
}

fn wants_dir(want: &Option<FileRec>) -> bool
    ensures { result ≡ spec.wants_dir want.now }
{
    match want {
        Some(rec) => rec.is_dir(),
        None => false,
    }
}

// Whether a directory stands at the path that isn't to be one.
fn leaves_dir(planned: &Planned) -> bool
    ensures { result ≡ spec.leaves_dir planned.now }
{
    let dir = planned.was.is_dir();
    let wanted = wants_dir(&planned.want);
    dir && !wanted
}

// The first name directly below a directory that remains.
fn first_left<D: TreeDisk>(
    alloc: Global,
    disk: &mut D,
    plan: &Plan,
    path: &Path,
) -> Result<Option<Path>, Stop>
    requires { IsTrue D.disk.tells → IsTrue (is_dir_at (D.disk.reads disk.old) path.now) }
    ensures tests { Tests D.disk (λ left. left)
        (λ tree. Ok (first_remaining plan.now path.now (children tree path.now)))
        disk.old disk.new result }
    ensures stops { IfErr result IsDiskStop }
{
    let names = steps::list(alloc, disk, path)?;
    let first = first_remaining(alloc, plan, path, names.get())?;
    Ok(first)
}

// The first name directly below a directory that isn't to be one, and that remains.
fn left_below<D: TreeDisk>(
    alloc: Global,
    disk: &mut D,
    plan: &Plan,
    planned: &Planned,
) -> Result<Option<Path>, Stop>
    requires { IsTrue D.disk.tells → IsSeenPlan (D.disk.reads disk.old) planned.now }
    ensures tests { Tests D.disk (λ left. left)
        (λ tree. Ok (spec.left_below plan.now tree planned.now))
        disk.old disk.new result }
    ensures stops { IfErr result IsDiskStop }
{
    if leaves_dir(planned) {
        return first_left(alloc, disk, plan, &planned.path);
    }
    Ok(None)
}

// The first path that is left without a directory above by what is planned of this one.
fn orphan_by<D: TreeDisk>(
    alloc: Global,
    disk: &mut D,
    plan: &Plan,
    planned: &Planned,
) -> Result<Option<Path>, Stop>
    requires { IsTrue D.disk.tells → IsSeenPlan (D.disk.reads disk.old) planned.now }
    ensures tests { Tests D.disk (λ orphan. orphan)
        (λ tree. Ok (orphan_by plan.now tree planned.now))
        disk.old disk.new result }
    ensures stops { IfErr result IsDiskStop }
{
    if planned.want.is_some() && !has_way(alloc, disk, plan, planned)? {
        return Ok(Some(planned.path.copy()?));
    }
    left_below(alloc, disk, plan, planned)
}

// The lesser of two paths.
fn lesser(one: Option<Path>, other: Option<Path>) -> Option<Path>
    ensures { result ≡ spec.lesser one other }
{
    match (one, other) {
        (Some(one), Some(other)) => { if other < one { Some(other) } else { Some(one) } }
        (None, other) => other,
        (one, None) => one,
    }
}

/// The first path of the result whose parent isn't a directory.
pub fn first_orphan<D: TreeDisk>(
    alloc: Global,
    disk: &mut D,
    plan: &Plan,
) -> Result<Option<Path>, Stop>
    requires { IsTrue D.disk.tells → All (IsSeenPlan (D.disk.reads disk.old)) plan.now }
    ensures tests { Tests D.disk (λ orphan. orphan)
        (λ tree. Ok (least_orphan plan.now tree plan.now))
        disk.old disk.new result }
    ensures stops { IfErr result IsDiskStop }
{
    let mut least = None;
    let all = plan.planned();
    for planned in all {
        let orphan = orphan_by(alloc, disk, plan, planned)?;
        let less = lesser(least, orphan);
        least = less;
    }
    Ok(least)
}
