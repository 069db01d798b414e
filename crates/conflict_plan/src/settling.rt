//! Which directories that are recorded no more go, from the deepest path up.
ghost use Rattle.std.specs.Prelude.{◌≡◌, ◌⊎◌, ◌∷◌, not, IsTrue, IfErr, IfOk, Ok, All};
ghost use Rattle.std.specs.List.{list_any};
ghost use Rattle.trove_stream.specs.cny-base.Path.{is_path, join};
ghost use Rattle.tree_scan.specs.tree-disk.Disk.{NamesOf};
ghost use Rattle.tree_scan.specs.tree-disk.Rows.{is_dir_at};
ghost use Rattle.tree_scan.specs.tree-disk.Steps.{IsDiskStop, Tests};
ghost use Rattle.conflict_plan.specs.Making as making;
ghost use Rattle.conflict_plan.specs.Picked.{AreKept};
ghost use Rattle.conflict_plan.specs.Settled.{settled, with_settled, IsSeen};

use crate::drafting::Draft;
use crate::making::{Fate, Plan};
use std::alloc::Global;
use tree_scan::tree_disk::{TreeDisk, steps};
use trove_stream::cny_base::{OutOfMemory, Path, Stop, Text, TextFault};

/// The path of a name directly below another.
pub fn child_of(alloc: Global, path: &Path, last: &str) -> Result<Path, OutOfMemory>
    requires { IsTrue (is_path (join path.now last.now)) }
    ensures { IfOk result (λ child. child ≡ join path.now last.now) }
{
    match path.join(alloc, last) {
        Ok(child) => Ok(child),
        Err(TextFault::Memory) => Err(OutOfMemory),
        Err(TextFault::Bad) => unreachable!(),
    }
}

/// Whether a path goes.
pub fn is_gone(plan: &Plan, path: &Path) -> bool
    ensures { result ≡ making.is_gone (making.fate_at plan.now path.now) }
{
    matches!(plan.fate(path), Some(Fate::Gone))
}

// Whether one of the names directly below a path doesn't go.
fn any_remains(alloc: Global, plan: &Plan, path: &Path, names: &[Text]) -> Result<bool, OutOfMemory>
    requires { NamesOf path.now names.now }
    ensures { IfOk result (λ any. any ≡ list_any (λ last. not (making.is_gone (making.fate_at plan.now (join path.now last)))) names.now) }
{
    for last in names {
        let child = child_of(alloc, path, last.get())?;
        if !is_gone(plan, &child) {
            return Ok(true);
        }
    }
    Ok(false)
}

// Whether a name directly below a directory remains.
fn child_remains<D: TreeDisk>(
    alloc: Global,
    disk: &mut D,
    plan: &Plan,
    path: &Path,
) -> Result<bool, Stop>
    requires { IsTrue D.disk.tells → IsTrue (is_dir_at (D.disk.reads disk.old) path.now) }
    ensures tests { Tests D.disk (λ remains. remains)
        (λ tree. Ok (making.child_remains plan.now tree path.now))
        disk.old disk.new result }
    ensures stops { IfErr result IsDiskStop }
{
    if plan.has_made(path) {
        return Ok(true);
    }
    let names = steps::list(alloc, disk, path)?;
    let any = any_remains(alloc, plan, path, names.get())?;
    Ok(any)
}

// With one more path in front, but for a directory that has to stay.
fn settle<D: TreeDisk>(alloc: Global, disk: &mut D, plan: Plan, draft: Draft) -> Result<Plan, Stop>
    requires { IsTrue D.disk.tells → IsSeen (D.disk.reads disk.old) draft }
    ensures tests { Tests D.disk (λ plan. plan)
        (λ tree. Ok (with_settled tree draft plan))
        disk.old disk.new result }
    ensures kept { IfOk result (λ made. (made ≡ plan) ⊎ (made ≡ draft.planned ∷ plan)) }
    ensures stops { IfErr result IsDiskStop }
{
    let Draft { planned, if_empty } = draft;
    if if_empty && planned.was.is_dir() && child_remains(alloc, disk, &plan, &planned.path)? {
        return Ok(plan);
    }
    Ok(plan.with(alloc, planned)?)
}

/// The plan: a directory that is recorded no more goes where no name directly below it remains, from the deepest path up.
pub fn settle_all<D: TreeDisk>(
    alloc: Global,
    disk: &mut D,
    mut drafts: Vec<Draft>,
) -> Result<Plan, Stop>
    requires { IsTrue D.disk.tells → All (IsSeen (D.disk.reads disk.old)) drafts.items }
    ensures tests { Tests D.disk (λ plan. plan)
        (λ tree. Ok (settled tree drafts.items))
        disk.old disk.new result }
    ensures kept { IfOk result (AreKept drafts.items) }
    ensures stops { IfErr result IsDiskStop }
{
    let mut plan = Plan::new(alloc);
    'drafts: while let Some(draft) = drafts.pop() {
        let next = settle(alloc, disk, plan, draft)?;
        plan = next;
    }
    Ok(plan)
}
