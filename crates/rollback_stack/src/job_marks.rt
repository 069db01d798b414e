//! The fingerprints of a record, where it leaves them to the lists of troves before and after its job.
ghost use Rattle.std.specs.Prelude.{◌≡◌, ◌↔◌, List, map, All, IfOk, IsErrOf, IsTrue};
ghost use Rattle.std.specs.Option.{option_copied};
ghost use Rattle.tree_scan.specs.declared.mark.Mark as declared_mark;
ghost use Rattle.local_db.specs.declared.record.Told.TheVariants as declared_told;
ghost use Rattle.job_record.specs.Lists.{told_by};
ghost use Rattle.local_db.specs.Record as state;
ghost use Rattle.rollback_stack.specs.declared.job_marks.HalfRead as declared;
ghost use Rattle.rollback_stack.specs.JobEntries.{IsChange};
ghost use Rattle.rollback_stack.specs.Halves.{half_of, half_told};

use local_db::cny_base::{Copies, Path, TextFault};
use local_db::{PathChange, Told, ToldEntry};
use past_jobs::PastList;
use std::alloc::Global;
use tree_scan::Mark;

// The fingerprint that the list records, to which it is left. `Bad` where the list records none.
fn listed_mark(recorded: Option<&Mark>) -> Result<Mark, TextFault>
    ensures value { IfOk result (λ mark. declared_told.Listed ≡ told_by (option_copied recorded.entry) mark) }
    ensures bad { IsErrOf result TextFault.Bad → (mark : declared_mark.Mark) → declared_told.Listed ≡ told_by (option_copied recorded.entry) mark → ⊥ }
{
    let Some(mark) = recorded else {
        return Err(TextFault::Bad);
    };
    Ok(mark.copy()?)
}

// The fingerprint that is told itself. `Bad` where the list records it too.
fn own_mark(mark: Mark, recorded: Option<&Mark>) -> Result<Mark, TextFault>
    ensures value { IfOk result (λ own. declared_told.Own mark ≡ told_by (option_copied recorded.entry) own) }
    ensures bad { IsErrOf result TextFault.Bad → (own : declared_mark.Mark) → declared_told.Own mark ≡ told_by (option_copied recorded.entry) own → ⊥ }
{
    let Some(of_list) = recorded else {
        return Ok(mark);
    };
    if of_list.is_same(&mark) {
        return Err(TextFault::Bad);
    }
    Ok(mark)
}

// The fingerprint that is told, where the list records this one at the path. `Bad` where it is left to a list that records none,
// or told although the list records it.
fn told_mark(told: Told, recorded: Option<&Mark>) -> Result<Mark, TextFault>
    ensures value { IfOk result (λ mark. told ≡ told_by (option_copied recorded.entry) mark) }
    ensures bad { IsErrOf result TextFault.Bad → (mark : declared_mark.Mark) → told ≡ told_by (option_copied recorded.entry) mark → ⊥ }
{
    match told {
        Told::Listed => listed_mark(recorded),
        Told::Own(mark) => own_mark(mark, recorded),
    }
}

/// A path with the fingerprint after a job, and the one before it as the record tells that.
#[derive(Drop)]
pub(crate) struct HalfRead {
    path: Path,
    before: Told,
    after: Mark,
}

// The fingerprint after the job, by the list after it.
fn mark_after(list: &PastList, entry: ToldEntry) -> Result<HalfRead, TextFault>
    ensures value { IfOk result (λ half. entry ≡ half_told list.now.troves half) }
    ensures bad { IsErrOf result TextFault.Bad → (half : declared.HalfRead) → entry ≡ half_told list.now.troves half → ⊥ }
{
    let ToldEntry {
        path,
        before,
        after,
    } = entry;
    let after = told_mark(after, list.recorded(&path))?;
    Ok(HalfRead {
        path,
        before,
        after,
    })
}

/// The fingerprints after the job, by the list after it.
pub(crate) fn marks_after(
    alloc: Global,
    list: &PastList,
    entries: Vec<ToldEntry>,
) -> Result<Vec<HalfRead>, TextFault>
    ensures value { IfOk result (λ read. entries.items ≡ map (half_told list.now.troves) read.items) }
    ensures bad { IsErrOf result TextFault.Bad → (read : List declared.HalfRead) → entries.items ≡ map (half_told list.now.troves) read → ⊥ }
{
    let mut read = Vec::new(alloc);
    for entry in entries {
        read.push(mark_after(list, entry)?)?;
    }
    Ok(read)
}

// Whether a job can have changed the path, and changed it.
fn is_change(change: &PathChange) -> bool
    ensures { IsTrue result ↔ IsChange change.now }
{
    let path = change.path();
    let _text = path.text();
    let reserved = path.is_reserved();
    let pinned = path.is_pinned();
    let nothing_before = change.old_mark().is_nothing();
    let nothing_after = change.new_mark().is_nothing();
    !reserved && !pinned && !(nothing_before && nothing_after)
}

// The fingerprint before the job, by the list before it.
fn mark_before(list: &PastList, half: HalfRead) -> Result<PathChange, TextFault>
    ensures value { IfOk result (λ change. half ≡ half_of list.now.troves change) }
    ensures change { IfOk result IsChange }
    ensures bad { IsErrOf result TextFault.Bad → (e : state.Entry) → half ≡ half_of list.now.troves e → IsChange e → ⊥ }
{
    let HalfRead {
        path,
        before,
        after,
    } = half;
    let before = told_mark(before, list.recorded(&path))?;
    let change = PathChange::new(path, before, after);
    if !is_change(&change) {
        return Err(TextFault::Bad);
    }
    Ok(change)
}

/// The changes, by the list before the job. `Bad` also where no job can have changed a path, or where nothing stood at one before
/// and after it.
pub(crate) fn marks_before(
    alloc: Global,
    list: &PastList,
    read: Vec<HalfRead>,
) -> Result<Vec<PathChange>, TextFault>
    ensures value { IfOk result (λ changes. read.items ≡ map (half_of list.now.troves) changes.items) }
    ensures changes { IfOk result (λ changes. All IsChange changes.items) }
    ensures bad { IsErrOf result TextFault.Bad
        → (es : List state.Entry) → read.items ≡ map (half_of list.now.troves) es → All IsChange es → ⊥ }
{
    let mut changes = Vec::new(alloc);
    for half in read {
        changes.push(mark_before(list, half)?)?;
    }
    Ok(changes)
}
