//! The record of a job, and its bytes.
ghost use Rattle.std.specs.Prelude.{◌≡◌, ◌≤◌, map, All, IfOk};
ghost use Rattle.std.specs.List.Sorted.{IsStrictlySortedBy};
ghost use Rattle.std.specs.Option.{option_copied};
ghost use Rattle.job_record.specs.Lists.{IsReadBy, told_by};
ghost use Rattle.local_db.specs.Record.{IsEntry, IsRecord, entry_cmp};
ghost use Rattle.local_db.specs.declared.format.Format.TheVariants.{Two};
ghost use Rattle.job_record.specs.Changed.{AreChangedNames};
ghost use Rattle.job_record.specs.Telling.{told_with};

use crate::job_deltas::deltas_of;
use crate::laws::records_by_lists;
use crate::recorded::{Marks, recorded};
use crate::writing::encode;
use local_db::cny_base::{Bytes, Copies, Name, OutOfMemory};
use local_db::trove_stream::Installed;
use local_db::{Deltas, PathChange, Record, Told, ToldEntries, ToldEntry};
use std::alloc::Global;
use tree_scan::Mark;

// The fingerprint as it is told where the list records this one.
fn told(mark: Mark, of_list: Option<&Mark>) -> Told
    ensures { result ≡ told_by (option_copied of_list.entry) mark }
{
    match of_list {
        Some(listed) if listed.is_same(&mark) => Told::Listed,
        _ => Told::Own(mark),
    }
}

fn told_entry(change: &PathChange, before: &Marks, after: &Marks) -> Result<ToldEntry, OutOfMemory>
    ensures { IfOk result (λ it. it ≡ told_with before.now after.now change.now) }
{
    let path = change.path().copy()?;
    let was = change.old_mark().copy()?;
    let now = change.new_mark().copy()?;
    let before = told(was, before.get(change.path()));
    let after = told(now, after.get(change.path()));
    Ok(ToldEntry {
        path,
        before,
        after,
    })
}

// The changes as the record tells them, by what both lists record at their paths.
fn told_entries(
    alloc: Global,
    changes: &[PathChange],
    before: &Marks,
    after: &Marks,
) -> Result<Vec<ToldEntry>, OutOfMemory>
    ensures { IfOk result (λ all. all.items ≡ map (told_with before.now after.now) changes.now) }
{
    let mut all = Vec::new(alloc);
    for change in changes {
        let it = told_entry(change, before, after)?;
        all.push(it)?;
    }
    Ok(all)
}

// The record of the job.
fn record_of(
    alloc: Global,
    number: u32,
    before: &Installed,
    after: &Installed,
    names: &[Name],
    changes: &[PathChange],
) -> Result<Record, OutOfMemory>
    requires number { 1 ≤ number }
    requires names { AreChangedNames before.now after.now names.now }
    requires entries { All IsEntry changes.now }
    requires rising { IsStrictlySortedBy entry_cmp changes.now }
    ensures { IfOk result (IsReadBy number before.now after.now changes.now) }
{
    let deltas = deltas_of(alloc, names, after, before)?;
    let marks_before = recorded(alloc, before.troves(), changes)?;
    let marks_after = recorded(alloc, after.troves(), changes)?;
    let told = told_entries(alloc, changes, &marks_before, &marks_after)?;
    Ok(Record {
        number,
        deltas: Deltas::new(deltas),
        entries: ToldEntries::new(told),
    })
}

/// The bytes, in format 2, of the record of the job of this number: of that which leads from the list after it back to the one before
/// it. The names are just those whose trove it changed; its changes of paths rise, and their fingerprints have bytes.
pub fn record_bytes(
    alloc: Global,
    number: u32,
    before: &Installed,
    after: &Installed,
    names: &[Name],
    changes: &[PathChange],
) -> Result<Bytes, OutOfMemory>
    requires number { 1 ≤ number }
    requires names { AreChangedNames before.now after.now names.now }
    requires entries { All IsEntry changes.now }
    requires rising { IsStrictlySortedBy entry_cmp changes.now }
    ensures { IfOk result (IsRecord Two number before.now after.now changes.now) }
{
    records_by_lists();
    let it = record_of(alloc, number, before, after, names, changes)?;
    let bytes = encode(alloc, &it)?;
    Ok(bytes)
}
