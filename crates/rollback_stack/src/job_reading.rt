//! The record of one job, as the root's tree holds it.
ghost use Rattle.std.specs.Prelude.{◌≡◌, ◌≤◌, List, IfOk, IfErr, IsErrOf, Ok};
ghost use Rattle.local_db.specs.cny-base.Count.{Rose};
ghost use Rattle.past_jobs.specs.Past.{AreChangedIds};
ghost use Rattle.local_db.specs.declared.record.Record as declared;
ghost use Rattle.local_db.specs.RecordText.{IsRecordText, by_name};
ghost use Rattle.std.specs.List.Sorted.{IsStrictlySortedBy};
ghost use Rattle.local_db.specs.Installed.{IsInstalled};
ghost use Rattle.local_db.specs.Record as state;
ghost use Rattle.local_db.specs.tree-disk.Disk.{Reads};
ghost use Rattle.local_db.specs.trove-stream.declared.parts.TroveParts.{TroveParts};
ghost use Rattle.rollback_stack.specs.JobReading.{HoldsRecord, HoldsText, IsCheckStop, IsDamagedJob, IsDamagedText, IsJob, IsJobOf, IsReadStop, IsText, IsToldBy, damaged_as};

use crate::job_marks::{marks_after, marks_before};
use job_record::{decode, distinct_records, record_file, records_by_lists};
use local_db::cny_base::{Path, Stop, TextFault};
use local_db::tree_disk::TreeDisk;
use local_db::{Format, PathChange, Record, record_path};
use past_jobs::{Changed, PastList};
use std::alloc::Global;

/// What a record tells of its job.
#[derive(Drop)]
pub struct Job {
    pub changed: Changed,
    /// The paths that it changed, in their order.
    pub changes: Vec<PathChange>,
}

// What is read, or that the file of this path is damaged.
fn or_damaged<T: Drop>(read: Result<T, TextFault>, path: Path) -> Result<T, Stop>
    ensures { result ≡ damaged_as path read }
{
    match read {
        Ok(value) => Ok(value),
        Err(TextFault::Memory) => Err(Stop::Memory),
        Err(TextFault::Bad) => Err(Stop::Damaged { path }),
    }
}

// The record of this number in the format, that the bytes are.
fn record_of(alloc: Global, format: Format, number: u32, bytes: &[u8]) -> Result<Record, TextFault>
    ensures value { IfOk result (λ found. IsRecordText format found bytes.now) }
    ensures number { IfOk result (λ found. found.number ≡ number) }
    ensures bad { IsErrOf result TextFault.Bad
        → (r : declared.Record) → IsRecordText format r bytes.now → r.number ≡ number → ⊥ }
{
    let found = decode(alloc, format, bytes)?;
    if found.number != number {
        return Err(TextFault::Bad);
    }
    Ok(found)
}

/// The record of the job of this number, which no list was asked for yet. `Damaged` with its path exactly where the tree holds no
/// file of that name in the grammar of the format, or the number in it is another.
///
/// `Failed` comes only where the disk's count of faults rose, and of the other stops want of memory alone. It only reads.
pub fn read_record<D: TreeDisk>(
    alloc: Global,
    disk: &mut D,
    format: Format,
    number: u32,
) -> Result<Record, Stop>
    ensures value { Reads D.disk disk.old disk.new (IfOk result (HoldsText format (D.disk.reads disk.old) number)) }
    // On every disk, also where it tells nothing.
    ensures text { IfOk result (IsText format number) }
    ensures stops { IfErr result (IsReadStop D.disk.tells (IsDamagedText format (D.disk.reads disk.old) number)
        (Rose (D.disk.faults disk.old) (D.disk.faults disk.new))) }
    ensures later { D.disk.faults disk.old ≤ D.disk.faults disk.new }
{
    let path = record_path(alloc, number)?;
    let Some(bytes) = record_file(alloc, disk, format, &path)? else {
        return Err(Stop::Damaged { path });
    };
    or_damaged(record_of(alloc, format, number, bytes.get()), path)
}

// What the record tells of its job. The list, which is that after the job, is made the one before it. `Bad` only where the record
// leads to no such list, or doesn't tell each fingerprint as the lists have it, or changes a path that no job can have changed.
fn job_in(alloc: Global, list: &mut PastList, found: Record) -> Result<Job, TextFault>
    requires { IsStrictlySortedBy by_name found.deltas }
    ensures told { IfOk result (λ job. IsToldBy list.old.format found list.old.troves list.new.troves job.changes.items) }
    ensures before { IfOk result (λ job. AreChangedIds list.new.troves list.old.troves job.changed.before) }
    ensures after { IfOk result (λ job. AreChangedIds list.old.troves list.new.troves job.changed.after) }
    ensures format { list.new.format ≡ list.old.format }
    ensures bad { IsErrOf result TextFault.Bad
        → (before : List TroveParts) (es : List state.Entry) → IsToldBy list.old.format found list.old.troves before es → ⊥ }
{
    let Record {
        deltas,
        entries,
        ..
    } = found;
    let read = marks_after(alloc, list, entries.into_vec())?;
    let changed = list.take_back(deltas)?;
    let changes = marks_before(alloc, list, read)?;
    Ok(Job { changed, changes })
}

/// What a record that was read tells of its job. The list, which is that after the job, is made the one before it. `Damaged` with
/// the record's path exactly where the record fails a cross-check: where its deltas don't lead from the list to one that may be
/// installed and has room in a database of the format, where a fingerprint isn't told as the lists have it, or where no job can
/// have changed a path. After an error the list has no meaning.
pub fn check_record(
    alloc: Global,
    list: &mut PastList,
    number: u32,
    found: Record,
) -> Result<Job, Stop>
    requires number { 1 ≤ number }
    requires installed { IsInstalled list.old.troves }
    requires text { IsText list.old.format number found }
    ensures value { IfOk result (IsJobOf list.old.format number found list.old.troves list.new.troves) }
    ensures job { IfOk result (IsJob list.old.format list.old.troves list.new.troves) }
    ensures format { list.new.format ≡ list.old.format }
    ensures stops { IfErr result (IsCheckStop list.old.format number found list.old.troves) }
{
    let path = record_path(alloc, number)?;
    or_damaged(job_in(alloc, list, found), path)
}

/// What the record of the job of this number tells, read against the list after the job, which is made the one before it.
/// `Damaged` with the record's path exactly where the tree holds no record of this number that passes the cross-checks. After an
/// error the list has no meaning.
///
/// `Failed` comes only where the disk's count of faults rose, and of the other stops want of memory alone. It only reads.
pub fn read_job<D: TreeDisk>(
    alloc: Global,
    disk: &mut D,
    format: Format,
    list: &mut PastList,
    number: u32,
) -> Result<Job, Stop>
    requires number { 1 ≤ number }
    requires installed { IsInstalled list.old.troves }
    requires format { list.old.format ≡ format }
    ensures value { Reads D.disk disk.old disk.new (IfOk result (λ job.
        HoldsRecord format (D.disk.reads disk.old) number list.old.troves list.new.troves job.changes.items)) }
    // On every disk, also where it tells nothing.
    ensures job { IfOk result (IsJob format list.old.troves list.new.troves) }
    ensures format { list.new.format ≡ list.old.format }
    ensures stops { IfErr result (IsReadStop D.disk.tells (IsDamagedJob format (D.disk.reads disk.old) number list.old.troves)
        (Rose (D.disk.faults disk.old) (D.disk.faults disk.new))) }
    ensures later { D.disk.faults disk.old ≤ D.disk.faults disk.new }
{
    distinct_records();
    records_by_lists();
    let found = read_record(alloc, disk, format, number)?;
    check_record(alloc, list, number, found)
}
