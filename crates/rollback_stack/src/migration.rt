//! The writes that bring a root from format 1 to format 2.
ghost use Rattle.std.specs.Prelude.{◌≡◌, ◌≤◌, IfErr, IfOk, IfSome, IsTrue, Ok, OnOk};
ghost use Rattle.std.specs.FinMap.{get};
ghost use Rattle.job_targets.specs.cny-base.Below.{begins_with};
ghost use Rattle.job_targets.specs.cny-base.Count.{Rose};
ghost use Rattle.rollback_stack.specs.JobReading.{IsDamagedJob, IsReadStop};
ghost use Rattle.local_db.specs.Formats.{database_magic};
ghost use Rattle.local_db.specs.Installed.{IsInstalled};
ghost use Rattle.local_db.specs.Stores.{IsDatabase};
ghost use Rattle.local_db.specs.declared.format.Format.TheVariants.{One, Two};
ghost use Rattle.job_targets.specs.tree-disk.Disk.{Reads};
ghost use Rattle.job_targets.specs.tree-disk.Rows.{bytes_at, is_file_at};
ghost use Rattle.job_targets.specs.tree-disk.Steps.{IsDiskStop, Tests};
ghost use Rattle.rollback_stack.specs.Migrated.{AreAllRewritten, AreWritesOf, HasFile, HasRewritten, IsFileStop, IsMigrated, IsMigratedStop, IsNoDatabase, IsOldDatabase, IsOldIn, IsRecordsStop};
ghost use Rattle.rollback_stack.specs.Seen.{file_as, no_file_as, seen_as};

use crate::back::{Wants, puts_of};
use crate::job_reading::{check_record, read_record};
use job_record::{distinct_records, encode, records_by_lists};
use job_targets::cny_base::{Bytes, FORMAT_1_DATABASE_LIMIT, Mode, OutOfMemory, Path, Stop};
use job_targets::journal_log::{Puts, Want};
use job_targets::tree_disk::{Look, TreeDisk, steps};
use local_db::{Db, Format, database_path, decode_file, encode_within, record_path};
use past_jobs::PastList;
use std::alloc::Global;
use std::collections::BTreeMap;

/// What the file of a database of format 2 begins with.
const MAGIC: &[u8] = b"CNYDB02\n";

/// How many bytes that is.
const MAGIC_LEN: usize = 8;

/// What stands at the name of a database that may be one of format 1.
#[derive(Drop)]
pub(crate) enum Seen {
    /// Nothing, or a file that begins as a database of format 2, of which no more is read.
    Current,
    /// A file of no more bytes than a database of format 1 has at most.
    File(Bytes),
    Other,
}

// Whether the bytes begin as those of a database of format 2.
fn has_magic(bytes: &[u8]) -> bool
    ensures { result ≡ begins_with (database_magic Two) bytes.now }
{
    bytes.starts_with(MAGIC)
}

// Whether the file at the path begins as a database of format 2. Nothing behind that is read.
fn begins_in_two<D: TreeDisk>(alloc: Global, disk: &mut D, path: &Path) -> Result<bool, Stop>
    requires { IsTrue D.disk.tells → IsTrue (is_file_at (D.disk.reads disk.old) path.now) }
    ensures tests { Tests D.disk (λ begins. begins)
        (λ tree. Ok (begins_with (database_magic Two) (bytes_at tree path.now)))
        disk.old disk.new result }
    ensures stops { IfErr result IsDiskStop }
{
    let mut front = [0u8; MAGIC_LEN];
    let count = steps::read_at(alloc, disk, path, 0, &mut front)?;
    Ok(has_magic(&front[..count]))
}

// The file at the path, as it is seen.
fn file_seen<D: TreeDisk>(alloc: Global, disk: &mut D, path: &Path) -> Result<Seen, Stop>
    requires { IsTrue D.disk.tells → IsTrue (is_file_at (D.disk.reads disk.old) path.now) }
    ensures tests { Tests D.disk (λ seen. seen)
        (λ tree. Ok (file_as (bytes_at tree path.now)))
        disk.old disk.new result }
    ensures stops { IfErr result IsDiskStop }
{
    if begins_in_two(alloc, disk, path)? {
        return Ok(Seen::Current);
    }
    match steps::read_whole(alloc, disk, path, FORMAT_1_DATABASE_LIMIT as u64)? {
        Some(bytes) => Ok(Seen::File(bytes)),
        None => Ok(Seen::Other),
    }
}

// What is seen, where it is no file.
fn no_file(look: &Look) -> Seen
    ensures { result ≡ no_file_as look.now }
{
    if look.is_nothing() {
        Seen::Current
    } else {
        Seen::Other
    }
}

// What stands at the path.
fn seen_at<D: TreeDisk>(alloc: Global, disk: &mut D, path: &Path) -> Result<Seen, Stop>
    ensures tests { Tests D.disk (λ seen. seen)
        (λ tree. Ok (seen_as (get tree path.now)))
        disk.old disk.new result }
    ensures stops { IfErr result IsDiskStop }
{
    let look = steps::look(alloc, disk, path)?;
    if look.is_file() {
        return file_seen(alloc, disk, path);
    }
    Ok(no_file(&look))
}

// The database of format 1 that the bytes of a file are; none where they begin as those of format 2.
fn old_file(alloc: Global, path: Path, bytes: &[u8]) -> Result<Option<Db>, Stop>
    ensures value { IfOk result (IsOldIn bytes.now) }
    ensures stops { IfErr result (IsFileStop path bytes.now) }
{
    if has_magic(bytes) {
        return Ok(None);
    }
    let db = decode_file(alloc, path, bytes)?;
    Ok(Some(db))
}

// The database, where its file is to be one of format 1; none where nothing stands at its name, or a file that begins as one of
// format 2, of which no more is read.
fn old_database<D: TreeDisk>(alloc: Global, disk: &mut D) -> Result<Option<Db>, Stop>
    ensures value { Reads D.disk disk.old disk.new (IfOk result (IsOldDatabase (D.disk.reads disk.old))) }
    // On every disk, also where it tells nothing.
    ensures one { IfOk result (λ found. IfSome found (λ db. IsDatabase One db.installed db.oldest db.newest)) }
    ensures stops { IfErr result (IsReadStop D.disk.tells (IsNoDatabase (D.disk.reads disk.old))
        (Rose (D.disk.faults disk.old) (D.disk.faults disk.new))) }
    ensures later { D.disk.faults disk.old ≤ D.disk.faults disk.new }
{
    let path = database_path(alloc)?;
    match seen_at(alloc, disk, &path)? {
        Seen::Current => Ok(None),
        Seen::File(bytes) => old_file(alloc, path, bytes.get()),
        Seen::Other => Err(Stop::Damaged { path }),
    }
}

// A file of these bytes is to stand there, with mode 0644.
fn want_file(wants: &mut Wants, path: Path, bytes: Bytes) -> Result<(), OutOfMemory>
    ensures { OnOk result (HasFile path bytes wants.old wants.new) }
{
    let Some(mode) = Mode::new(0o644) else {
        unreachable!()
    };
    wants.insert(path, Want::File { mode, bytes })?;
    Ok(())
}

// The record of this number in format 2, once it passed the cross-checks. The list, which is that after the job, is made the one
// before it.
fn want_record<D: TreeDisk>(
    alloc: Global,
    disk: &mut D,
    wants: &mut Wants,
    list: &mut PastList,
    number: u32,
) -> Result<(), Stop>
    requires number { 1 ≤ number }
    requires installed { IsInstalled list.old.troves }
    requires format { list.old.format ≡ One }
    ensures value { Reads D.disk disk.old disk.new (OnOk result
        (HasRewritten (D.disk.reads disk.old) number list.old.troves list.new.troves wants.old wants.new)) }
    // On every disk, also where it tells nothing.
    ensures installed { OnOk result (IsInstalled list.new.troves) }
    ensures format { OnOk result (list.new.format ≡ One) }
    ensures stops { IfErr result (IsReadStop D.disk.tells (IsDamagedJob One (D.disk.reads disk.old) number list.old.troves)
        (Rose (D.disk.faults disk.old) (D.disk.faults disk.new))) }
    ensures later { D.disk.faults disk.old ≤ D.disk.faults disk.new }
{
    distinct_records();
    records_by_lists();
    let found = read_record(alloc, disk, Format::One, number)?;
    let bytes = encode(alloc, &found)?;
    let job = check_record(alloc, list, number, found)?;
    let path = record_path(alloc, number)?;
    want_file(wants, path, bytes)?;
    Ok(())
}

// The records of all jobs in format 2.
fn want_records<D: TreeDisk>(
    alloc: Global,
    disk: &mut D,
    wants: &mut Wants,
    db: &Db,
) -> Result<(), Stop>
    requires { IsDatabase One db.now.installed db.now.oldest db.now.newest }
    ensures value { Reads D.disk disk.old disk.new (OnOk result (AreAllRewritten (D.disk.reads disk.old) db.now wants.old wants.new)) }
    ensures stops { IfErr result (IsRecordsStop D.disk.tells (D.disk.reads disk.old) db.now
        (Rose (D.disk.faults disk.old) (D.disk.faults disk.new))) }
    ensures later { D.disk.faults disk.old ≤ D.disk.faults disk.new }
{
    if db.newest == 0 {
        return Ok(());
    }
    let mut list = PastList::of(alloc, Format::One, &db.installed)?;
    let count = db.newest - db.oldest + 1;
    for below in 0..count {
        want_record(alloc, disk, wants, &mut list, db.newest - below)?;
    }
    Ok(())
}

// The writes of the database and of the records of all jobs, in format 2.
fn writes_of<D: TreeDisk>(alloc: Global, disk: &mut D, db: &Db) -> Result<Puts, Stop>
    requires { IsDatabase One db.now.installed db.now.oldest db.now.newest }
    ensures value { Reads D.disk disk.old disk.new (IfOk result (AreWritesOf (D.disk.reads disk.old) db.now)) }
    ensures stops { IfErr result (IsRecordsStop D.disk.tells (D.disk.reads disk.old) db.now
        (Rose (D.disk.faults disk.old) (D.disk.faults disk.new))) }
    ensures later { D.disk.faults disk.old ≤ D.disk.faults disk.new }
{
    let path = database_path(alloc)?;
    // What was read in format 1 has room in format 2.
    let bytes = encode_within(alloc, db)?;
    let mut wants = BTreeMap::new(alloc);
    want_file(&mut wants, path, bytes)?;
    want_records(alloc, disk, &mut wants, db)?;
    let puts = puts_of(alloc, wants)?;
    Ok(puts)
}

/// The writes that write the database of a root of format 1 and all its records once more, in format 2. None exactly where
/// nothing stands at the database's name, or a file that begins as one of format 2. Their values stay the same.
///
/// `Damaged` with the path of the database, where it fails its grammar or a cross-check, or else of the newest record that does.
/// `Refused` never comes. It only reads.
pub fn migrated<D: TreeDisk>(alloc: Global, disk: &mut D) -> Result<Option<Puts>, Stop>
    ensures value { Reads D.disk disk.old disk.new (IfOk result (IsMigrated (D.disk.reads disk.old))) }
    ensures stops { IfErr result (IsMigratedStop D.disk.tells (D.disk.reads disk.old) (Rose (D.disk.faults disk.old) (D.disk.faults disk.new))) }
    ensures later { D.disk.faults disk.old ≤ D.disk.faults disk.new }
{
    let found = old_database(alloc, disk)?;
    let Some(db) = found else {
        return Ok(None);
    };
    let puts = writes_of(alloc, disk, &db)?;
    Ok(Some(puts))
}
