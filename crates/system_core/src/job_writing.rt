//! A job, written.
ghost use Rattle.std.specs.Prelude.{◌≡◌, ◌↔◌, ◌⊎◌, ◌≤◌, [], false, All, IfErr, IfNone, IfOk, IfSome, IsTrue, List, OnOk};
ghost use Rattle.rollback_stack.specs.cny-base.Count.{Rose};
ghost use Rattle.rollback_stack.specs.journal-log.declared.put.Put as declared;
ghost use Rattle.update_job.specs.Changes.{AreChanges};
ghost use Rattle.job_targets.specs.Agree.{AllAgree};
ghost use Rattle.job_targets.specs.Old.{is_staged};
ghost use Rattle.local_db.specs.declared.format.Format.TheVariants.{Two};
ghost use Rattle.local_db.specs.Formats.{database_bytes};
ghost use Rattle.local_db.specs.Installed.{IsInstalled};
ghost use Rattle.local_db.specs.SystemState.{IsFree, SystemState};
ghost use Rattle.local_db.specs.Steps.{after_job, paths_of};
ghost use Rattle.local_db.specs.Stores.{IsDatabase, StoresIn};
ghost use Rattle.rollback_stack.specs.job-record.Changed.{AreChangedNames};
ghost use Rattle.rollback_stack.specs.Entries.{AreEntries};
ghost use Rattle.rollback_stack.specs.Pushing.{IsPushStop};
ghost use Rattle.rollback_stack.specs.change-set.Contents.{IfRefused};
ghost use Rattle.system_core.specs.FixedDirs.{fixed_dirs};
ghost use Rattle.system_core.specs.RootReady.{MayBeginJob};
ghost use Rattle.system_core.specs.RootWriting.{TakesRoot};
ghost use Rattle.system_core.specs.StagedWrites.{Means};
ghost use Rattle.system_core.specs.Last as spec;
ghost use Rattle.system_core.specs.Last.{ChangesNeither, IsRefusedLast, PassesLast};
ghost use Rattle.system_core.specs.JobWriting.{AnswersJob, AreRecordedTargets, CanPutJob, CanWriteJob, HasTargets, IsJobFrom, IsJobMade, IsJobStop, JobEnds, MovesHeld, MovesTrees};

use crate::last::{database_of, db_after};
use crate::names::changed_names;
use crate::root_writing::write_whole;
use crate::union::all_writes;
use job_targets::{Entries, Entry};
use local_db::{Db, distinct_databases};
use rollback_stack::cny_base::{Bytes, Fault, Name, Stop};
use rollback_stack::journal_log::{Puts, put_ranges};
use rollback_stack::push_puts;
use rollback_stack::tree_disk::TreeDisk;
use rollback_stack::trove_stream::{Installed, distinct_troves};
use std::alloc::Global;
use update_job::Change;

/// What is made of a job before it is written: the names whose trove it changes, the database after it, and that database's bytes.
#[derive(Drop)]
struct Job {
    names: Vec<Name>,
    db: Db,
    bytes: Bytes,
}

// Whether there is neither a target nor a change of the list.
fn is_nothing(puts: &Puts, changes: &[Change]) -> bool
    ensures { IsTrue result ↔ (puts.now ≡ []) × (changes.now ≡ []) }
{
    if !puts.get().is_empty() {
        return false;
    }
    changes.is_empty()
}

// What is made of a job with these targets, which leads to this list by these changes, where the last tests pass; none where it
// changes nothing.
fn job_of(
    alloc: Global,
    db: &Db,
    list: Installed,
    changes: &[Change],
    puts: &Puts,
) -> Result<Option<Job>, Fault>
    ghost whole: { List declared.Put }
    requires same { paths_of whole ≡ paths_of puts.now }
    requires db { IsDatabase Two db.now.installed db.now.oldest db.now.newest }
    requires list { IsInstalled list }
    requires changes { AreChanges db.now.installed list changes.now }
    ensures some { IfOk result (λ found. IfSome found (λ job. IsJobMade db.now list job.names.items job.db job.bytes)) }
    ensures passes { IfOk result (λ found. IfSome found (λ job. PassesLast db.now list whole)) }
    ensures none { IfOk result (λ found. IfNone found (ChangesNeither db.now list whole)) }
    ensures refused { IfErr result (IfRefused (IsRefusedLast db.now list whole)) }
{
    // Troves that are equal by their texts are one trove.
    distinct_troves();
    if is_nothing(puts, changes) {
        return Ok(None);
    }
    let names = changed_names(alloc, &db.installed, &list, changes)?;
    let after = db_after(db, list);
    let bytes = database_of(alloc, db, &after)?;
    Ok(Some(Job {
        names,
        db: after,
        bytes,
    }))
}

// Puts a job on the root: saves what its targets replace, and then puts them, its record and the database at once. It leads from the
// list before it to that of the database. The clauses speak of the targets with the bytes of the staged files that they name.
fn put_job<T: TreeDisk>(
    alloc: Global,
    root: &mut T,
    before: &Installed,
    names: &[Name],
    entries: &[Entry],
    db: &Db,
    bytes: Bytes,
    targets: Puts,
) -> Result<(), Stop>
    ghost whole: { List declared.Put }
    requires db { IsDatabase Two db.now.installed db.now.oldest db.now.newest }
    requires job { 1 ≤ db.now.newest }
    requires names { AreChangedNames before.now db.now.installed names.now }
    requires entries { AreEntries entries.now }
    requires agree { AllAgree entries.now }
    requires free { All (λ (p : declared.Put). IsFree p.path) targets }
    requires means { IsTrue T.disk.tells → Means (T.disk.reads root.old) targets whole }
    requires text { bytes ≡ database_bytes Two db.now.installed db.now.oldest db.now.newest }
    requires told { IsTrue T.disk.tells → CanPutJob T.disk whole entries.now root.old }
    ensures goes { IsTrue T.disk.tells → (s : SystemState) → StoresIn Two (T.disk.reads root.old) s → IsJobFrom s whole before.now db.now
        → TakesRoot T.disk Two s (after_job whole db.now.installed s) whole root.old root.new result }
    // Also on a root that stores no system.
    ensures again { IsTrue T.disk.tells → OnOk result (MayBeginJob T.disk db.now root.new) }
    ensures fixed { IsTrue T.disk.tells → OnOk result (fixed_dirs (T.disk.reads root.new) ≡ fixed_dirs (T.disk.reads root.old)) }
    ensures outer { IsTrue T.disk.tells → OnOk result (HasTargets T.disk whole root.old root.new) }
    ensures moments { IsTrue T.disk.tells → MovesHeld T.disk whole db.now root.old root.new }
    ensures stops { IfErr result (IsPushStop T.disk.tells (Rose (T.disk.faults root.old) (T.disk.faults root.new))) }
    ensures later { T.disk.faults root.old ≤ T.disk.faults root.new }
{
    // Its clause says that the paths of the targets rise.
    let _items = targets.get();
    let pushed = push_puts(alloc, root, before, names, entries, db)?;
    let all = all_writes(alloc, targets, pushed, bytes)?;
    put_ranges(all.get());
    write_whole(alloc, root, &all)
}

/// Writes a job with these targets, this list after it, to which these changes lead, and these entries of its record, once the tests of
/// the list and the targets have passed, and answers its number. It takes effect as a whole or not at all, whenever the machine stops.
///
/// `TooLarge` where the database with the list is larger than a database may be, with its size; then, where the job changes neither
/// the tree nor the list, no number is answered and nothing is done; then `TooLarge` where the newest job has the greatest number.
/// So far no call of the root is made.
///
/// Where the stack has as many jobs as it has room for, the oldest is dropped. After Ok the database is that of the root after the
/// job; after an error it is as it was. `Failed` comes only where the root's count of faults rose. After that and want of memory the
/// root recovers to the system before the job or to the one after it.
pub fn write_job<T: TreeDisk>(
    alloc: Global,
    root: &mut T,
    db: &mut Db,
    list: Installed,
    changes: &[Change],
    puts: Puts,
    entries: Entries,
) -> Result<Option<u32>, Stop>
    requires db { IsDatabase Two db.old.installed db.old.oldest db.old.newest }
    requires list { IsInstalled list }
    requires changes { AreChanges db.old.installed list changes.now }
    requires targets { AreRecordedTargets puts entries }
    requires told { IsTrue T.disk.tells → CanWriteJob T.disk db.old puts entries root.old }
    // From each system that the root stores.
    ensures ends { IsTrue T.disk.tells → (s : SystemState) → StoresIn Two (T.disk.reads root.old) s
        → JobEnds T.disk puts list s root.old root.new result }
    // After Ok a further job may begin, with this database, also where the root stores no system.
    ensures again { IsTrue T.disk.tells → OnOk result (MayBeginJob T.disk db.new root.new) }
    ensures fixed { IsTrue T.disk.tells → OnOk result (fixed_dirs (T.disk.reads root.new) ≡ fixed_dirs (T.disk.reads root.old)) }
    // After Ok the targets stand, and however it ends a crash leaves the tree and the database before the job or those after it, also
    // where the root stores no system.
    ensures outer { IsTrue T.disk.tells → OnOk result (HasTargets T.disk puts root.old root.new) }
    ensures moments { IsTrue T.disk.tells → MovesTrees T.disk puts db.old (spec.db_after db.old list) root.old root.new }
    // On every disk.
    ensures answers { AnswersJob db.old list puts db.new result }
    ensures rules { IsDatabase Two db.new.installed db.new.oldest db.new.newest }
    ensures stops { IfErr result (IsJobStop T.disk.tells (Rose (T.disk.faults root.old) (T.disk.faults root.new)) db.old list puts) }
    // Whatever is answered, no call of the root is made before the last tests have passed.
    ensures tested { (root.new ≡ root.old) ⊎ PassesLast db.old list puts }
    ensures later { T.disk.faults root.old ≤ T.disk.faults root.new }
{
    write_targets(alloc, root, db, list, changes, puts, entries)
}

/// The same where targets may name staged files: the clauses speak of the targets that have their bytes.
pub(crate) fn write_targets<T: TreeDisk>(
    alloc: Global,
    root: &mut T,
    db: &mut Db,
    list: Installed,
    changes: &[Change],
    puts: Puts,
    entries: Entries,
) -> Result<Option<u32>, Stop>
    ghost whole: { List declared.Put }
    requires same { paths_of whole ≡ paths_of puts }
    requires free { All (λ (p : declared.Put). IsFree p.path) puts }
    requires means { IsTrue T.disk.tells → Means (T.disk.reads root.old) puts whole }
    requires db { IsDatabase Two db.old.installed db.old.oldest db.old.newest }
    requires list { IsInstalled list }
    requires changes { AreChanges db.old.installed list changes.now }
    requires targets { AreRecordedTargets whole entries }
    requires told { IsTrue T.disk.tells → CanWriteJob T.disk db.old whole entries root.old }
    ensures ends { IsTrue T.disk.tells → (s : SystemState) → StoresIn Two (T.disk.reads root.old) s
        → JobEnds T.disk whole list s root.old root.new result }
    ensures again { IsTrue T.disk.tells → OnOk result (MayBeginJob T.disk db.new root.new) }
    ensures fixed { IsTrue T.disk.tells → OnOk result (fixed_dirs (T.disk.reads root.new) ≡ fixed_dirs (T.disk.reads root.old)) }
    ensures outer { IsTrue T.disk.tells → OnOk result (HasTargets T.disk whole root.old root.new) }
    ensures moments { IsTrue T.disk.tells → MovesTrees T.disk whole db.old (spec.db_after db.old list) root.old root.new }
    ensures answers { AnswersJob db.old list whole db.new result }
    ensures rules { IsDatabase Two db.new.installed db.new.oldest db.new.newest }
    ensures stops { IfErr result (IsJobStop T.disk.tells (Rose (T.disk.faults root.old) (T.disk.faults root.new)) db.old list whole) }
    ensures tested { (root.new ≡ root.old) ⊎ PassesLast db.old list whole }
    ensures later { T.disk.faults root.old ≤ T.disk.faults root.new }
{
    // No tree holds two databases.
    distinct_databases();
    let Some(job) = job_of(alloc, db, list, changes, &puts)? else {
        return Ok(None);
    };
    let Job {
        names,
        db: after,
        bytes,
    } = job;
    put_job(
        alloc,
        root,
        &db.installed,
        names.as_slice(),
        entries.get(),
        &after,
        bytes,
        puts,
    )?;
    let number = after.newest;
    *db = after;
    Ok(Some(number))
}
