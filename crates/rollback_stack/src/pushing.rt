//! What is written before the write set of a job: its record's write, and the contents that it replaces.
ghost use Rattle.std.specs.Prelude.{◌≡◌, ◌≤◌, ◌∷◌, [], false, true, IfErr, IfOk, IsTrue};
ghost use Rattle.job_targets.specs.cny-base.Count.{Rose};
ghost use Rattle.job_targets.specs.cny-base.Path.{parent};
ghost use Rattle.job_targets.specs.cny-base.Reserved.{private_directory};
ghost use Rattle.local_db.specs.declared.format.Format.{Format};
ghost use Rattle.local_db.specs.declared.format.Format.TheVariants.{Two};
ghost use Rattle.local_db.specs.Names.{counts};
ghost use Rattle.local_db.specs.Steps as steps;
ghost use Rattle.local_db.specs.Stores.{IsDatabase, StoresIn};
ghost use Rattle.local_db.specs.SystemState.{SystemState};
ghost use Rattle.job_targets.specs.tree-disk.Tree.{Name};
ghost use Rattle.job_targets.specs.tree-disk.Confined.{Among, Confined};
ghost use Rattle.job_targets.specs.tree-disk.Rows.{is_dir_at};
ghost use Rattle.job_targets.specs.Agree.{AllAgree};
ghost use Rattle.rollback_stack.specs.Saving.{IsNextJob, KeepsSystem, dropped_below};
ghost use Rattle.job_record.specs.Changed.{AreChangedNames};
ghost use Rattle.rollback_stack.specs.Entries.{AreEntries};
ghost use Rattle.rollback_stack.specs.Pushing.{IsPushStop, IsPushed, IsRecordWrite, is_written};

use crate::entries::changes_of;
use crate::saving::save_job;
use job_record::record_bytes;
use job_targets::Entry;
use job_targets::cny_base::{Bytes, Mode, Name, OutOfMemory, Stop};
use job_targets::journal_log::{Put, Puts, Want};
use job_targets::tree_disk::TreeDisk;
use job_targets::trove_stream::Installed;
use local_db::{Db, record_path};
use std::alloc::Global;

// The number of the job that is cleared besides: the number two below the oldest, where that is above 2.
fn dropped_number(db: &Db) -> Option<u32>
    ensures { result ≡ dropped_below db.now.oldest }
{
    if db.oldest > 2 {
        return Some(db.oldest - 2);
    }
    None
}

// The write of a record with these bytes, with mode 0644.
fn record_puts(alloc: Global, number: u32, bytes: Bytes) -> Result<Puts, OutOfMemory>
    ensures { IfOk result (λ puts. puts ≡ steps.record_put number 420 bytes ∷ []) }
{
    let path = record_path(alloc, number)?;
    let Some(mode) = Mode::new(0o644) else {
        unreachable!()
    };
    let want = Want::File { mode, bytes };
    let items = vec![in alloc; Put { path, want }]?;
    match Puts::new(items) {
        Some(puts) => Ok(puts),
        None => unreachable!(),
    }
}

/// The write of the record of a job, which is the newest of the database after it, once the contents that the job replaces were
/// saved in the private directory. It leads from the list before it to that of the database, and the names are just those whose
/// trove it changed.
///
/// Before that, what stands at the places of the job's number is cleared; and where the oldest number of the database is above 2
/// also what stands at those of the number two below it: a job that was dropped, to which no database refers any more. However it
/// ends, no other name changes but the private directory itself. The contents can be saved: `stashable` is `Ok`. No refusal comes
/// where the disk tells its tree, and `Collision` alone on every other one.
pub fn push_puts<D: TreeDisk>(
    alloc: Global,
    disk: &mut D,
    before: &Installed,
    names: &[Name],
    entries: &[Entry],
    db: &Db,
) -> Result<Puts, Stop>
    requires db { IsDatabase Two db.now.installed db.now.oldest db.now.newest }
    requires job { 1 ≤ db.now.newest }
    requires names { AreChangedNames before.now db.now.installed names.now }
    requires entries { AreEntries entries.now }
    requires agree { AllAgree entries.now }
    requires dir { IsTrue D.disk.tells → IsTrue (is_dir_at (D.disk.reads disk.old) (parent private_directory)) }
    ensures pushed { IsTrue D.disk.tells → IfOk result (IsPushed (D.disk.reads disk.new) before.now entries.now db.now) }
    // On every disk.
    ensures written { IfOk result IsRecordWrite }
    // However it ends, at every moment.
    ensures confined { IsTrue D.disk.tells → Confined D.disk (Among (is_written db.now)) disk.old disk.new }
    // What the root stores, it stores at every moment, if this is its next job.
    ensures keeps { (f : Format) (s : SystemState) → IsNextJob s db.now.newest (dropped_below db.now.oldest) → IsTrue D.disk.tells
        → ((q : Name) → counts s q ≡ true → D.disk.unsynced disk.old q ≡ false) → StoresIn f (D.disk.reads disk.old) s
        → KeepsSystem D.disk f s disk.old disk.new }
    ensures stops { IfErr result (IsPushStop D.disk.tells (Rose (D.disk.faults disk.old) (D.disk.faults disk.new))) }
    ensures later { D.disk.faults disk.old ≤ D.disk.faults disk.new }
{
    let changes = changes_of(alloc, entries)?;
    let bytes = record_bytes(
        alloc,
        db.newest,
        before,
        &db.installed,
        names,
        changes.as_slice(),
    )?;
    let puts = record_puts(alloc, db.newest, bytes)?;
    let dropped = dropped_number(db);
    save_job(alloc, disk, db.newest, dropped, entries)?;
    Ok(puts)
}
