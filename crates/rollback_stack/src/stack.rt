//! What the jobs of the stack changed, as their records tell it.
ghost use Rattle.std.specs.Prelude.{◌≡◌, ◌≤◌, length, IfErr, IfOk};
ghost use Rattle.job_targets.specs.cny-base.Count.{Rose};
ghost use Rattle.local_db.specs.declared.format.Format.TheVariants.{Two};
ghost use Rattle.local_db.specs.Stores.{IsDatabase};
ghost use Rattle.job_targets.specs.tree-disk.Disk.{Reads};
ghost use Rattle.rollback_stack.specs.Numbers.{job_count};
ghost use Rattle.rollback_stack.specs.Reading.{AreNotes, IsAllStop};

use crate::job_reading::{Job, read_job};
use crate::undo::{NotedJob, NotedJobs};
use job_targets::cny_base::Stop;
use job_targets::tree_disk::TreeDisk;
use local_db::{Db, Format};
use past_jobs::{Changed, PastList};
use std::alloc::Global;

// What is noted of the job of this number.
fn note_of(number: u32, job: Job) -> NotedJob
    ensures { result ≡ record { number = number; before = job.changed.before; after = job.changed.after; paths = length job.changes.items } }
{
    let Job { changed, changes } = job;
    let Changed { before, after } = changed;
    NotedJob {
        number,
        before,
        after,
        paths: changes.len() as u64,
    }
}

/// What the jobs of the stack changed, the newest first. Each record is read once, and no saved content. `Damaged` exactly where a
/// record fails its grammar or a cross-check, with the path of the newest such one.
pub fn all<D: TreeDisk>(alloc: Global, disk: &mut D, db: &Db) -> Result<NotedJobs, Stop>
    requires db { IsDatabase Two db.now.installed db.now.oldest db.now.newest }
    ensures value { Reads D.disk disk.old disk.new
        (IfOk result (AreNotes (D.disk.reads disk.old) (job_count db.now.oldest db.now.newest) db.now.newest db.now.installed)) }
    ensures stops { IfErr result (IsAllStop D.disk.tells (D.disk.reads disk.old) (job_count db.now.oldest db.now.newest) db.now.newest db.now.installed
        (Rose (D.disk.faults disk.old) (D.disk.faults disk.new))) }
    ensures later { D.disk.faults disk.old ≤ D.disk.faults disk.new }
{
    let mut notes = Vec::new(alloc);
    if db.newest == 0 {
        return Ok(NotedJobs::new(notes));
    }
    let mut list = PastList::of(alloc, Format::Two, &db.installed)?;
    let count = db.newest - db.oldest + 1;
    for below in 0..count {
        let number = db.newest - below;
        let job = read_job(alloc, disk, Format::Two, &mut list, number)?;
        notes.push(note_of(number, job))?;
    }
    Ok(NotedJobs::new(notes))
}
