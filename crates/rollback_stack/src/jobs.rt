//! Jobs that are taken back, the newest first.
ghost use Rattle.std.specs.Prelude.{◌≡◌, ◌≤◌, ◌+◌, ◌-◌, IfErr, IfOk, OnOk};
ghost use Rattle.job_targets.specs.cny-base.Count.{Rose};
ghost use Rattle.local_db.specs.Formats.{AreEnds, Fits};
ghost use Rattle.local_db.specs.Installed.{IsInstalled};
ghost use Rattle.local_db.specs.Stores.{IsDatabase};
ghost use Rattle.local_db.specs.declared.format.Format.TheVariants.{Two};
ghost use Rattle.job_targets.specs.tree-disk.Disk.{Reads};
ghost use Rattle.rollback_stack.specs.Inverse.{IsOnStack};
ghost use Rattle.rollback_stack.specs.Taking.{AreTaken, HasTakenJob, IsJobsStop, IsNoJobStop, IsTakeStop};

use crate::job_reading::{Job, read_job};
use job_targets::cny_base::{Refusal, Stop};
use job_targets::tree_disk::TreeDisk;
use local_db::{Db, Format};
use past_jobs::{FoundMarks, PastList, check_undo, take_back};
use std::alloc::Global;
use std::collections::BTreeMap;

/// What is known once jobs were taken back.
#[derive(Drop)]
pub(crate) struct TakenBack {
    pub(crate) list: PastList,
    pub(crate) found: FoundMarks,
}

/// Whether there is a job of this number.
pub(crate) fn check_number(db: &Db, number: u32) -> Result<(), Stop>
    requires { AreEnds db.now.oldest db.now.newest }
    ensures job { OnOk result (IsOnStack db.now number) }
    ensures stops { IfErr result (IsNoJobStop db.now number) }
{
    if db.newest == 0 {
        return Err(Stop::Refused(Refusal::StackEmpty));
    }
    if number < db.oldest || db.newest < number {
        return Err(Stop::Refused(Refusal::NoJob { number }));
    }
    Ok(())
}

// Reads the job of this number, and takes it back where that can be done.
fn take_job<D: TreeDisk>(
    alloc: Global,
    disk: &mut D,
    back: &mut TakenBack,
    number: u32,
) -> Result<(), Stop>
    requires number { 1 ≤ number }
    requires installed { IsInstalled back.old.list.troves }
    requires format { back.old.list.format ≡ Two }
    ensures value { Reads D.disk disk.old disk.new (OnOk result
        (HasTakenJob (D.disk.reads disk.old) number back.old.list.troves back.new.list.troves back.old.found back.new.found)) }
    // On every disk, also where it tells nothing.
    ensures installed { OnOk result (IsInstalled back.new.list.troves) }
    ensures fits { OnOk result (Fits Two back.new.list.troves) }
    ensures format { OnOk result (back.new.list.format ≡ Two) }
    ensures stops { IfErr result (IsTakeStop D.disk.tells (D.disk.reads disk.old) number back.old.list.troves back.old.found
        (Rose (D.disk.faults disk.old) (D.disk.faults disk.new))) }
    ensures later { D.disk.faults disk.old ≤ D.disk.faults disk.new }
{
    let job = read_job(alloc, disk, Format::Two, &mut back.list, number)?;
    let Job { changes, .. } = job;
    let own = changes.as_slice();
    check_undo(alloc, disk, &back.found, own)?;
    take_back(&mut back.found, number, own)?;
    Ok(())
}

/// All jobs from the newest down to this number, taken back one after the other.
pub(crate) fn jobs_down_to<D: TreeDisk>(
    alloc: Global,
    disk: &mut D,
    db: &Db,
    number: u32,
) -> Result<TakenBack, Stop>
    requires db { IsDatabase Two db.now.installed db.now.oldest db.now.newest }
    requires job { IsOnStack db.now number }
    ensures value { Reads D.disk disk.old disk.new (IfOk result (λ back.
        AreTaken (D.disk.reads disk.old) db.now (db.now.newest - number + 1) back.list.troves back.found)) }
    ensures installed { IfOk result (λ back. IsInstalled back.list.troves) }
    ensures fits { IfOk result (λ back. Fits Two back.list.troves) }
    ensures stops { IfErr result (IsJobsStop D.disk.tells (D.disk.reads disk.old) db.now number (Rose (D.disk.faults disk.old) (D.disk.faults disk.new))) }
    ensures later { D.disk.faults disk.old ≤ D.disk.faults disk.new }
{
    let list = PastList::of(alloc, Format::Two, &db.installed)?;
    let found = BTreeMap::new(alloc);
    let mut back = TakenBack { list, found };
    let count = db.newest - number + 1;
    for below in 0..count {
        take_job(alloc, disk, &mut back, db.newest - below)?;
    }
    Ok(back)
}
