//! The writes that take several jobs back.
ghost use Rattle.std.specs.Prelude.{◌≡◌, ◌≤◌, IfErr, IfOk, Ok, OnOk};
ghost use Rattle.std.specs.BTreeMap.{IsOrdered};
ghost use Rattle.std.specs.Cmp.Lexicographic.{slice_cmp};
ghost use Rattle.std.specs.Ordering.{nat_cmp};
ghost use Rattle.job_targets.specs.cny-base.Count.{Rose};
ghost use Rattle.job_targets.specs.Old.{IsDamagedOld};
ghost use Rattle.job_targets.specs.tree-disk.Disk.{Reads};
ghost use Rattle.job_targets.specs.tree-disk.Steps.{IsDiskStop, Tests};
ghost use Rattle.rollback_stack.specs.JobReading.{IsReadStop};
ghost use Rattle.rollback_stack.specs.Wanting.{AreWanted, HasNoRecord, HasNoRecords, HasWanted, IsFirstDamaged, puts_in, stays};

use job_targets::cny_base::{Copies, OutOfMemory, Path, Stop};
use job_targets::journal_log::{Put, Puts, Want};
use job_targets::old_node;
use job_targets::tree_disk::{TreeDisk, steps};
use local_db::record_path;
use past_jobs::{FoundMark, FoundMarks};
use std::alloc::Global;
use std::collections::BTreeMap;

/// What is to stand at some paths.
pub(crate) type Wants = BTreeMap<Path, Want>;

/// The write set of these.
pub(crate) fn puts_of(alloc: Global, wants: Wants) -> Result<Puts, OutOfMemory>
    ensures puts { IfOk result (λ puts. puts ≡ puts_in wants) }
    ensures ordered { OnOk result (IsOrdered (slice_cmp nat_cmp) wants) }
{
    let mut items = Vec::new(alloc);
    for (path, want) in wants {
        items.push(Put { path, want })?;
    }
    match Puts::new(items) {
        Some(puts) => Ok(puts),
        None => unreachable!(),
    }
}

// Nothing is to stand at the record of this number.
fn want_no_record(alloc: Global, wants: &mut Wants, number: u32) -> Result<(), OutOfMemory>
    ensures { OnOk result (HasNoRecord number wants.old wants.new) }
{
    let path = record_path(alloc, number)?;
    wants.insert(path, Want::Nothing)?;
    Ok(())
}

/// Nothing is to stand at the records of so many jobs, from this number down.
pub(crate) fn want_no_records(
    alloc: Global,
    wants: &mut Wants,
    count: u32,
    newest: u32,
) -> Result<(), OutOfMemory>
    requires { count ≤ newest }
    ensures { OnOk result (HasNoRecords count newest wants.old wants.new) }
{
    for below in 0..count {
        want_no_record(alloc, wants, newest - below)?;
    }
    Ok(())
}

// Whether nothing is to stand at a path, and nothing stands there.
fn stays_nothing<D: TreeDisk>(
    alloc: Global,
    disk: &mut D,
    path: &Path,
    found: &FoundMark,
) -> Result<bool, Stop>
    ensures tests { Tests D.disk (λ stays. stays)
        (λ tree. Ok (stays tree path.now found.now))
        disk.old disk.new result }
    ensures stops { IfErr result IsDiskStop }
{
    if !found.mark.is_nothing() {
        return Ok(false);
    }
    let look = steps::look(alloc, disk, path)?;
    Ok(look.is_nothing())
}

// Wants what a job found at the path. Where nothing stands and nothing is to stand there, nothing is wanted.
fn want_found<D: TreeDisk>(
    alloc: Global,
    disk: &mut D,
    wants: &mut Wants,
    path: &Path,
    found: &FoundMark,
) -> Result<(), Stop>
    ensures value { Reads D.disk disk.old disk.new (OnOk result (HasWanted (D.disk.reads disk.old) path.now found.now wants.old wants.new)) }
    ensures ordered { IsOrdered (slice_cmp nat_cmp) wants.old → OnOk result (IsOrdered (slice_cmp nat_cmp) wants.new) }
    ensures stops { IfErr result (IsReadStop D.disk.tells (IsDamagedOld (D.disk.reads disk.old) found.now.number found.now.mark)
        (Rose (D.disk.faults disk.old) (D.disk.faults disk.new))) }
    ensures later { D.disk.faults disk.old ≤ D.disk.faults disk.new }
{
    if stays_nothing(alloc, disk, path, found)? {
        return Ok(());
    }
    let want = old_node(alloc, disk, found.number, &found.mark)?;
    let path = path.copy()?;
    wants.insert(path, want)?;
    Ok(())
}

/// What jobs found at their paths, as the disk holds it. They are read in the order of the paths.
pub(crate) fn old_nodes<D: TreeDisk>(
    alloc: Global,
    disk: &mut D,
    found: &FoundMarks,
) -> Result<Wants, Stop>
    ensures value { Reads D.disk disk.old disk.new (IfOk result (AreWanted (D.disk.reads disk.old) found.now)) }
    ensures ordered { IfOk result (IsOrdered (slice_cmp nat_cmp)) }
    ensures stops { IfErr result (IsReadStop D.disk.tells (IsFirstDamaged (D.disk.reads disk.old) found.now)
        (Rose (D.disk.faults disk.old) (D.disk.faults disk.new))) }
    ensures later { D.disk.faults disk.old ≤ D.disk.faults disk.new }
{
    let mut wants = BTreeMap::new(alloc);
    for (path, at) in found {
        want_found(alloc, disk, &mut wants, path, at)?;
    }
    Ok(wants)
}
