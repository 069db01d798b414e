//! The plan of a job.
ghost use Rattle.std.specs.Prelude.{◌≡◌, IfErr, IfOk};
ghost use Rattle.trove_stream.specs.cny-base.declared.refusal.Refusal.TheVariants as refusal;
ghost use Rattle.tree_scan.specs.OnlyReads.{OnlyReads};
ghost use Rattle.conflict_plan.specs.Plan.{ArePlannable, IsPlan, IsFirstRefusal, IsPlanStop, TellsShared};

use crate::drafting::drafts_of;
use crate::entries::entries_of;
use crate::orphans::first_orphan;
use crate::planned::PlannedList;
use crate::records::records_of;
use crate::settling::settle_all;
use std::alloc::Global;
use tree_scan::tree_disk::TreeDisk;
use trove_stream::Trove;
use trove_stream::cny_base::{Options, OutOfMemory, Path, Refusal, Stop, Text};

fn parent_missing(alloc: Global, path: &Path) -> Result<Refusal, OutOfMemory>
    ensures { IfOk result (λ made. made ≡ refusal.Parent path.now) }
{
    let path = Text::new(alloc, path.text())?;
    Ok(Refusal::Parent { path })
}

/// What a job that leads from the old list of troves to the new one changes of the tree: just the paths at which what is to stand
/// differs from what stands, in path order, each with the fingerprint of what stands and the record of its target. It only reads;
/// a path of which both lists record the same isn't read, and is looked at only as the parent of another one.
///
/// Both lists are in the order of their names. Of a path that several troves record, the record of the first counts. The job is
/// refused by
/// - `Owned`, for the first path that two troves of the new list have and that isn't a directory in both;
/// - `Unowned` or `Edited`, for the first path at which the conflict table refuses;
/// - `Parent`, for the first path of the result whose parent isn't a directory;
///
/// in this order. `Owned` depends on the new list alone, and comes exactly so on every disk. `Failed` comes only where the disk's
/// count of faults rose, and of the other stops want of memory alone.
pub fn plan<D: TreeDisk>(
    alloc: Global,
    disk: &mut D,
    old: &[Trove],
    fresh: &[Trove],
    options: &Options,
) -> Result<PlannedList, Stop>
    ensures plans { OnlyReads D.disk (IsPlan old.now fresh.now options.now) (IsFirstRefusal old.now fresh.now options.now)
        disk.old disk.new result }
    // On every disk, also where it tells nothing.
    ensures owned { TellsShared fresh.now result }
    ensures plannable { IfOk result (ArePlannable old.now fresh.now) }
    ensures stops { IfErr result IsPlanStop }
{
    let records = records_of(alloc, old, fresh)?;
    let entries = entries_of(alloc, records)?;
    let drafts = drafts_of(alloc, disk, entries, options)?;
    let plan = settle_all(alloc, disk, drafts)?;
    let orphan = first_orphan(alloc, disk, &plan)?;
    match orphan {
        Some(path) => Err(Stop::Refused(parent_missing(alloc, &path)?)),
        None => Ok(plan.into_list()),
    }
}
