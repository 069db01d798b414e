//! What stands at the paths of a plan.
ghost use Rattle.std.specs.Prelude.{◌≡◌, ◌≤◌, IfErr, IfOk, IsTrue, None, Ok, All, length};
ghost use Rattle.std.specs.FinMap.{get};
ghost use Rattle.conflict_plan.specs.Orphans.{IsSeenPlan};
ghost use Rattle.conflict_plan.specs.Plan.{mark_of_want};
ghost use Rattle.local_db.specs.MarkBytes.{IsMark};
ghost use Rattle.local_db.specs.Steps.{want_of};
ghost use Rattle.local_db.specs.tree-disk.Rows.{bytes_at, is_file_at};
ghost use Rattle.local_db.specs.tree-disk.Steps.{Tests};
ghost use Rattle.job_targets.specs.Outcome.{IsGrownStop};
ghost use Rattle.job_targets.specs.Targets.{entries_at, entry_at, first_large, HasEntry, HaveEntries, IsOldWant, large_size};

use crate::entry::{Entries, Entry};
use conflict_plan::Planned;
use local_db::cny_base::{Bytes, CONTENT_LIMIT, Copies, OutOfMemory, Path, Refusal, Stop, What};
use local_db::cny_stream::FileRec;
use local_db::journal_log::Want;
use local_db::mark_of_record;
use local_db::tree_disk::{TreeDisk, steps};
use std::alloc::Global;
use tree_scan::Mark;

// The fingerprint of what is to stand.
fn wanted_mark(want: &Option<FileRec>) -> Result<Mark, OutOfMemory>
    ensures value { IfOk result (λ mark. mark ≡ mark_of_want want.now) }
    ensures marked { IfOk result IsMark }
{
    match want {
        Some(rec) => mark_of_record(rec),
        None => Ok(Mark::Nothing),
    }
}

// The bytes of a file of no more bytes than the limit. A disk that tells nothing may read a larger one: then `TooLarge`, with the
// least size that it can have.
fn read_old<T: TreeDisk>(alloc: Global, root: &mut T, path: &Path) -> Result<Bytes, Stop>
    requires file { IsTrue T.disk.tells → IsTrue (is_file_at (T.disk.reads root.old) path.now) }
    requires small { IsTrue T.disk.tells → length (bytes_at (T.disk.reads root.old) path.now) ≤ CONTENT_LIMIT }
    ensures tests { Tests T.disk (λ bytes. bytes) (λ tree. Ok (bytes_at tree path.now)) root.old root.new result }
    ensures small { IfOk result (λ bytes. length bytes ≤ CONTENT_LIMIT) }
    ensures stops { IfErr result IsGrownStop }
{
    let most = u64::from(CONTENT_LIMIT);
    match steps::read_whole(alloc, root, path, most)? {
        Some(bytes) => Ok(bytes),
        None => Err(Stop::Refused(Refusal::TooLarge {
            what: What::Local,
            size: most + 1,
        })),
    }
}

// What stands at a planned path. Only a file is read.
fn old_want<T: TreeDisk>(alloc: Global, root: &mut T, planned: &Planned) -> Result<Want, Stop>
    requires seen { IsTrue T.disk.tells → IsSeenPlan (T.disk.reads root.old) planned.now }
    requires small { large_size planned.now.was ≡ None }
    ensures tests { Tests T.disk (λ want. want) (λ tree. Ok (want_of (get tree planned.now.path))) root.old root.new result }
    ensures formed { IfOk result IsOldWant }
    ensures stops { IfErr result IsGrownStop }
{
    match &planned.was {
        Mark::Nothing => Ok(Want::Nothing),
        Mark::Dir { mode } => {
            let _bits = mode.bits();
            Ok(Want::Dir { mode: *mode })
        }
        Mark::File { mode, .. } => {
            let _bits = mode.bits();
            let bytes = read_old(alloc, root, &planned.path)?;
            Ok(Want::File { mode: *mode, bytes })
        }
        Mark::Link { target } => {
            let _text = target.text();
            Ok(Want::Link {
                target: target.copy()?,
            })
        }
    }
}

// What stands at a planned path, with the fingerprint of what is to stand.
fn planned_entry<T: TreeDisk>(alloc: Global, root: &mut T, planned: &Planned) -> Result<Entry, Stop>
    requires seen { IsTrue T.disk.tells → IsSeenPlan (T.disk.reads root.old) planned.now }
    requires small { large_size planned.now.was ≡ None }
    ensures tests { Tests T.disk (λ entry. entry) (λ tree. Ok (entry_at tree planned.now)) root.old root.new result }
    ensures has { IfOk result (HasEntry planned.now) }
    ensures stops { IfErr result IsGrownStop }
{
    let _text = planned.path.text();
    let mark = wanted_mark(&planned.want)?;
    let path = planned.path.copy()?;
    let was = old_want(alloc, root, planned)?;
    Ok(Entry { path, was, mark })
}

/// What stands at the planned paths, in their order. No file of them is above the limit.
pub(crate) fn entries_of<T: TreeDisk>(
    alloc: Global,
    root: &mut T,
    planned: &[Planned],
) -> Result<Entries, Stop>
    requires seen { IsTrue T.disk.tells → All (IsSeenPlan (T.disk.reads root.old)) planned.now }
    requires small { first_large planned.now ≡ None }
    ensures tests { Tests T.disk (λ entries. entries) (λ tree. Ok (entries_at tree planned.now)) root.old root.new result }
    ensures have { IfOk result (HaveEntries planned.now) }
    ensures stops { IfErr result IsGrownStop }
{
    let mut entries = Vec::new(alloc);
    for one in planned {
        let entry = planned_entry(alloc, root, one)?;
        entries.push(entry)?;
    }
    Ok(Entries::new(entries))
}
