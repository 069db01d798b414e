//! What jobs that were taken back found at their paths, and the fingerprints that stand after them.
ghost use Rattle.std.specs.Prelude.{◌≡◌, ◌-◌, ◌++◌, ◌∷◌, [], List, ℕ, length, IfErr, IsTrue, Ok, OnOk};
ghost use Rattle.std.specs.BTreeMap.{IsOrdered, get};
ghost use Rattle.std.specs.Cmp.Lexicographic.{slice_cmp};
ghost use Rattle.std.specs.List.{AllByRecursion};
ghost use Rattle.std.specs.List.Sorted.{IsStrictlySortedBy};
ghost use Rattle.std.specs.Ordering.{nat_cmp};
ghost use Rattle.change_rel.specs.cny-base.Path.{is_path};
ghost use Rattle.local_db.specs.tree-disk.Steps.{IsDiskStop, Tests};
ghost use Rattle.tree_scan.specs.Marks as marks;
ghost use Rattle.past_jobs.specs.Jobs.{AreFound, noted, noted_all};
ghost use Rattle.local_db.specs.Record.{Entry, entry_cmp};
ghost use Rattle.past_jobs.specs.Seen.{mark_seen};

use local_db::PathChange;
use local_db::cny_base::{Copies, OutOfMemory, Path, Stop};
use local_db::tree_disk::{TreeDisk, steps};
use std::alloc::Global;
use std::collections::BTreeMap;
use tree_scan::{Mark, mark_at};

/// What the oldest job that was taken back and has the path found there.
#[derive(Drop)]
pub struct FoundMark {
    /// The number of that job.
    pub number: u32,
    pub mark: Mark,
}

/// The paths of the jobs that were taken back.
pub type FoundMarks = BTreeMap<Path, FoundMark>;

// The fingerprint of what stands at the path.
pub(crate) fn mark_now<D: TreeDisk>(
    alloc: Global,
    disk: &mut D,
    found: &FoundMarks,
    path: &Path,
) -> Result<Mark, Stop>
    ensures tests { Tests D.disk (λ mark. mark)
        (λ tree. Ok (mark_seen found.now tree path.now))
        disk.old disk.new result }
    ensures stops { IfErr result IsDiskStop }
{
    if let Some(at) = found.get(path) {
        let mark = at.mark.copy()?;
        return Ok(mark);
    }
    mark_at(alloc, disk, path)
}

// Whether a directory stands at the path. A file isn't read.
pub(crate) fn is_dir_now<D: TreeDisk>(
    alloc: Global,
    disk: &mut D,
    found: &FoundMarks,
    path: &Path,
) -> Result<bool, Stop>
    ensures tests { Tests D.disk (λ dir. dir)
        (λ tree. Ok (marks.is_dir (mark_seen found.now tree path.now)))
        disk.old disk.new result }
    ensures stops { IfErr result IsDiskStop }
{
    if let Some(at) = found.get(path) {
        return Ok(at.mark.is_dir());
    }
    let look = steps::look(alloc, disk, path)?;
    Ok(look.is_dir())
}

// Notes what the job of this number found at a path.
fn note(found: &mut FoundMarks, number: u32, change: &PathChange) -> Result<(), OutOfMemory>
    ensures noted { OnOk result ((p : List ℕ) → get (slice_cmp nat_cmp) found.new p
        ≡ noted number change.now (get (slice_cmp nat_cmp) found.old) p) }
    ensures ordered { OnOk result (IsOrdered (slice_cmp nat_cmp) found.new) }
    ensures path { IsTrue (is_path change.now.path) }
{
    let _text = change.path().text();
    let path = change.path().copy()?;
    let mark = change.old_mark().copy()?;
    found.insert(path, FoundMark { number, mark })?;
    Ok(())
}

fn note_all(found: &mut FoundMarks, number: u32, changes: &[PathChange]) -> Result<(), OutOfMemory>
    ensures noted { OnOk result ((p : List ℕ) → get (slice_cmp nat_cmp) found.new p
        ≡ noted_all number changes.now (get (slice_cmp nat_cmp) found.old) p) }
    ensures ordered { IsOrdered (slice_cmp nat_cmp) found.old → OnOk result (IsOrdered (slice_cmp nat_cmp) found.new) }
    ensures paths { OnOk result (AllByRecursion (λ e. IsTrue (is_path e.path)) changes.now) }
{
    for change in changes {
        note(found, number, change)?;
    }
    Ok(())
}

/// Takes the job of this number back, the next older one, whose changes rise by path. After an error any part of them may be
/// noted.
pub fn take_back(
    found: &mut FoundMarks,
    number: u32,
    changes: &[PathChange],
) -> Result<(), OutOfMemory>
    requires { IsStrictlySortedBy entry_cmp changes.now }
    ensures { (newest : ℕ) (jobs : List (List Entry)) → number ≡ newest - length jobs → AreFound newest jobs found.old
        → OnOk result (AreFound newest (jobs ++ changes.now ∷ []) found.new) }
{
    note_all(found, number, changes)?;
    Ok(())
}
