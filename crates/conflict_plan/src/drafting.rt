//! What becomes of each path, but that a directory which is recorded no more may still stay.
ghost use Rattle.std.specs.Prelude.{◌≡◌, IfErr, IfOk, map};
ghost use Rattle.trove_stream.specs.cny-base.declared.refusal.Refusal.TheVariants as refusal;
ghost use Rattle.tree_scan.specs.tree-disk.Steps.{Tests};
ghost use Rattle.conflict_plan.specs.Drafts as spec;
ghost use Rattle.conflict_plan.specs.Drafts.{draft_by, draft_of, drafts_of, Decided, RefusesAtMost};
ghost use Rattle.conflict_plan.specs.Picked.{planned_of, ArePicked, IsPickedDraft};

use crate::entries::Entry;
use crate::planned::Planned;
use crate::table::{Outcome, outcome_of};
use std::alloc::Global;
use tree_scan::tree_disk::TreeDisk;
use tree_scan::{Mark, are_same_marks, mark_at};
use trove_stream::cny_base::{Options, OutOfMemory, Path, Refusal, Stop, Text};
use trove_stream::cny_stream::FileRec;

/// A path that may change.
#[derive(Drop)]
pub struct Draft {
    pub planned: Planned,
    /// It is a directory that goes only where no name directly below it remains.
    pub if_empty: bool,
}

// Whether there is nothing to do whatever stands there: such a path isn't looked at.
fn is_settled(entry: &Entry) -> bool
    ensures { result ≡ spec.is_settled entry.now }
{
    let pinned = entry.path.is_pinned();
    match (&entry.old, &entry.fresh) {
        (Some(old), Some(fresh)) => pinned || are_same_marks(old, fresh),
        _ => pinned,
    }
}

// Whether a directory that is recorded no more stands there.
fn is_left_dir(old: &Option<FileRec>, fresh: &Option<FileRec>, was: &Mark) -> bool
    ensures { result ≡ spec.is_left_dir old.now fresh.now was.now }
{
    let stands = was.is_dir();
    match old {
        Some(old) => fresh.is_none() && old.is_dir() && stands,
        None => false,
    }
}

fn unowned(alloc: Global, path: &Path) -> Result<Refusal, OutOfMemory>
    ensures { IfOk result (λ made. made ≡ refusal.Unowned path.now) }
{
    let path = Text::new(alloc, path.text())?;
    Ok(Refusal::Unowned { path })
}

fn edited(alloc: Global, path: &Path) -> Result<Refusal, OutOfMemory>
    ensures { IfOk result (λ made. made ≡ refusal.Edited path.now) }
{
    let path = Text::new(alloc, path.text())?;
    Ok(Refusal::Edited { path })
}

// What becomes of a path where this stands.
fn draft_by(
    alloc: Global,
    entry: Entry,
    was: Mark,
    options: &Options,
) -> Result<Option<Draft>, Stop>
    ensures { Decided (draft_by options.now entry was) result }
{
    let if_empty = is_left_dir(&entry.old, &entry.fresh, &was);
    let (path, old, fresh) = entry.into_parts();
    let outcome = outcome_of(&path, &old, &fresh, &was, false, options);
    let want = match outcome {
        Outcome::Stays => return Ok(None),
        Outcome::Unowned => return Err(Stop::Refused(unowned(alloc, &path)?)),
        Outcome::Edited => return Err(Stop::Refused(edited(alloc, &path)?)),
        Outcome::Removed => None,
        Outcome::Written => fresh,
    };
    let planned = Planned { path, was, want };
    Ok(Some(Draft { planned, if_empty }))
}

// What becomes of a path.
fn draft_of<D: TreeDisk>(
    alloc: Global,
    disk: &mut D,
    entry: Entry,
    options: &Options,
) -> Result<Option<Draft>, Stop>
    ensures tests { Tests D.disk (λ draft. draft)
        (λ tree. draft_of options.now tree entry)
        disk.old disk.new result }
    ensures picked { IfOk result (IsPickedDraft entry) }
    ensures stops { IfErr result RefusesAtMost }
{
    if is_settled(&entry) {
        return Ok(None);
    }
    let was = mark_at(alloc, disk, &entry.path)?;
    draft_by(alloc, entry, was, options)
}

/// What becomes of each path, in their order. `Unowned` or `Edited` exactly where the table refuses, at the first such path.
pub fn drafts_of<D: TreeDisk>(
    alloc: Global,
    disk: &mut D,
    entries: Vec<Entry>,
    options: &Options,
) -> Result<Vec<Draft>, Stop>
    ensures tests { Tests D.disk (λ drafts. drafts.items)
        (λ tree. drafts_of options.now tree entries.items)
        disk.old disk.new result }
    ensures picked { IfOk result (λ drafts. ArePicked entries.items (map planned_of drafts.items)) }
    ensures stops { IfErr result RefusesAtMost }
{
    let mut drafts = Vec::new(alloc);
    for entry in entries {
        if let Some(draft) = draft_of(alloc, disk, entry, options)? {
            drafts.push(draft)?;
        }
    }
    Ok(drafts)
}
