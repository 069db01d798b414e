//! Runs of the journal that are cut off, and crashes.
ghost use Rattle.std.specs.Prelude.{◌≤◌, IfOk, length};

use crate::puts::puts;
use line_words::{Answer, Line, Stop};
use root_words::tree_memory::MemoryTree;
use root_words::tree_memory::cny_base::{Path, Stop as DiskEnd};
use root_words::{Quiet, crashed, disk_of, told_kept};
use std::alloc::Global;
use tree_journal::journal_log::Puts;
use tree_journal::{apply, recover};

/// The private directory of the journal.
pub const BASE: &str = "/var/lib/conarydb";

/// More calls than any of the runs makes.
pub const MANY: u32 = 1000;

/// The path of the base, which leaves room for the journal's own names.
pub fn base_path(alloc: Global) -> Result<Path, Stop>
    ensures { IfOk result (λ base. length base ≤ 1011) }
{
    let base = Path::read(alloc, BASE)?;
    if base.text().len() > 1011 {
        return Err(Stop::Unreadable);
    }
    Ok(base)
}

/// The disk that a run left, whether the run came to its end, and whether it was a recovery that found the commit flag set.
pub struct Run {
    pub disk: Quiet,
    pub is_done: bool,
    pub was_committed: bool,
}

// Written by hand, so that to let a value go is a single call wherever a function ends early.
impl Drop for Run {
    fn drop(self) {
        let Run {
            disk: _disk,
            is_done: _is_done,
            was_committed: _was_committed,
        } = self;
    }
}

// What a run came to, and none where it was cut off.
fn end_of<T: Drop>(done: Result<T, DiskEnd>) -> Result<Option<T>, Stop> {
    match done {
        Ok(value) => Ok(Some(value)),
        Err(DiskEnd::Failed) => Ok(None),
        Err(_) => Err(Stop::Unreadable),
    }
}

/// Recovers the tree that a crash leaves of this one, and stops after so many calls.
pub fn recover_up_to(alloc: Global, tree: &MemoryTree, pick: u64, calls: u32) -> Result<Run, Stop> {
    let base = base_path(alloc)?;
    let mut disk = crashed(alloc, tree, pick)?;
    disk.tree.stop_after(calls);
    let ended = end_of(recover(alloc, &mut disk, &base))?;
    Ok(Run {
        disk,
        is_done: ended.is_some(),
        was_committed: ended == Some(true),
    })
}

/// A tree and a write set.
pub struct Case {
    pub start: Quiet,
    pub puts: Puts,
}

impl Drop for Case {
    fn drop(self) {
        let Case {
            start: _start,
            puts: _puts,
        } = self;
    }
}

/// The case of the first two arguments.
pub fn case_of(line: &mut Line) -> Option<Case> {
    let puts = puts(line, 1)?;
    let start = disk_of(line, 0, 0)?;
    Some(Case { start, puts })
}

/// Applies the write set to a copy of the tree, and stops after so many calls.
pub fn apply_up_to(alloc: Global, case: &Case, calls: u32) -> Result<Run, Stop> {
    let base = base_path(alloc)?;
    let mut disk = crashed(alloc, &case.start.tree, 0)?;
    disk.tree.stop_after(calls);
    let ended = end_of(apply(alloc, &mut disk, &base, &case.puts))?;
    Ok(Run {
        disk,
        is_done: ended.is_some(),
        was_committed: false,
    })
}

/// What is cut off: the application of a case, or the recovery of what the crash leaves of a tree that a number picks.
#[derive(Clone, Copy)]
pub enum Task<'a> {
    Apply(&'a Case),
    Recover(&'a MemoryTree, u64),
}

impl Task<'_> {
    /// Runs it, and stops after so many calls.
    pub fn up_to(self, alloc: Global, calls: u32) -> Result<Run, Stop> {
        match self {
            Task::Apply(case) => apply_up_to(alloc, case, calls),
            Task::Recover(tree, pick) => recover_up_to(alloc, tree, pick, calls),
        }
    }
}

/// The disk that an application of the first two arguments left, which was cut off after as many calls as the third tells.
pub fn cut_of(line: &mut Line) -> Option<Run> {
    let case = case_of(line)?;
    let calls = line.small(2);
    line.kept(apply_up_to(line.alloc(), &case, calls))
}

// A text of nodes but for its last one, where that stands at the base.
fn without_base(nodes: &str) -> &str {
    match nodes.rsplit_once(';') {
        Some((front, last)) if last.ends_with(BASE) => front,
        _ => nodes,
    }
}

/// Appends what stands in a tree but for the private directory, in which no other name is as deep as that, as a field.
pub fn push_stored(tree: &MemoryTree, answer: &mut Answer) {
    let mut nodes = answer.apart();
    told_kept(tree, BASE, &mut nodes);
    answer.field(without_base(nodes.get()));
    answer.keep_failure(&nodes);
}

/// What stands in a tree but for the private directory.
pub fn stored(alloc: Global, tree: &MemoryTree) -> Result<String, Stop> {
    let mut nodes = Answer::new(alloc);
    push_stored(tree, &mut nodes);
    nodes.end()
}
