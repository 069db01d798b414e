//! Runs of the journal that are cut off, left as a crash may leave them, and recovered.
use crate::found::Found;
use crate::runs::{
    BASE, Case, MANY, Run, Task, apply_up_to, case_of, cut_of, push_stored, recover_up_to, stored,
};
use line_words::{Answer, Line, Outcomes, Stop};
use root_words::crashed;
use root_words::tree_memory::MemoryTree;
use root_words::tree_memory::cny_base::Path;
use std::alloc::Global;

// Appends what a crash leaves of a tree at a path, where it is another node than the last one.
fn push_left(
    tree: &MemoryTree,
    pick: u64,
    path: &Path,
    outcomes: &mut Outcomes,
    answer: &mut Answer,
) -> Result<(), Stop> {
    let image = crashed(answer.alloc(), tree, pick)?;
    let mut left = answer.apart();
    left.placed(path.text(), image.tree.node(path));
    outcomes.push(answer, &left);
    Ok(())
}

fn push_seen(task: Task, pick: u64, path: &Path, answer: &mut Answer) -> Result<(), Stop> {
    let mut outcomes = Outcomes::new(answer.alloc());
    for calls in 0..MANY {
        let cut = task.up_to(answer.alloc(), calls)?;
        push_left(&cut.disk.tree, pick, path, &mut outcomes, answer)?;
        if cut.is_done {
            return Ok(());
        }
    }
    Err(Stop::Unreadable)
}

/// `see TREE PUTS PICK PATH`: what crashes leave at a path after each call of an application.
pub fn see(line: &mut Line, answer: &mut Answer) {
    let pick = line.number(2);
    if let Some(case) = case_of(line) {
        if let Some(path) = line.path(3) {
            let done = push_seen(Task::Apply(&case), pick, &path, answer);
            answer.kept(done);
        }
    }
}

/// `see_again TREE PUTS CALLS PICK PATH`: what crashes leave at a path after each call of a recovery, of what an application left that was
/// cut off.
pub fn see_again(line: &mut Line, answer: &mut Answer) {
    let pick = line.number(3);
    if let Some(cut) = cut_of(line) {
        if let Some(path) = line.path(4) {
            let done = push_seen(Task::Recover(&cut.disk.tree, 0), pick, &path, answer);
            answer.kept(done);
        }
    }
}

// Whether a run found the commit flag set, or that it was cut off.
fn push_end(run: &Run, answer: &mut Answer) {
    if run.is_done {
        answer.holds(run.was_committed);
    } else {
        answer.field("failed");
    }
}

fn push_crash(tree: &MemoryTree, pick: u64, answer: &mut Answer) -> Result<(), Stop> {
    let image = crashed(answer.alloc(), tree, pick)?;
    push_stored(&image.tree, answer);
    let ended = recover_up_to(answer.alloc(), &image.tree, 0, MANY)?;
    push_end(&ended, answer);
    push_stored(&ended.disk.tree, answer);
    Ok(())
}

/// `crash_in TREE PUTS CALLS PICK`: what a crash leaves of an application that was cut off, whether its recovery finds the commit flag
/// set, and what that leaves.
pub fn crash_in(line: &mut Line, answer: &mut Answer) {
    if let Some(cut) = cut_of(line) {
        let done = push_crash(&cut.disk.tree, line.number(3), answer);
        answer.kept(done);
    }
}

fn push_images(case: &Case, calls: u32, picks: u32, answer: &mut Answer) -> Result<(), Stop> {
    let alloc = answer.alloc();
    let cut = apply_up_to(alloc, case, calls)?;
    let mut found = Found::of(alloc, case)?;
    for pick in 0..picks {
        found.find(alloc, &cut.disk.tree, u64::from(pick))?;
    }
    found.push(answer);
    Ok(())
}

/// `images TREE PUTS CALLS PICKS`: how often each tree is found after the recovery of the images that the numbers below PICKS pick, of an
/// application that was cut off.
pub fn images(line: &mut Line, answer: &mut Answer) {
    if let Some(case) = case_of(line) {
        let done = push_images(&case, line.small(2), line.small(3), answer);
        answer.kept(done);
    }
}

// Whether something stands in the private directory under a name.
fn has_own(alloc: Global, tree: &MemoryTree, name: &str) -> Result<bool, Stop> {
    let path = Path::read(alloc, BASE)?.join(alloc, name)?;
    Ok(tree.node(&path).is_some())
}

// Whether a crash leaves the tree after, with no flag and nothing at the work name.
fn is_kept(alloc: Global, tree: &MemoryTree, pick: u64, after: &str) -> Result<bool, Stop> {
    let image = crashed(alloc, tree, pick)?;
    if has_own(alloc, &image.tree, "gate")? || has_own(alloc, &image.tree, "w")? {
        return Ok(false);
    }
    Ok(stored(alloc, &image.tree)?.as_str() == after)
}

// How many of the crashes do.
fn count_kept(alloc: Global, tree: &MemoryTree, picks: &[u64], after: &str) -> Result<u64, Stop> {
    let mut kept = 0u64;
    for pick in picks {
        if is_kept(alloc, tree, *pick, after)? {
            kept = kept.saturating_add(1);
        }
    }
    Ok(kept)
}

fn push_cuts(case: &Case, pick: u64, picks: &[u64], answer: &mut Answer) -> Result<(), Stop> {
    let alloc = answer.alloc();
    let mut found = Found::of(alloc, case)?;
    let mut again = 0u64;
    for calls in 0..MANY {
        let cut = apply_up_to(alloc, case, calls)?;
        again = again.saturating_add(found.find_again(alloc, &cut.disk.tree, pick, picks)?);
        if cut.is_done {
            answer.field_number(u64::from(calls));
            answer.field_number(again);
            found.push(answer);
            answer.field_number(count_kept(alloc, &cut.disk.tree, picks, found.after())?);
            return Ok(());
        }
    }
    Err(Stop::Unreadable)
}

/// `cuts TREE PUTS PICK PICKS`: an application is cut off after each number of calls, each time with the crash of the first number, and
/// its recovery again, with each of the other crashes. How often each was cut off, how often each tree was found, and how many crashes
/// after the whole run leave the tree after.
pub fn cuts(line: &mut Line, answer: &mut Answer) {
    if let Some(case) = case_of(line) {
        let done = push_cuts(&case, line.number(2), &line.list(3), answer);
        answer.kept(done);
    }
}
