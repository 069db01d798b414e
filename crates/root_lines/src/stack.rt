//! Calls on the stack of jobs of a root. Of each the call of the disk of the number FAILS fails; none for 0.
use crate::entries::told_puts;
use crate::newest_job::newest_job;
use crate::root::{database_of, push_db, root_of};
use job_targets::stashable;
use line_words::{Answer, Line};
use rollback_stack::{Back, NotedJob, NotedJobs, all, inverse_to, push_puts};
use root_words::{Quiet, disk_of, told_nodes};
use std::alloc::Global;
use system_core::cny_base::Stop;
use system_core::journal_log::Puts;

fn push_note(note: &NotedJob, answer: &mut Answer) {
    answer.field_number(u64::from(note.number));
    answer.text(" before");
    answer.ids(" ", note.before.get());
    answer.text(" after");
    answer.ids(" ", note.after.get());
    answer.text(" paths ");
    answer.number(note.paths);
}

fn told_notes(notes: &NotedJobs, answer: &mut Answer) {
    answer.text("notes");
    for note in notes.get() {
        push_note(note, answer);
    }
}

fn told_back(back: &Back, answer: &mut Answer) {
    told_puts(&back.puts, answer);
    answer.field("db ");
    push_db(&back.db, answer);
}

fn notes_of(alloc: Global, disk: &mut Quiet) -> Result<NotedJobs, Stop> {
    let db = database_of(alloc, disk)?;
    all(alloc, disk, &db)
}

/// `all FAILS TREE`: what the jobs of the root changed.
pub fn all_jobs(line: &mut Line, answer: &mut Answer) {
    if let Some(mut disk) = root_of(line) {
        answer.outcome(notes_of(answer.alloc(), &mut disk), told_notes);
    }
}

fn back_of(alloc: Global, disk: &mut Quiet, number: u32) -> Result<Back, Stop> {
    let db = database_of(alloc, disk)?;
    inverse_to(alloc, disk, &db, number)
}

/// `back FAILS TREE NUMBER`: the writes that take all jobs down to this number back.
pub fn back_to(line: &mut Line, answer: &mut Answer) {
    if let Some(mut disk) = root_of(line) {
        answer.outcome(back_of(answer.alloc(), &mut disk, line.small(2)), told_back);
    }
}

// What comes before the write set of the newest job of the root, on the disk.
fn pushed_to(alloc: Global, root: &mut Quiet, disk: &mut Quiet) -> Result<Puts, Stop> {
    let db = database_of(alloc, root)?;
    let job = newest_job(alloc, root, &db)?;
    let entries = job.entries.get();
    stashable(alloc, entries)?;
    push_puts(alloc, disk, &job.before, job.names.as_slice(), entries, &db)
}

fn push_on(root: &mut Quiet, disk: &mut Quiet, answer: &mut Answer) {
    answer.outcome(pushed_to(answer.alloc(), root, disk), told_puts);
    answer.tab();
    told_nodes(&disk.tree, answer);
}

/// `push FAILS TREE ROOT`: the newest job of the root is prepared on the tree before it: the write of its record, and what stands
/// then.
pub fn push_job(line: &mut Line, answer: &mut Answer) {
    if let Some(mut disk) = root_of(line) {
        if let Some(mut root) = disk_of(line, 2, 0) {
            push_on(&mut root, &mut disk, answer);
        }
    }
}
