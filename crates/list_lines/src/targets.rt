//! Write sets of plans.
use crate::plans::{disk_at, plan_of};
use conflict_plan::{Planned, PlannedList};
use job_targets::journal_log::{Put, Want};
use job_targets::{Entry, Targets, are_rising, mark_of, targets_of};
use line_words::{Answer, Line};
use root_words::{Quiet, are_in_order, carried_of, disk_of, far_of};

// A number of the first 4,096 bytes that other bytes of the same SHA-1 hardly have.
fn checksum(bytes: &[u8]) -> u32 {
    let mut sum = 0_u32;
    for byte in bytes.iter().take(4096) {
        sum = sum.wrapping_mul(31).wrapping_add(u32::from(*byte));
    }
    sum
}

// What stands or is to stand: its fingerprint, and of a file the checksum of its bytes.
fn want(want: &Want, answer: &mut Answer) {
    if let Some(mark) = answer.kept(mark_of(want)) {
        answer.mark(&mark);
    }
    match want {
        Want::File { bytes, .. } => {
            answer.text(" ");
            answer.number(u64::from(checksum(bytes.get())));
        }
        Want::Staged { .. } => answer.text(" staged"),
        _ => {}
    }
}

// `PATH: WAS -> WANT (MARK)`, where both are of one path.
fn target(put: &Put, entry: &Entry, answer: &mut Answer) {
    answer.field(put.path.text());
    if put.path.text() != entry.path.text() {
        answer.text(" apart from ");
        answer.text(entry.path.text());
    }
    answer.text(": ");
    want(&entry.was, answer);
    answer.text(" -> ");
    want(&put.want, answer);
    answer.text(" (");
    answer.mark(&entry.mark);
    answer.text(")");
}

fn targets(made: &Targets, answer: &mut Answer) {
    if made.puts.get().len() != made.entries.get().len() {
        answer.text("apart");
    }
    answer.text("ok");
    for (put, entry) in made.puts.get().iter().zip(made.entries.get()) {
        target(put, entry, answer);
    }
}

// A copy of a write set, and how often the contents and files were asked for.
fn told(made: &Targets, finds: u64, files: u64, answer: &mut Answer) {
    answer.copied(made, targets);
    answer.tab();
    answer.number(finds);
    answer.text(" finds, ");
    answer.number(files);
    answer.text(" files");
}

// The write set of changes, with the contents of the sixth and the seventh argument.
fn make(disk: &mut Quiet, planned: &[Planned], line: &mut Line, answer: &mut Answer) {
    let carried = carried_of(line, 5);
    let mut far = far_of(line, 6);
    if !are_rising(planned) || !are_in_order(&carried) {
        return line.unreadable();
    }
    let made = targets_of(line.alloc(), disk, planned, &carried, &mut far);
    if let Some(made) = answer.given(made) {
        told(&made, far.finds, disk.looks, answer);
    }
}

// The write set of a plan, where the tree of the fifth argument stands, or still that of the second one.
fn made(list: &PlannedList, line: &mut Line, answer: &mut Answer) {
    let place = if line.raw(4) == "=" { 1 } else { 4 };
    if let Some(mut disk) = disk_at(line, place) {
        make(&mut disk, list.get(), line, answer);
    }
}

fn between(disk: &mut Quiet, line: &mut Line, answer: &mut Answer) {
    if let Some(list) = plan_of(disk, line, answer) {
        made(&list, line, answer);
    }
}

/// `targets WORDS NODES OLD NEW NOW CARRIED FAR`: the write set of the plan that leads from some troves to others over the nodes, where
/// `NOW` stands, or the nodes still for an equals sign. Of the words, `fail` makes the first call of the disk fail that stands now, and
/// the others are those of `plan`.
pub fn of_plan(line: &mut Line, answer: &mut Answer) {
    if let Some(mut disk) = disk_of(line, 1, 0) {
        between(&mut disk, line, answer);
    }
}
