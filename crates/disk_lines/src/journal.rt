//! Whole runs of the journal, with each call that they make of the disk.
use crate::disk::told_holds;
use crate::puts::puts;
use crate::runs::base_path;
use crate::traced::Traced;
use line_words::{Answer, Line, Stop};
use root_words::tree_memory::cny_base::{Path, Stop as DiskEnd};
use root_words::{disk_of, told_nodes};
use std::alloc::Global;
use tree_journal::journal_log::Puts;
use tree_journal::{apply, recover};

// The calls that were made of the disk, and what it reads after them.
fn push_disk(disk: &Traced, answer: &mut Answer) {
    answer.tab();
    answer.add(&disk.calls);
    answer.tab();
    told_nodes(&disk.inner.tree, answer);
}

// The disk of the first argument, of which the call fails that the last one numbers.
fn traced_of(line: &mut Line) -> Option<Traced> {
    let failing = line.number(2);
    let inner = disk_of(line, 0, failing)?;
    Some(Traced::new(line.alloc(), inner))
}

fn apply_to(alloc: Global, disk: &mut Traced, puts: &Puts) -> Result<Result<(), DiskEnd>, Stop> {
    let base = base_path(alloc)?;
    Ok(apply(alloc, disk, &base, puts))
}

fn push_applied(disk: &mut Traced, puts: &Puts, answer: &mut Answer) {
    let done = apply_to(answer.alloc(), disk, puts);
    if let Some(done) = answer.kept(done) {
        answer.done(done);
    }
    push_disk(disk, answer);
}

/// `apply TREE PUTS CALL`: the application of a write set; the call of this number fails.
pub fn applied(line: &mut Line, answer: &mut Answer) {
    if let Some(mut disk) = traced_of(line) {
        if let Some(puts) = puts(line, 1) {
            push_applied(&mut disk, &puts, answer);
        }
    }
}

fn push_recovered(disk: &mut Traced, base: &Path, answer: &mut Answer) {
    answer.outcome(recover(answer.alloc(), disk, base), told_holds);
    push_disk(disk, answer);
}

/// `recover TREE BASE CALL`: a recovery, and whether it found the commit flag set; the call of this number fails.
pub fn recovered(line: &mut Line, answer: &mut Answer) {
    if let Some(mut disk) = traced_of(line) {
        if let Some(base) = line.path(1) {
            push_recovered(&mut disk, &base, answer);
        }
    }
}
