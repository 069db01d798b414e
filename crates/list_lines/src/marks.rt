//! Fingerprints of what stands in a tree and of what records want.
use crate::plans::on_disk;
use job_targets::cny_base::{Copies, Path, Stop};
use job_targets::trove_stream::{FileAt, Trove};
use line_words::tree_scan::{
    Finding, Findings, Found, Mark, Verified, are_same_marks, differing, mark_at, mark_file,
    matches,
};
use line_words::{Answer, Line};
use root_words::Quiet;
use std::alloc::Global;

// A fingerprint, of which a copy is the same.
fn copied(found: &Mark, answer: &mut Answer) {
    if let Some(copy) = answer.kept(found.copy()) {
        if found.is_same(&copy) {
            answer.mark(found);
        } else {
            answer.text("another copy");
        }
    }
}

fn marked(disk: &mut Quiet, line: &mut Line, answer: &mut Answer) {
    if let Some(path) = line.path(2) {
        answer.outcome(mark_at(line.alloc(), disk, &path), copied);
    }
}

/// `mark WORDS NODES PATH`: the fingerprint of what stands there.
pub fn mark(line: &mut Line, answer: &mut Answer) {
    on_disk(line, 1, answer, marked);
}

/// `mark_file MODE BYTES`: the fingerprint of a file.
pub fn file(line: &mut Line, answer: &mut Answer) {
    let bytes = line.bytes(1);
    answer.mark(&mark_file(line.mode(0), bytes));
}

fn told(holds: &bool, answer: &mut Answer) {
    answer.holds(*holds);
}

// The first record of a trove.
fn record(trove: &Option<Trove>) -> Option<&FileAt> {
    match trove {
        Some(trove) => trove.files().first(),
        None => None,
    }
}

fn matched(disk: &mut Quiet, line: &mut Line, answer: &mut Answer) {
    let trove = line.value::<Trove>(2);
    match record(&trove) {
        Some(file) => answer.outcome(matches(line.alloc(), disk, &file.path, &file.rec), told),
        None => line.unreadable(),
    }
}

/// `matches WORDS NODES TROVE`: whether what stands is as the trove's first record wants it.
pub fn is_recorded(line: &mut Line, answer: &mut Answer) {
    on_disk(line, 1, answer, matched);
}

/// `same TROVE TROVE`: whether the first records of both have one fingerprint.
pub fn are_same(line: &mut Line, answer: &mut Answer) {
    let one = line.value::<Trove>(0);
    let other = line.value::<Trove>(1);
    match (record(&one), record(&other)) {
        (Some(one), Some(other)) => answer.holds(are_same_marks(&one.rec, &other.rec)),
        _ => line.unreadable(),
    }
}

fn have_same_marks(
    alloc: Global,
    disk: &mut Quiet,
    one: &Path,
    other: &Path,
) -> Result<bool, Stop> {
    let mark = mark_at(alloc, disk, one)?;
    Ok(mark.is_same(&mark_at(alloc, disk, other)?))
}

fn compared(disk: &mut Quiet, line: &mut Line, answer: &mut Answer) {
    if let Some(one) = line.path(2) {
        if let Some(other) = line.path(3) {
            answer.outcome(have_same_marks(line.alloc(), disk, &one, &other), told);
        }
    }
}

/// `alike WORDS NODES PATH PATH`: whether what stands at both paths has one fingerprint.
pub fn alike(line: &mut Line, answer: &mut Answer) {
    on_disk(line, 1, answer, compared);
}

fn number(count: &u64, answer: &mut Answer) {
    answer.number(*count);
}

fn counted(disk: &mut Quiet, line: &mut Line, answer: &mut Answer) {
    let bytes = line.bytes(3);
    if let Some(path) = line.path(2) {
        answer.outcome(differing(line.alloc(), disk, &path, bytes), number);
    }
}

/// `differing WORDS NODES PATH BYTES`: in how many bytes the file there differs from these.
pub fn differing_bytes(line: &mut Line, answer: &mut Answer) {
    on_disk(line, 1, answer, counted);
}
