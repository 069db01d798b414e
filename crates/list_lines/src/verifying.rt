//! Verifications of trees.
use crate::plans::on_disk;
use job_targets::cny_base::{Copies, Name, OutOfMemory, Path};
use line_words::cny_report::verified_text;
use line_words::tree_scan::{Finding, Findings, Found, Verified};
use line_words::{Answer, Line};
use root_edits::verify;
use root_words::{Quiet, far_of};
use std::alloc::Global;

// The lines of a verification, with a bar for each end of a line.
fn found(found: &Verified, answer: &mut Answer) {
    if let Some(text) = answer.kept(verified_text(answer.alloc(), found)) {
        answer.lines(text.get(), "|");
        answer.text("|");
    }
}

fn verified(disk: &mut Quiet, line: &mut Line, answer: &mut Answer) {
    let names = line.list::<Name>(3);
    let mut far = far_of(line, 4);
    if let Some(installed) = line.installed(2) {
        let verified = verify(line.alloc(), disk, &installed, &names, &mut far);
        answer.outcome(verified, found);
    }
}

/// `verify WORDS NODES TROVES NAMES CONTENTS`: what a verification of the named troves finds.
pub fn tree(line: &mut Line, answer: &mut Answer) {
    on_disk(line, 1, answer, verified);
}

// A copy of what a verification of one path found, where it is missing.
fn missing(alloc: Global, path: Path) -> Result<Verified, OutOfMemory> {
    let what = Found::Missing;
    let lines = Findings::new(vec![in alloc; Finding { path, what }]?);
    Verified { lines, paths: 1 }.copy()
}

fn told(copy: &Verified, answer: &mut Answer) {
    for one in copy.lines.get() {
        answer.text(one.path.text());
    }
    answer.text(" ");
    answer.number(copy.paths);
}

/// `verified PATH`: the path of what a copy of a verification tells, and how many paths it looked at.
pub fn copy(line: &mut Line, answer: &mut Answer) {
    if let Some(path) = line.path(0) {
        answer.outcome(missing(line.alloc(), path), told);
    }
}
