//! Entries of a line: what a job found at its paths, and the fingerprints of what it left. An entry is `NODE PATH|MARK`, where NODE is
//! a node of a tree or `nothing`; entries have a semicolon between two. And the writes of a job.
use job_targets::journal_log::{Puts, Want};
use job_targets::{Entries, Entry};
use line_words::{Answer, Line};
use root_words::placed_want;

fn entry_of(line: &mut Line, raw: &str) -> Option<Entry> {
    let (node, mark) = raw.split_once('|').unwrap_or((raw, ""));
    let (path, was) = placed_want(line, node)?;
    let mark = line.mark_of(mark);
    Some(Entry { path, was, mark })
}

/// The entries of a part of a line; none for an empty text.
pub fn entries_of(line: &mut Line, raw: &str) -> Entries {
    Entries::new(line.each(raw, entry_of))
}

/// Tells what is to stand, or that its bytes are staged.
pub fn told_want(want: &Want, answer: &mut Answer) {
    match want {
        Want::Nothing => answer.text("nothing"),
        Want::Dir { mode } => answer.dir(*mode),
        Want::File { mode, bytes } => answer.file(*mode, bytes.get()),
        Want::Link { target } => answer.link(target.text()),
        Want::Staged { .. } => answer.text("staged"),
    }
}

/// Tells writes.
pub fn told_puts(puts: &Puts, answer: &mut Answer) {
    answer.text("puts");
    for put in puts.get() {
        answer.text("; ");
        told_want(&put.want, answer);
        answer.texts(&[" ", put.path.text()]);
    }
}
