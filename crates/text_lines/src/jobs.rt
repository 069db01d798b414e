//! Calls on the texts of jobs and of verifications.
use crate::troves::told;
use line_words::cny_report::cny_base::Path;
use line_words::cny_report::trove_parts::TroveId;
use line_words::cny_report::{Note, changes_text, rolled_back_text, undos_text, verified_text};
use line_words::tree_scan::{Finding, Findings, Found, Verified};
use line_words::{Answer, Line};
use update_job::{Change, Changes};

// The change that a part tells: `+`, `~` or `-`, and the text of an id.
fn change_of(line: &mut Line, raw: &str) -> Option<Change> {
    if let Some(id) = raw.strip_prefix('+') {
        return Some(Change::Installed(line.part(id)?));
    }
    if let Some(id) = raw.strip_prefix('~') {
        return Some(Change::Updated(line.part(id)?));
    }
    match raw.strip_prefix('-') {
        Some(id) => Some(Change::Erased(line.part(id)?)),
        None => None,
    }
}

/// `changes_text` of changes.
pub fn changes(line: &mut Line, answer: &mut Answer) {
    let changes = line.each_from(0, change_of);
    told(changes_text(answer.alloc(), &changes), answer);
}

// The job that a part tells: its number, how many paths it changed and its changes, with a bar between two.
fn note_of(line: &mut Line, raw: &str) -> Option<Note> {
    let (number, rest) = raw.split_once('|')?;
    let (paths, changes) = rest.split_once('|')?;
    Some(Note {
        number: line.part(number)?,
        paths: line.part(paths)?,
        changes: Changes::new(line.each(changes, change_of)),
    })
}

/// `undos_text` of jobs.
pub fn undos(line: &mut Line, answer: &mut Answer) {
    let notes = line.each_from(0, note_of);
    told(undos_text(answer.alloc(), &notes), answer);
}

/// `rolled_back_text` of a number and how many jobs were rolled back.
pub fn rolled_back(newest: u32, count: u32, answer: &mut Answer) {
    if count > newest {
        return answer.unreadable();
    }
    told(rolled_back_text(answer.alloc(), newest, count), answer);
}

fn found_of(line: &mut Line, word: &str) -> Option<Found> {
    match word {
        "missing" => Some(Found::Missing),
        "changed" => Some(Found::Changed),
        digits => Some(Found::Bytes(line.part(digits)?)),
    }
}

// What a part tells: `missing`, `changed` or in how many bytes, a space, and the path.
fn finding_of(line: &mut Line, raw: &str) -> Option<Finding> {
    let (word, path) = raw.split_once(' ')?;
    let path: Path = line.part(path)?;
    let what = found_of(line, word)?;
    Some(Finding { what, path })
}

/// `verified_text` of how many paths were looked at, and of findings.
pub fn verified(line: &mut Line, answer: &mut Answer) {
    let verified = Verified {
        paths: line.number(0),
        lines: Findings::new(line.each_from(1, finding_of)),
    };
    told(verified_text(answer.alloc(), &verified), answer);
}
