//! Calls of what leads from a trove to another, and of what comes with a change set. Where an argument is no stream of its kind,
//! or two troves are no such pair, the answer is `unreadable`.

use crate::again::{behind, push_shown, push_stream};
use change_rel::{apply, relative, to_send};
use line_words::Answer;
use line_words::cny_report::change_set::{ChangeSet, Part, decode as decode_set};
use line_words::cny_report::cny_base::{Copies, Fault, TextFault};
use line_words::cny_report::trove_stream::{
    Installed, RelTrove, Trove, Troves, decode, decode_rel,
};
use update_job::{applied, check_allowed};

// So many bytes at most are answered by their digits, and more by their number and their SHA-1.
const MOST_SHOWN: usize = 400;

// What was read.
fn readable<T: Drop>(answer: &mut Answer, read: Result<T, TextFault>) -> Option<T> {
    if let Err(TextFault::Bad) = read {
        answer.text("unreadable");
        return None;
    }
    answer.kept(read)
}

// The trove with this stream.
fn trove_of(answer: &mut Answer, bytes: &[u8]) -> Option<Trove> {
    readable(answer, decode(answer.alloc(), bytes))
}

fn push_trove(trove: &Trove, answer: &mut Answer) {
    push_stream(answer, trove, MOST_SHOWN);
}

// What a relative trove makes of a trove, or the refusal.
fn push_applied(answer: &mut Answer, old: &Trove, rel: &RelTrove) {
    answer.outcome(apply(answer.alloc(), old, rel), push_trove);
}

/// What is asked of two troves.
#[derive(Clone, Copy)]
pub enum Asked {
    /// The stream of `relative`.
    Relative,
    /// The stream of what `apply` makes of the first by what `relative` gives.
    Round,
    /// What `to_send` gives.
    Sent,
}

// The relative trove between two of one name and two ids.
fn between(answer: &mut Answer, old: &Trove, fresh: &Trove) -> Option<RelTrove> {
    old.id().is_valid();
    fresh.id().is_valid();
    if old.id().name != fresh.id().name || old.id() == fresh.id() {
        answer.text("unreadable");
        return None;
    }
    answer.kept(relative(answer.alloc(), old, fresh))
}

// The number of the names that `to_send` gives, and the names one behind the other.
fn push_sent(answer: &mut Answer, old: Option<&Trove>, fresh: &Trove) {
    if let Some(names) = answer.kept(to_send(answer.alloc(), old, fresh)) {
        let mut out = behind(answer, b"");
        for name in names.get() {
            answer.kept(out.push_slice(name.as_slice()));
        }
        answer.number(names.get().len() as u64);
        answer.text(" ");
        push_shown(answer, out.get(), MOST_SHOWN);
    }
}

fn push_between(answer: &mut Answer, asked: Asked, old: &Trove, fresh: &Trove) {
    if let Asked::Sent = asked {
        push_sent(answer, Some(old), fresh);
    } else if let Some(rel) = between(answer, old, fresh) {
        match asked {
            Asked::Relative => push_stream(answer, &rel, MOST_SHOWN),
            _ => push_applied(answer, old, &rel),
        }
    }
}

/// What is asked of the troves with these streams.
pub fn of_two(answer: &mut Answer, asked: Asked, old: &[u8], fresh: &[u8]) {
    if let Some(old) = trove_of(answer, old) {
        if let Some(fresh) = trove_of(answer, fresh) {
            push_between(answer, asked, &old, &fresh);
        }
    }
}

/// What `to_send` gives of the trove with this stream where there is no old one.
pub fn of_new(answer: &mut Answer, fresh: &[u8]) {
    if let Some(fresh) = trove_of(answer, fresh) {
        push_sent(answer, None, &fresh);
    }
}

/// The stream of what `apply` makes of a trove, or the refusal.
pub fn of_relative(answer: &mut Answer, old: &[u8], rel: &[u8]) {
    if let Some(old) = trove_of(answer, old) {
        if let Some(rel) = readable(answer, decode_rel(answer.alloc(), rel)) {
            push_applied(answer, &old, &rel);
        }
    }
}

// ---- troves that come with a change set

fn set_of(answer: &mut Answer, bytes: &[u8]) -> Option<ChangeSet> {
    match decode_set(answer.alloc(), bytes) {
        Ok(set) => Some(set),
        Err(Fault::Refused(_)) => {
            answer.text("unreadable");
            None
        }
        Err(Fault::Memory) => {
            answer.memory();
            None
        }
    }
}

// Adds a copy of a whole trove; false for a relative one.
fn add_whole(answer: &mut Answer, troves: &mut Vec<Trove>, part: &Part) -> bool {
    if let Part::Whole(trove) = part {
        if let Some(trove) = answer.kept(trove.copy()) {
            answer.kept(troves.push(trove));
        }
        return true;
    }
    false
}

// The troves of a change set that has no relative ones.
fn whole_of(answer: &mut Answer, parts: &[Part]) -> Option<Vec<Trove>> {
    let mut troves = Vec::new(answer.alloc());
    for part in parts {
        if !add_whole(answer, &mut troves, part) {
            answer.text("unreadable");
            return None;
        }
    }
    Some(troves)
}

fn wholes_of(answer: &mut Answer, bytes: &[u8]) -> Option<Vec<Trove>> {
    match set_of(answer, bytes) {
        Some(set) => whole_of(answer, set.parts.get()),
        None => None,
    }
}

fn installed_of(answer: &mut Answer, bytes: &[u8]) -> Option<Installed> {
    let troves = wholes_of(answer, bytes)?;
    let installed = Installed::new(troves);
    if installed.is_none() {
        answer.text("unreadable");
    }
    installed
}

// The number of the troves, and the stream of each.
fn push_troves(troves: &Troves, answer: &mut Answer) {
    answer.number(troves.get().len() as u64);
    for trove in troves.get() {
        answer.text(" ");
        push_trove(trove, answer);
    }
}

/// The streams of what `applied` makes of the troves of a change set, which are the installed ones, by the parts of another,
/// or the refusal.
pub fn over_installed(answer: &mut Answer, installed: &[u8], change: &[u8]) {
    if let Some(installed) = installed_of(answer, installed) {
        if let Some(change) = set_of(answer, change) {
            let parts = change.parts.get();
            answer.outcome(applied(answer.alloc(), &installed, parts), push_troves);
        }
    }
}

/// What `check_allowed` answers of the troves of a change set.
pub fn allowed(answer: &mut Answer, change: &[u8]) {
    if let Some(troves) = wholes_of(answer, change) {
        answer.done(check_allowed(answer.alloc(), troves.as_slice()));
    }
}
