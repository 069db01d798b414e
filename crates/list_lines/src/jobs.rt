//! What updates and erasures make of installed lists.
use dep_closure::closed;
use job_targets::cny_base::{Bytes, Fault, Name};
use job_targets::trove_stream::{Installed, Trove, encode_full};
use line_words::{Answer, Line, Value};
use std::alloc::Global;
use update_job::{Change, Changes, changed, erased, updated};

// The id of a trove, and the digest of its stream in the explicit encoding: of all that it holds.
fn trove(trove: &Trove, answer: &mut Answer) {
    let mut stream = Bytes::from_vec(Vec::new(answer.alloc()));
    answer.kept(encode_full(answer.alloc(), trove, &mut stream));
    answer.tab();
    answer.id(trove.id());
    answer.text(" ");
    answer.sha1(stream.get());
}

/// `ok` and a field for each trove.
pub fn listed(list: &Installed, answer: &mut Answer) {
    answer.each(list.troves(), trove);
}

// Tells what a call makes of the installed list of the first argument by the list of the second.
fn made_by<
    T: Value,
    C: FnOnce(Global, &Installed, &[T]) -> Result<Installed, Fault>,
    F: FnOnce(&Installed, &mut Answer),
>(line: &mut Line, answer: &mut Answer, call: C, tell: F)
    requires call { C.IsAlwaysCallable call }
    requires tell { F.IsAlwaysCallable tell }
{
    let list = line.list::<T>(1);
    if let Some(installed) = line.installed(0) {
        answer.outcome(call(line.alloc(), &installed, &list), tell);
    }
}

fn with(alloc: Global, installed: &Installed, come: &[Trove]) -> Result<Installed, Fault> {
    updated(alloc, installed, come)
}

fn without(alloc: Global, installed: &Installed, names: &[Name]) -> Result<Installed, Fault> {
    erased(alloc, installed, names)
}

/// `updated TROVES COME`: the list that an update makes of an installed one.
pub fn update(line: &mut Line, answer: &mut Answer) {
    made_by(line, answer, with, listed);
}

/// `erased TROVES NAMES`: the list that an erasure makes of an installed one.
pub fn erase(line: &mut Line, answer: &mut Answer) {
    made_by(line, answer, without, listed);
}

// The word of a change and the text of its id.
fn change(change: &Change, answer: &mut Answer) {
    let (word, id) = match change {
        Change::Installed(id) => ("installed ", id),
        Change::Updated(id) => ("updated ", id),
        Change::Erased(id) => ("erased ", id),
    };
    answer.field(word);
    answer.id(id);
}

fn changes(found: &Changes, answer: &mut Answer) {
    answer.each(found.get(), change);
}

/// `changed TROVES TROVES`: what changes from one installed list to another.
pub fn compare(line: &mut Line, answer: &mut Answer) {
    if let Some(before) = line.installed(0) {
        if let Some(after) = line.installed(1) {
            answer.outcome(changed(line.alloc(), &before, &after), changes);
        }
    }
}

fn tested(list: &Installed, answer: &mut Answer) {
    answer.done(closed(answer.alloc(), list.troves()));
}

/// `closed_without TROVES NAMES`: whether the list that an erasure leaves is closed.
pub fn close_without(line: &mut Line, answer: &mut Answer) {
    made_by(line, answer, without, tested);
}
