//! Damaged bytes: what readers answer for all beginnings of some bytes, and for other values of a byte.
use crate::manifests::manifest;
use line_words::Answer;
use line_words::cny_report::change_set;
use line_words::cny_report::cny_stream::{Encoding, decode_as};
use line_words::cny_report::trove_stream::{decode, decode_full, decode_rel, decode_rel_full};
use std::alloc::Global;

// A longer text of a manifest is told by its digest.
const LONGEST: usize = 40;

// What the reader of this kind of bytes answers.
fn answer_of(alloc: Global, kind: &str, bytes: &[u8]) -> Answer {
    let mut answer = Answer::new(alloc);
    match kind {
        "record" => answer.done(decode_as(alloc, Encoding::Compact, bytes)),
        "record_full" => answer.done(decode_as(alloc, Encoding::Explicit, bytes)),
        "trove" => answer.done(decode(alloc, bytes)),
        "trove_full" => answer.done(decode_full(alloc, bytes)),
        "relative" => answer.done(decode_rel(alloc, bytes)),
        "relative_full" => answer.done(decode_rel_full(alloc, bytes)),
        "set" => answer.done(change_set::decode(alloc, bytes)),
        "manifest" => manifest(&mut answer, bytes, LONGEST),
        _ => answer.unreadable(),
    }
    answer
}

// Whether the first of these answers is the last of a run of equal ones.
fn ends_run(given: &[Answer]) -> bool {
    match given {
        [first, next, ..] => first.get() != next.get(),
        _ => true,
    }
}

// The runs of equal answers: the lowest and the highest number, and the answer.
fn push_runs(answer: &mut Answer, given: &[Answer]) {
    let mut low = 0;
    for number in 0..given.len() {
        if ends_run(&given[number..]) {
            answer.formatted(format!(in answer.alloc(); "{low}..{number}: "));
            answer.add(&given[number]);
            answer.text("; ");
            low = number + 1;
        }
    }
}

// Adds what the reader of a kind answers.
fn add(answer: &mut Answer, given: &mut Vec<Answer>, kind: &str, bytes: &[u8]) {
    answer.kept(given.push(answer_of(answer.alloc(), kind, bytes)));
}

/// What the reader of a kind answers for each beginning of these bytes, the whole of them too.
pub fn beginnings(answer: &mut Answer, kind: &str, bytes: &[u8]) {
    let mut given = Vec::new(answer.alloc());
    for len in 0..=bytes.len() {
        add(answer, &mut given, kind, &bytes[..len]);
    }
    push_runs(answer, given.as_slice());
}

// The same where the byte at a place has another value.
fn add_changed(
    answer: &mut Answer,
    given: &mut Vec<Answer>,
    kind: &str,
    bytes: &[u8],
    place: usize,
    value: u8,
) {
    if let Some(mut bytes) = answer.kept(Vec::from_slice(answer.alloc(), bytes)) {
        if let Some(byte) = bytes.get_mut(place) {
            *byte = value;
        }
        add(answer, given, kind, bytes.as_slice());
    }
}

/// What the reader of a kind answers for each value of the byte at a place.
pub fn changes(answer: &mut Answer, kind: &str, bytes: &[u8], place: usize) {
    let mut given = Vec::new(answer.alloc());
    for value in 0..=u8::MAX {
        add_changed(answer, &mut given, kind, bytes, place, value);
    }
    push_runs(answer, given.as_slice());
}

/// What the reader of a kind answers for each place of bytes at which the byte has one of these values.
pub fn changes_to(answer: &mut Answer, kind: &str, bytes: &[u8], values: &[u8]) {
    let mut given = Vec::new(answer.alloc());
    for value in values {
        for place in 0..bytes.len() {
            add_changed(answer, &mut given, kind, bytes, place, *value);
        }
    }
    push_runs(answer, given.as_slice());
}
