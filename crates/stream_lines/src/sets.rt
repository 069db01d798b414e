//! Calls on change sets.
ghost use Rattle.std.specs.Prelude.{◌≡◌, [], IfOk};
ghost use Rattle.line_words.specs.cny-report.change-set.ChangeSet.{HasContents};

use crate::again::{behind, push_compared, push_lines};
use line_words::cny_report::change_set::{CarriedList, ChangeSet, Parts, decode, encode};
use line_words::cny_report::change_text;
use line_words::cny_report::cny_base::{Bytes, Copies, Fault};
use line_words::{Answer, Line, Why};
use std::alloc::Global;

fn copied(alloc: Global, bytes: &[u8]) -> Result<ChangeSet, Fault>
    ensures { IfOk result HasContents }
{
    Ok(decode(alloc, bytes)?.copy()?)
}

// The description of a change set.
fn push_text(answer: &mut Answer, set: &ChangeSet) {
    answer.text("ok\t");
    if let Some(text) = answer.kept(change_text(answer.alloc(), set)) {
        push_lines(answer, text.get());
    }
}

// How a change set is written again.
fn push_again(answer: &mut Answer, again: &Bytes, wanted: &[u8]) {
    let mut out = behind(answer, b"x");
    answer.kept(out.push_slice(again.get()));
    push_compared(answer, out.get(), wanted);
}

fn push_set(answer: &mut Answer, set: &ChangeSet, bytes: &[u8])
    requires { HasContents set.now }
{
    if let Some(again) = answer.given(encode(answer.alloc(), set)) {
        push_text(answer, set);
        push_again(answer, &again, bytes);
    }
}

/// `decode` of bytes: the change set's description, and how a copy of it is written again; or the refusal.
pub fn set(answer: &mut Answer, bytes: &[u8]) {
    match copied(answer.alloc(), bytes) {
        Ok(set) => push_set(answer, &set, bytes),
        Err(fault) => fault.tell(answer),
    }
}

// The parts of the change sets with these streams, without contents.
fn parts_of(alloc: Global, streams: &[Bytes]) -> Result<ChangeSet, Fault>
    ensures { IfOk result (λ set. set.contents ≡ []) }
{
    let mut parts = Vec::new(alloc);
    for stream in streams {
        let set = decode(alloc, stream.get())?;
        for part in set.parts.get() {
            parts.push(part.copy()?)?;
        }
    }
    Ok(ChangeSet {
        parts: Parts::new(parts),
        contents: CarriedList::new(Vec::new(alloc)),
    })
}

fn joined_bytes(alloc: Global, streams: &[Bytes]) -> Result<Bytes, Fault> {
    let set = parts_of(alloc, streams)?;
    encode(alloc, &set)
}

fn push_digest(bytes: &Bytes, answer: &mut Answer) {
    answer.digest(bytes.get());
}

/// `encode` of the parts of change sets: the digest of the stream, or the refusal.
pub fn joined(answer: &mut Answer, line: &mut Line) {
    let streams = line.rest::<Bytes>(0);
    answer.outcome(joined_bytes(answer.alloc(), &streams), push_digest);
}
