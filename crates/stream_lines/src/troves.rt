//! Calls on troves.
use crate::again::{copy_of, push_again, push_digests, push_lines};
use crate::elements::{elements, push_list};
use line_words::cny_report::cny_base::TextFault;
use line_words::cny_report::trove_parts::TroveId;
use line_words::cny_report::trove_stream::{Deps, Files, Refs, Trove, check, decode, decode_full};
use line_words::cny_report::troves_text;
use line_words::{Answer, Line};

// The id and the lists of a trove.
fn push_trove(answer: &mut Answer, trove: &Trove) {
    answer.id(trove.id());
    push_list(answer, trove.files());
    push_list(answer, trove.refs());
    push_list(answer, trove.requires_());
    push_list(answer, trove.provides());
}

/// `decode` of bytes, or `decode_full`: the trove, and how a copy of it is written again.
pub fn trove(answer: &mut Answer, full: bool, bytes: &[u8]) {
    let read = if full {
        decode_full(answer.alloc(), bytes)
    } else {
        decode(answer.alloc(), bytes)
    };
    if let Some(trove) = answer.given(copy_of(read)) {
        push_trove(answer, &trove);
        push_again(answer, full, &trove, bytes);
    }
}

// Items of files, references, requirements and provides, in any order.
fn trove_of(answer: &mut Answer, id: TroveId, line: &mut Line) -> Option<Trove> {
    let files = Files::new(elements(answer, line.bytes(1), 4));
    let refs = Refs::new(elements(answer, line.bytes(2), 5));
    let required = Deps::new(elements(answer, line.bytes(3), 6));
    let provided = Deps::new(elements(answer, line.bytes(4), 7));
    answer.given(Trove::make(id, files, refs, required, provided))
}

// The trove, and the digests of its two streams behind an `x`.
fn push_made(trove: &Trove, answer: &mut Answer) {
    push_trove(answer, trove);
    push_digests(answer, trove);
}

fn made_again(trove: Trove) -> Result<Trove, TextFault> {
    let parts = trove.into_parts();
    Trove::make(
        parts.id,
        parts.files,
        parts.refs,
        parts.requires_,
        parts.provides,
    )
}

/// `Trove::make` of the text of an id, and of items of files, references, requirements and provides in any order: the trove,
/// made again of its parts, and the digests of its two streams behind an `x`.
pub fn make(answer: &mut Answer, line: &mut Line) {
    if let Some(id) = line.value::<TroveId>(0) {
        if let Some(trove) = trove_of(answer, id, line) {
            answer.outcome(made_again(trove), push_made);
        }
    }
}

/// `check` of the trove with this stream.
pub fn checked(trove: &Trove, answer: &mut Answer) {
    answer.done(check(answer.alloc(), trove));
}

/// `troves_text` of the troves with these streams.
pub fn text(answer: &mut Answer, line: &mut Line) {
    let troves = line.rest::<Trove>(0);
    if let Some(text) = answer.kept(troves_text(answer.alloc(), &troves)) {
        push_lines(answer, text.get());
    }
}
