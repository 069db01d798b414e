//! Calls on relative troves.
use crate::again::{copy_of, push_again, push_digests};
use crate::elements::{elements, push_list};
use line_words::cny_report::cny_base::{Paths, TextFault};
use line_words::cny_report::trove_parts::TroveId;
use line_words::cny_report::trove_stream::{
    Deps, Files, Refs, RelParts, RelTrove, decode_rel, decode_rel_full,
};
use line_words::{Answer, Line};

// The ids of a relative trove, and what it does.
fn push_relative(answer: &mut Answer, parts: &RelParts) {
    answer.id(&parts.old);
    answer.text("\t");
    answer.id(&parts.fresh);
    push_list(answer, parts.paths_gone.get());
    push_list(answer, parts.files_set.get());
    push_list(answer, parts.refs_gone.get());
    push_list(answer, parts.refs_added.get());
    push_list(answer, parts.requires_gone.get());
    push_list(answer, parts.requires_added.get());
    push_list(answer, parts.provides_gone.get());
    push_list(answer, parts.provides_added.get());
}

// What was read, made again of its parts.
fn made_again(read: Result<RelTrove, TextFault>) -> Result<RelTrove, TextFault> {
    match read {
        Ok(rel) => RelTrove::make(rel.into_parts()),
        Err(fault) => Err(fault),
    }
}

/// `decode_rel` of bytes, or `decode_rel_full`: the relative trove, and how a copy of it, made again of its parts, is written.
pub fn relative(answer: &mut Answer, full: bool, bytes: &[u8]) {
    let read = if full {
        decode_rel_full(answer.alloc(), bytes)
    } else {
        decode_rel(answer.alloc(), bytes)
    };
    if let Some(rel) = answer.given(made_again(copy_of(read))) {
        push_relative(answer, rel.parts());
        push_again(answer, full, &rel, bytes);
    }
}

// Items of paths gone, files set, references, requirements and provides, in any order.
fn parts_of(answer: &mut Answer, old: TroveId, fresh: TroveId, line: &mut Line) -> RelParts {
    RelParts {
        old,
        fresh,
        paths_gone: Paths::new(elements(answer, line.bytes(2), 0x23)),
        files_set: Files::new(elements(answer, line.bytes(3), 0x24)),
        refs_gone: Refs::new(elements(answer, line.bytes(4), 0x25)),
        refs_added: Refs::new(elements(answer, line.bytes(5), 0x26)),
        requires_gone: Deps::new(elements(answer, line.bytes(6), 0x27)),
        requires_added: Deps::new(elements(answer, line.bytes(7), 0x28)),
        provides_gone: Deps::new(elements(answer, line.bytes(8), 0x29)),
        provides_added: Deps::new(elements(answer, line.bytes(9), 0x2a)),
    }
}

fn push_made(rel: &RelTrove, answer: &mut Answer) {
    push_relative(answer, rel.parts());
    push_digests(answer, rel);
}

/// `RelTrove::make` of the texts of two ids and of items: the relative trove, and the digests of its two streams behind
/// an `x`.
pub fn make(answer: &mut Answer, line: &mut Line) {
    if let Some(old) = line.value::<TroveId>(0) {
        if let Some(fresh) = line.value::<TroveId>(1) {
            let parts = parts_of(answer, old, fresh, line);
            answer.outcome(RelTrove::make(parts), push_made);
        }
    }
}
