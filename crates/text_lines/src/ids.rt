//! Calls on ids of troves.
use line_words::Answer;
use line_words::cny_report::cny_base::{Bytes, OutOfMemory, TextFault};
use line_words::cny_report::trove_parts::{IdAt, TroveId, next_id, put_id, read_id};
use std::alloc::Global;

// The bytes of an id behind two others.
fn bytes_of(alloc: Global, id: &TroveId) -> Result<Bytes, OutOfMemory> {
    let mut bytes = Bytes::new(alloc, b"\xfe\x00")?;
    put_id(alloc, id, &mut bytes)?;
    Ok(bytes)
}

/// The id that a text is.
pub fn read(alloc: Global, text: &str) -> Result<TroveId, TextFault> {
    read_id(alloc, text)
}

/// The text of an id, its parts, and its bytes behind two others.
pub fn id(id: &TroveId, answer: &mut Answer) {
    answer.field("ok");
    answer.tab();
    answer.id(id);
    answer.field(id.name.text());
    answer.field(id.version.text());
    answer.field(id.flavor.text());
    let bytes = bytes_of(answer.alloc(), id);
    if let Some(bytes) = answer.kept(bytes) {
        answer.field_hex(bytes.get());
    }
}

fn found(found: &IdAt, answer: &mut Answer) {
    answer.field("ok");
    answer.tab();
    answer.id(&found.id);
    answer.field_number(found.to as u64);
}

/// `next_id` of bytes at a place.
pub fn next(bytes: &[u8], at: u64, answer: &mut Answer) {
    let at = at as usize;
    if at > bytes.len() {
        return answer.unreadable();
    }
    answer.outcome(next_id(answer.alloc(), bytes, at), found);
}
