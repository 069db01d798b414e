//! What calls have in common that read something, show it, and write it again.
use line_words::Answer;
use line_words::cny_report::cny_base::{Bytes, Copies, OutOfMemory, TextFault};
use line_words::cny_report::trove_stream::{
    RelTrove, Trove, encode, encode_full, encode_rel, encode_rel_full,
};
use std::alloc::Global;

/// A copy of what was read.
pub fn copy_of<T: Copies>(read: Result<T, TextFault>) -> Result<T, TextFault> {
    match read {
        Ok(value) => Ok(value.copy()?),
        Err(fault) => Err(fault),
    }
}

/// Appends the digits of bytes, or of more than so many their digest.
pub fn push_shown(answer: &mut Answer, bytes: &[u8], most: usize) {
    if bytes.len() > most {
        answer.digest(bytes);
    } else {
        answer.hex(bytes);
    }
}

/// What something is written behind.
pub fn behind(answer: &mut Answer, front: &[u8]) -> Bytes {
    let mut out = Bytes::from_vec(Vec::new(answer.alloc()));
    answer.kept(out.push_slice(front));
    out
}

/// Appends a field: `same` where what was written behind an `x` are the wanted bytes, and otherwise the digits of all that
/// stands there.
pub fn push_compared(answer: &mut Answer, written: &[u8], wanted: &[u8]) {
    answer.tab();
    match written {
        [b'x', rest @ ..] if rest == wanted => answer.text("same"),
        _ => answer.hex(written),
    }
}

/// Appends a text of lines on one line: with `|` for each line feed, or its digest where it is long.
pub fn push_lines(answer: &mut Answer, text: &str) {
    if text.len() > 1_000 {
        answer.digest(text.as_bytes());
    } else {
        answer.lines(text, "|");
    }
}

// ---- troves and relative troves

/// What has a stream in the compact encoding, and one in the explicit encoding, which is the full one.
pub trait Stream {
    /// Appends the stream.
    fn put(&self, alloc: Global, full: bool, out: &mut Bytes) -> Result<(), OutOfMemory>;
}

impl Stream for Trove {
    fn put(&self, alloc: Global, full: bool, out: &mut Bytes) -> Result<(), OutOfMemory> {
        if full {
            encode_full(alloc, self, out)
        } else {
            encode(alloc, self, out)
        }
    }
}

impl Stream for RelTrove {
    fn put(&self, alloc: Global, full: bool, out: &mut Bytes) -> Result<(), OutOfMemory> {
        if full {
            encode_rel_full(alloc, self, out)
        } else {
            encode_rel(alloc, self, out)
        }
    }
}

// The stream behind an `x`.
fn written<S: Stream>(answer: &mut Answer, full: bool, value: &S) -> Bytes {
    let mut out = behind(answer, b"x");
    answer.kept(value.put(answer.alloc(), full, &mut out));
    out
}

/// Appends a field: whether a value is written as these bytes.
pub fn push_again<S: Stream>(answer: &mut Answer, full: bool, value: &S, wanted: &[u8]) {
    let out = written(answer, full, value);
    push_compared(answer, out.get(), wanted);
}

/// Appends the digests of both streams, each behind an `x`, as fields.
pub fn push_digests<S: Stream>(answer: &mut Answer, value: &S) {
    for full in [false, true] {
        let out = written(answer, full, value);
        answer.text("\t");
        answer.digest(out.get());
    }
}

/// Appends a stream in the compact encoding.
pub fn push_stream<S: Stream>(answer: &mut Answer, value: &S, most: usize) {
    let mut out = behind(answer, b"");
    answer.kept(value.put(answer.alloc(), false, &mut out));
    push_shown(answer, out.get(), most);
}
