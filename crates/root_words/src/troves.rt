//! Troves of a line.
use change_set::trove_stream::{Installed, Trove, decode_full};
use line_words::{Line, Stop};
use std::alloc::Global;
use tree_memory::cny_base::Bytes;

fn push_trove(line: &mut Line, troves: &mut Vec<Trove>, stream: &[u8]) {
    let trove = decode_full(line.alloc(), stream);
    if let Some(trove) = line.kept(trove) {
        line.kept(troves.push(trove));
    }
}

// The stream of these bytes with the digits of a number between them.
fn stream_of(alloc: Global, before: &[u8], number: u32, after: &[u8]) -> Result<Bytes, Stop> {
    let digits = format!(in alloc; "{number}")?;
    let mut stream = Bytes::new(alloc, before)?;
    stream.push_slice(digits.as_bytes())?;
    stream.push_slice(after)?;
    Ok(stream)
}

fn push_numbered(
    line: &mut Line,
    troves: &mut Vec<Trove>,
    number: u32,
    before: &[u8],
    after: &[u8],
) {
    let stream = stream_of(line.alloc(), before, number, after);
    if let Some(stream) = line.kept(stream) {
        push_trove(line, troves, stream.get());
    }
}

// The number of the first of many troves, of five digits as those behind it, so that names with them rise.
const FIRST: u32 = 10_000;

// `COUNT BYTES BYTES`: so many troves, whose streams are the two with a number between them, from 10,000 on.
fn push_many(line: &mut Line, troves: &mut Vec<Trove>, raw: &str) {
    let (count, streams) = raw.split_once(' ').unwrap_or((raw, ""));
    let (before, after) = streams.split_once(' ').unwrap_or((streams, ""));
    let last = line.part::<u32>(count).unwrap_or(0).saturating_add(FIRST);
    if let Some(before) = line.part::<Bytes>(before) {
        if let Some(after) = line.part::<Bytes>(after) {
            for number in FIRST..last {
                push_numbered(line, troves, number, before.get(), after.get());
            }
        }
    }
}

fn push_troves(line: &mut Line, troves: &mut Vec<Trove>, raw: &str) {
    if let Some(rest) = raw.strip_prefix("numbered ") {
        push_many(line, troves, rest);
    } else if let Some(stream) = line.part::<Bytes>(raw) {
        push_trove(line, troves, stream.get());
    }
}

/// The troves of the list at a place, by the bytes of their streams in the explicit encoding; `numbered COUNT BYTES BYTES` are so many,
/// whose streams are the two with a number between them, from 10,000 on.
pub fn troves_of(line: &mut Line, place: usize) -> Vec<Trove> {
    let raw = line.raw(place);
    let mut troves = Vec::new(line.alloc());
    if !raw.is_empty() {
        for one in raw.split(';') {
            push_troves(line, &mut troves, one);
        }
    }
    troves
}

/// The troves of the list at a place, whose names rise.
pub fn list_of(line: &mut Line, place: usize) -> Option<Installed> {
    let list = Installed::new(troves_of(line, place));
    line.some(list)
}
