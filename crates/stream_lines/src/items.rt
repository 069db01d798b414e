//! Calls on items.
ghost use Rattle.std.specs.Prelude.{IsTrue};
ghost use Rattle.cny_stream.specs.Item.{FitsOpen};

use crate::again::{behind, push_shown};
use cny_stream::{OpenItem, close_item, next_item, open_item, put_item};
use line_words::cny_report::cny_base::{Bytes, OutOfMemory};
use line_words::{Answer, Line};

// ---- items that are written

// What stands, the items that were begun and aren't ended, and a note of each that was begun or ended.
struct Writer {
    out: Bytes,
    open: Vec<OpenItem>,
    notes: Answer,
}

// Written by hand, so that to let a value go is a single call.
impl Drop for Writer {
    fn drop(self) {
        let Writer {
            out: _out,
            open: _open,
            notes: _notes,
        } = self;
    }
}

// Whether the bytes hold the head of an item at a place, and a value that fits.
fn fits_open(out: &Bytes, at: usize) -> bool
    ensures { IsTrue result → FitsOpen at out.now }
{
    let len = out.get().len();
    len >= 5 && at <= len - 5 && len - 5 - at <= u32::MAX as usize
}

impl Writer {
    fn put(&mut self, tag: u8, value: &[u8]) {
        if value.len() > u32::MAX as usize {
            return self.notes.unreadable();
        }
        self.notes.kept(put_item(&mut self.out, tag, value));
    }

    fn more(&mut self, bytes: &[u8]) {
        self.notes.kept(self.out.push_slice(bytes));
    }

    // Begins an item inside the last one that was begun, and notes where it stands, and its tag.
    fn begin(&mut self, tag: u8) {
        if let Some(begun) = self.notes.kept(open_item(&mut self.out, tag)) {
            self.notes.formatted(format!(in self.notes.alloc();
                "{} tag {}; ",
                begun.at, begun.tag
            ));
            self.notes.kept(self.open.push(begun));
        }
    }

    // Ends the last item that was begun and isn't ended yet, given how its value was put, and notes the answer.
    fn end(&mut self, put: Result<(), OutOfMemory>) {
        match self.open.pop() {
            Some(begun) if fits_open(&self.out, begun.at) => {
                match close_item(&mut self.out, begun, put) {
                    Ok(()) => self.notes.text("ok; "),
                    Err(OutOfMemory) => self.notes.text("memory; "),
                }
            }
            _ => self.notes.unreadable(),
        }
    }

    // A step: `p`, a tag and a value for an item that is put whole; `o` and a tag for one that is begun; `b` and bytes that
    // are appended; `c` for the end of an item whose value was put; `f` for that of one whose value failed for want of memory.
    fn step(&mut self, words: &[u8]) {
        match words {
            [b'p', tag, value @ ..] => self.put(*tag, value),
            [b'o', tag] => self.begin(*tag),
            [b'b', bytes @ ..] => self.more(bytes),
            [b'c'] => self.end(Ok(())),
            [b'f'] => self.end(Err(OutOfMemory)),
            _ => self.notes.unreadable(),
        }
    }
}

/// Steps behind other bytes: what stands then, and a note of each item that was begun or ended.
pub fn written(answer: &mut Answer, line: &mut Line) {
    let mut writer = Writer {
        out: behind(answer, line.bytes(0)),
        open: Vec::new(answer.alloc()),
        notes: answer.apart(),
    };
    for words in &line.rest::<Bytes>(1) {
        writer.step(words.get());
    }
    push_shown(answer, writer.out.get(), 500);
    answer.text("\t");
    answer.add(&writer.notes);
}

// ---- items that are read

/// `next_item` of bytes at a place with these tags.
pub fn next(answer: &mut Answer, bytes: &[u8], at: usize, tags: &[u8]) {
    if at > bytes.len() {
        answer.unreadable();
        return;
    }
    match next_item(bytes, at, tags) {
        Ok(item) => answer.formatted(format!(in answer.alloc();
            "tag {} from {} to {}",
            item.tag, item.from, item.to
        )),
        Err(place) => answer.formatted(format!(in answer.alloc(); "fault at {place}")),
    }
}
