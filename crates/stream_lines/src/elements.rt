//! The elements of a trove's lists: how each is read from the value of an item, shown, and written again.
use crate::again::behind;
use crate::records::{have_spellings, push_record};
use cny_stream::next_item;
use line_words::Answer;
use line_words::cny_dep::Dep;
use line_words::cny_report::cny_base::{Bytes, Path, TextFault, next_str};
use line_words::cny_report::cny_stream::{Encoding, decode};
use line_words::cny_report::trove_parts::{
    FileAt, TroveId, next_id, put_deps, put_files, put_paths, put_refs,
};
use std::alloc::Global;

// So many elements of a list are shown.
const SHOWN: usize = 8;

/// An element of a list in a stream.
pub trait Element: Drop {
    /// The element with this value of an item.
    fn read(alloc: Global, value: &[u8]) -> Result<Self, TextFault>;

    /// Appends its text.
    fn show(&self, answer: &mut Answer);

    /// The items of elements behind an `x`, which stands alone where they have none.
    fn written(answer: &mut Answer, encoding: Encoding, tag: u8, list: &[Self]) -> Bytes;
}

impl Element for FileAt {
    fn read(alloc: Global, value: &[u8]) -> Result<Self, TextFault> {
        let span = next_str(value, 0).ok_or(TextFault::Bad)?;
        let path = Path::read_bytes(alloc, &value[span.from..span.to])?;
        match decode(alloc, &value[span.to..]) {
            Ok(rec) => Ok(FileAt { path, rec }),
            Err(fault) => Err(fault),
        }
    }

    fn show(&self, answer: &mut Answer) {
        answer.text(self.path.text());
        answer.text(" ");
        push_record(answer, &self.rec);
    }

    fn written(answer: &mut Answer, encoding: Encoding, tag: u8, list: &[Self]) -> Bytes {
        let mut out = behind(answer, b"x");
        if have_spellings(list) {
            answer.kept(put_files(answer.alloc(), encoding, &mut out, tag, list));
        }
        out
    }
}

impl Element for TroveId {
    fn read(alloc: Global, value: &[u8]) -> Result<Self, TextFault> {
        match next_id(alloc, value, 0) {
            Ok(found) => Ok(found.id),
            Err(fault) => Err(fault),
        }
    }

    fn show(&self, answer: &mut Answer) {
        answer.id(self);
    }

    fn written(answer: &mut Answer, _: Encoding, tag: u8, list: &[Self]) -> Bytes {
        let mut out = behind(answer, b"x");
        answer.kept(put_refs(answer.alloc(), &mut out, tag, list));
        out
    }
}

impl Element for Dep {
    fn read(alloc: Global, value: &[u8]) -> Result<Self, TextFault> {
        match str::from_utf8(value) {
            Ok(text) => Dep::read_whole(alloc, text),
            Err(_) => Err(TextFault::Bad),
        }
    }

    fn show(&self, answer: &mut Answer) {
        answer.text(self.text());
    }

    fn written(answer: &mut Answer, _: Encoding, tag: u8, list: &[Self]) -> Bytes {
        let mut out = behind(answer, b"x");
        answer.kept(put_deps(answer.alloc(), &mut out, tag, list));
        out
    }
}

impl Element for Path {
    fn read(alloc: Global, value: &[u8]) -> Result<Self, TextFault> {
        Path::read_bytes(alloc, value)
    }

    fn show(&self, answer: &mut Answer) {
        answer.text(self.text());
    }

    fn written(answer: &mut Answer, _: Encoding, tag: u8, list: &[Self]) -> Bytes {
        let mut out = behind(answer, b"x");
        answer.kept(put_paths(answer.alloc(), &mut out, tag, list));
        out
    }
}

/// Appends a field: how many elements there are, and the first of them.
pub fn push_list<T: Element>(answer: &mut Answer, list: &[T]) {
    answer.text("\t");
    answer.number(list.len() as u64);
    for element in list.iter().take(SHOWN) {
        answer.text("; ");
        element.show(answer);
    }
}

// Appends the element with this value.
fn push_element<T: Element>(answer: &mut Answer, list: &mut Vec<T>, value: &[u8]) {
    if let Some(element) = answer.kept(T::read(answer.alloc(), value)) {
        answer.kept(list.push(element));
    }
}

/// The elements of items of a tag, in the order given.
pub fn elements<T: Element>(answer: &mut Answer, bytes: &[u8], tag: u8) -> Vec<T> {
    let mut list = Vec::new(answer.alloc());
    let mut at = 0;
    for _ in 0..bytes.len() {
        if at < bytes.len() {
            match next_item(bytes, at, &[tag]) {
                Ok(item) => {
                    push_element(answer, &mut list, &bytes[item.from..item.to]);
                    at = item.to;
                }
                Err(_) => {
                    answer.unreadable();
                    at = bytes.len();
                }
            }
        }
    }
    list
}
