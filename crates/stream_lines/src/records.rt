//! Calls on file records.
ghost use Rattle.std.specs.Prelude.{◌↔◌, IsTrue, All};
ghost use Rattle.line_words.specs.cny-report.cny-stream.Record.{FitsSize};
ghost use Rattle.line_words.specs.cny-report.trove-parts.Files.{FitsFile};

use crate::again::{behind, copy_of, push_compared};
use line_words::cny_report::cny_base::{Bytes, CONTENT_LIMIT, Mode};
use line_words::cny_report::cny_stream::{
    Encoding, FileRec, Flags, Owner, decode_as, decode_full, encode_as, file_id,
};
use line_words::cny_report::trove_parts::FileAt;
use line_words::{Answer, Line};

// Whether the size of a file's contents is within its limit, as `encode` asks for.
fn has_spelling(rec: &FileRec) -> bool
    ensures { IsTrue result ↔ FitsSize rec.now }
{
    match rec {
        FileRec::Dir { .. } => true,
        FileRec::File { size, .. } => *size <= CONTENT_LIMIT,
        FileRec::Link { .. } => true,
    }
}

/// Whether each file has a size within its limit.
pub fn have_spellings(files: &[FileAt]) -> bool
    ensures { IsTrue result → All FitsFile files.now }
{
    for file in files {
        if !has_spelling(&file.rec) {
            return false;
        }
    }
    true
}

// The mode and the owner.
fn push_owned(answer: &mut Answer, mode: Mode, owner: &Owner) {
    answer.mode(mode);
    let (user, group) = (owner.user(), owner.group());
    answer.formatted(format!(in answer.alloc(); " {user} {group}"));
}

/// Appends the fields of a record.
pub fn push_record(answer: &mut Answer, rec: &FileRec) {
    match rec {
        FileRec::Dir { mode, owner } => {
            answer.text("dir ");
            push_owned(answer, *mode, owner);
        }
        FileRec::File {
            mode,
            owner,
            flags,
            size,
            name,
        } => {
            answer.text("file ");
            push_owned(answer, *mode, owner);
            answer.text(" ");
            answer.flags(*flags);
            answer.formatted(format!(in answer.alloc(); " {size} "));
            answer.hex(name.as_slice());
        }
        FileRec::Link { target } => {
            answer.link(target.text());
        }
    }
}

// The fields of a record, and its id.
fn push_record_and_id(answer: &mut Answer, rec: &FileRec)
    requires { FitsSize rec.now }
{
    push_record(answer, rec);
    answer.text("\t");
    if let Some(id) = answer.kept(file_id(answer.alloc(), rec)) {
        answer.hex(id.as_slice());
    }
}

// The bytes of a record, behind these.
fn written(answer: &mut Answer, encoding: Encoding, rec: &FileRec, front: &[u8]) -> Bytes
    requires { FitsSize rec.now }
{
    let mut out = behind(answer, front);
    answer.kept(encode_as(answer.alloc(), encoding, rec, &mut out));
    out
}

// The fields of a record and its id, and whether it is written as these bytes.
fn push_again(answer: &mut Answer, encoding: Encoding, rec: &FileRec, bytes: &[u8]) {
    if has_spelling(rec) {
        push_record_and_id(answer, rec);
        let out = written(answer, encoding, rec, b"x");
        push_compared(answer, out.get(), bytes);
    } else {
        answer.unreadable();
    }
}

/// `decode_as` of bytes: the record's fields and its id, and how a copy of it is written again.
pub fn record(answer: &mut Answer, encoding: Encoding, bytes: &[u8]) {
    if let Some(rec) = answer.given(copy_of(decode_as(answer.alloc(), encoding, bytes))) {
        push_again(answer, encoding, &rec, bytes);
    }
}

fn flags_of(line: &mut Line, place: usize) -> Flags {
    let letters = line.text(place);
    let flags = Flags {
        config: letters.contains('c'),
        initial: letters.contains('i'),
        transient: letters.contains('t'),
    };
    if letters.len() != 3 {
        line.unreadable();
    }
    flags
}

// The record of this kind with this owner.
fn owned_record(line: &mut Line, owner: Owner) -> FileRec {
    let mode = line.mode(1);
    if line.text(0) == "dir" {
        return FileRec::Dir { mode, owner };
    }
    FileRec::File {
        mode,
        owner,
        flags: flags_of(line, 4),
        size: line.small(5),
        name: line.digest(6),
    }
}

// The fields of a record, its id, and its bytes in both encodings.
fn push_made(answer: &mut Answer, rec: &FileRec) {
    if has_spelling(rec) {
        push_record_and_id(answer, rec);
        for encoding in [Encoding::Compact, Encoding::Explicit] {
            let bytes = written(answer, encoding, rec, b"");
            answer.text("\t");
            answer.hex(bytes.get());
        }
    } else {
        answer.unreadable();
    }
}

fn make_link(answer: &mut Answer, line: &mut Line) {
    if let Some(target) = line.target(1) {
        push_made(answer, &FileRec::Link { target });
    }
}

/// A record with these fields: the fields, its id, and its bytes in both encodings.
pub fn make(answer: &mut Answer, line: &mut Line) {
    if line.text(0) == "link" {
        make_link(answer, line);
    } else {
        let owner = Owner::new(answer.alloc(), line.text(2), line.text(3));
        if let Some(owner) = answer.given(owner) {
            let rec = owned_record(line, owner);
            push_made(answer, &rec);
        }
    }
}

/// `==` of two records in the explicit encoding.
pub fn same(answer: &mut Answer, first: &[u8], second: &[u8]) {
    if let Some(first) = answer.kept(decode_full(answer.alloc(), first)) {
        if let Some(second) = answer.kept(decode_full(answer.alloc(), second)) {
            answer.holds(first == second);
        }
    }
}

fn push_owner(owner: &Owner, answer: &mut Answer) {
    answer.text(owner.user());
    answer.field(owner.group());
    answer.holds(owner.is_root());
}

/// `Owner::new` of a user and a group: a copy of it, and whether it is root.
pub fn owner(answer: &mut Answer, user: &str, group: &str) {
    answer.outcome(copy_of(Owner::new(answer.alloc(), user, group)), push_owner);
}
