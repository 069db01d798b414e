//! Calls on the lists of a trove.
ghost use Rattle.std.specs.Prelude.{◌≤◌, length};

use crate::again::{behind, push_compared};
use crate::elements::{Element, elements, push_list};
use line_words::cny_report::cny_base::{Copies, ListOf, Mode, Path};
use line_words::cny_report::cny_stream::{Encoding, FileRec, Flags, Owner};
use line_words::cny_report::trove_parts::{
    FileAt, TroveId, are_deps, are_files, are_paths, are_refs, put_id_item, take_deps, take_files,
    take_id_item, take_paths, take_refs,
};
use line_words::{Answer, Line};

// ---- lists in streams

// Bytes, a place within them, a tag, and how many elements there may be, if that is limited.
#[derive(Clone, Copy)]
struct Asked<'a> {
    bytes: &'a [u8],
    at: usize,
    tag: u8,
    limit: Option<usize>,
    ghost within: { at ≤ length bytes.now },
}

// What stands from the place up to an end.
fn bytes_to<'a>(answer: &mut Answer, asked: Asked<'a>, to: usize) -> &'a [u8] {
    if to < asked.at || to > asked.bytes.len() {
        answer.unreadable();
        return b"";
    }
    &asked.bytes[asked.at..to]
}

// The end of a list, the list, and how it is written again.
fn push_taken<T: Element>(
    answer: &mut Answer,
    encoding: Encoding,
    asked: Asked<'_>,
    to: usize,
    list: &[T],
) {
    answer.number(to as u64);
    push_list(answer, list);
    let out = T::written(answer, encoding, asked.tag, list);
    let wanted = bytes_to(answer, asked, to);
    push_compared(answer, out.get(), wanted);
}

// The same of a copy of the list.
fn push_copied<T: Element + Copies>(
    answer: &mut Answer,
    encoding: Encoding,
    asked: Asked<'_>,
    to: usize,
    list: &ListOf<T>,
) {
    if let Some(copy) = answer.kept(list.copy()) {
        push_taken(answer, encoding, asked, to, copy.get());
    }
}

fn files(answer: &mut Answer, encoding: Encoding, asked: Asked<'_>) {
    let (alloc, limit) = (answer.alloc(), asked.limit);
    let found = take_files(alloc, encoding, asked.bytes, asked.at, asked.tag, limit);
    if let Some(found) = answer.given(found) {
        push_copied(answer, encoding, asked, found.to, &found.files);
    }
}

fn refs(answer: &mut Answer, asked: Asked<'_>) {
    let alloc = answer.alloc();
    let found = take_refs(alloc, asked.bytes, asked.at, asked.tag, asked.limit);
    if let Some(found) = answer.given(found) {
        push_copied(answer, Encoding::Compact, asked, found.to, &found.refs);
    }
}

fn deps(answer: &mut Answer, asked: Asked<'_>) {
    let alloc = answer.alloc();
    let found = take_deps(alloc, asked.bytes, asked.at, asked.tag, asked.limit);
    if let Some(found) = answer.given(found) {
        push_copied(answer, Encoding::Compact, asked, found.to, &found.deps);
    }
}

fn paths(answer: &mut Answer, asked: Asked<'_>) {
    let found = take_paths(answer.alloc(), asked.bytes, asked.at, asked.tag);
    if let Some(found) = answer.given(found) {
        push_copied(answer, Encoding::Compact, asked, found.to, &found.paths);
    }
}

// The end of the id, the id, and how it is written again.
fn push_id(answer: &mut Answer, asked: Asked<'_>, to: usize, id: &TroveId) {
    answer.number(to as u64);
    answer.text("\t");
    answer.id(id);
    let mut out = behind(answer, b"x");
    answer.kept(put_id_item(answer.alloc(), &mut out, asked.tag, id));
    let wanted = bytes_to(answer, asked, to);
    push_compared(answer, out.get(), wanted);
}

fn id_item(answer: &mut Answer, asked: Asked<'_>) {
    let found = take_id_item(answer.alloc(), asked.bytes, asked.at, asked.tag);
    if let Some(found) = answer.given(found) {
        push_id(answer, asked, found.to, &found.id);
    }
}

fn of_kind(answer: &mut Answer, kind: &str, asked: Asked<'_>) {
    match kind {
        "files" => files(answer, Encoding::Compact, asked),
        "files_full" => files(answer, Encoding::Explicit, asked),
        "refs" => refs(answer, asked),
        "deps" => deps(answer, asked),
        "paths" => paths(answer, asked),
        _ => id_item(answer, asked),
    }
}

/// What `take_files` and its kin find in bytes at a place with a tag and, if there is a fourth argument, a limit: the end, the
/// list, and how a copy of it is written again.
pub fn taken(answer: &mut Answer, line: &mut Line) {
    let at = line.small(1) as usize;
    let limit = if line.len() < 4 {
        None
    } else {
        Some(line.small(3) as usize)
    };
    let bytes = line.bytes(0);
    match line.bytes(2) {
        [tag] if at <= bytes.len() => of_kind(
            answer,
            line.name(),
            Asked {
                bytes,
                at,
                tag: *tag,
                limit,
            },
        ),
        _ => answer.unreadable(),
    }
}

// ---- lists in any order

/// `are_files` of the files of items.
pub fn are_files_of(answer: &mut Answer, bytes: &[u8]) {
    let files = elements::<FileAt>(answer, bytes, 4);
    answer.holds(are_files(files.as_slice()));
}

/// `are_refs` of the ids of items.
pub fn are_refs_of(answer: &mut Answer, bytes: &[u8]) {
    let refs = elements(answer, bytes, 5);
    answer.holds(are_refs(refs.as_slice()));
}

/// `are_deps` of the dependencies of items.
pub fn are_deps_of(answer: &mut Answer, bytes: &[u8]) {
    let deps = elements(answer, bytes, 6);
    answer.holds(are_deps(deps.as_slice()));
}

/// `are_paths` of the paths of items.
pub fn are_paths_of(answer: &mut Answer, bytes: &[u8]) {
    let paths = elements::<Path>(answer, bytes, 0x23);
    answer.holds(are_paths(paths.as_slice()));
}

// `are_files` of a file with this path and owner.
fn push_sized(answer: &mut Answer, path: Path, owner: Owner, size: u32, name: [u8; 20]) {
    let rec = FileRec::File {
        mode: Mode::owner_only(),
        owner,
        flags: Flags {
            config: false,
            initial: false,
            transient: false,
        },
        size,
        name,
    };
    answer.holds(are_files(&[FileAt { path, rec }]));
}

/// `are_files` of one file of a size.
pub fn sized_file(answer: &mut Answer, size: u32, name: [u8; 20]) {
    if let Some(path) = answer.kept(Path::read(answer.alloc(), "/a")) {
        if let Some(owner) = answer.kept(Owner::new(answer.alloc(), "root", "root")) {
            push_sized(answer, path, owner, size, name);
        }
    }
}
