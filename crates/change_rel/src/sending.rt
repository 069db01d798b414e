//! The contents that a receiver of a trove lacks.
ghost use Rattle.std.specs.Prelude.{◌≡◌, ◌↔◌, ◌⊎◌, ℕ, List, [], Some, IsTrue, IfOk, OnOk, IfSome, IfNone, Contains};
ghost use Rattle.std.specs.List.Sorted.{IsStrictlySortedBy};
ghost use Rattle.trove_stream.specs.trove-parts.Files.{file_cmp};
ghost use Rattle.change_rel.specs.Sending.{content_of, Records, IsSent, SendsName, AreSent};

use crate::same::is_same_name;
use std::alloc::Global;
use trove_stream::Trove;
use trove_stream::cny_base::{ListOf, OutOfMemory, Path};
use trove_stream::cny_stream::FileRec;
use trove_stream::trove_parts::FileAt;

/// A list of names of contents, each the SHA-1 of the content's bytes.
pub type ContentNames = ListOf<[u8; 20]>;

fn has_content(rec: &FileRec, size: u32, name: &[u8; 20]) -> bool
    ensures { IsTrue result ↔ (content_of rec.now ≡ Some (name.now, size)) }
{
    match rec {
        FileRec::Dir { .. } => false,
        FileRec::File {
            size: of_size,
            name: of_name,
            ..
        } => {
            let names = is_same_name(of_name, name);
            names && *of_size == size
        }
        FileRec::Link { .. } => false,
    }
}

// Whether the files record this content at this path.
fn is_recorded(files: &[FileAt], path: &Path, size: u32, name: &[u8; 20]) -> bool
    requires { IsStrictlySortedBy file_cmp files.now }
    ensures { IsTrue result ↔ Records files.now path.now size name.now }
{
    match files.binary_search_by(|file| file.path.cmp(path)) {
        Ok(place) => has_content(&files[place].rec, size, name),
        Err(_) => false,
    }
}

// Adds the name of a content that isn't recorded at this path.
fn push_unrecorded(
    names: &mut Vec<[u8; 20]>,
    old: &[FileAt],
    path: &Path,
    size: u32,
    name: &[u8; 20],
) -> Result<(), OutOfMemory>
    requires { IsStrictlySortedBy file_cmp old.now }
    ensures { OnOk result ((sent : List ℕ) → Contains names.new.items sent
        ↔ (Contains names.old.items sent ⊎ ((name.now ≡ sent) × (Records old.now path.now size name.now → ⊥)))) }
{
    if is_recorded(old, path, size, name) {
        return Ok(());
    }
    names.push(*name)?;
    Ok(())
}

// Adds the name of the file's content, if it has one that isn't recorded.
fn push_sent(names: &mut Vec<[u8; 20]>, old: &[FileAt], file: &FileAt) -> Result<(), OutOfMemory>
    requires { IsStrictlySortedBy file_cmp old.now }
    ensures { OnOk result ((name : List ℕ) → Contains names.new.items name
        ↔ (Contains names.old.items name ⊎ IsSent old.now name file.now)) }
{
    match &file.rec {
        FileRec::Dir { .. } => Ok(()),
        FileRec::File { size, name, .. } => push_unrecorded(names, old, &file.path, *size, name),
        FileRec::Link { .. } => Ok(()),
    }
}

// The names of the contents to send, in the order of the files.
fn sent_names(alloc: Global, old: &[FileAt], fresh: &[FileAt]) -> Result<Vec<[u8; 20]>, OutOfMemory>
    requires { IsStrictlySortedBy file_cmp old.now }
    ensures { IfOk result (λ names. (name : List ℕ) → Contains names.items name ↔ SendsName old.now fresh.now name) }
{
    let mut names = Vec::new(alloc);
    for file in fresh {
        push_sent(&mut names, old, file)?;
    }
    Ok(names)
}

// The names of the contents to send, each once.
fn names_to_send(
    alloc: Global,
    old: &[FileAt],
    fresh: &[FileAt],
) -> Result<ContentNames, OutOfMemory>
    requires { IsStrictlySortedBy file_cmp old.now }
    ensures { IfOk result (AreSent old.now fresh.now) }
{
    let mut names = sent_names(alloc, old, fresh)?;
    names.sort_unstable();
    names.dedup();
    Ok(ContentNames::new(names))
}

/// The names of the contents of the new trove's files that the old one doesn't record at the same path, strictly rising; all of
/// them where there is no old one. A content is its name and its size together.
pub fn to_send(
    alloc: Global,
    old: Option<&Trove>,
    fresh: &Trove,
) -> Result<ContentNames, OutOfMemory>
    ensures some { IfSome old.entry (λ trove. IfOk result (AreSent trove.now.files fresh.now.files)) }
    ensures none { IfNone old.entry (IfOk result (AreSent [] fresh.now.files)) }
{
    match old {
        None => names_to_send(alloc, &[], fresh.files()),
        Some(trove) => names_to_send(alloc, trove.files(), fresh.files()),
    }
}
