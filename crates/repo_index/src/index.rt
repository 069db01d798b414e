//! The index: where the troves of each id and of each name stand, and which contents they name.
ghost use Rattle.std.specs.Prelude.{◌≡◌, ◌==◌, ◌++◌, ◌∷◌, [], ◌&&◌, ◌||◌, if◌then◌else◌, length, List, ℕ, OnOk, OnErr};
ghost use Rattle.std.specs.List.{list_any};
ghost use Rattle.std.specs.Str.{bytes_eq};
ghost use Rattle.trove_stream.specs.declared.parts.TroveParts.{TroveParts};
ghost use Rattle.repo_index.specs.Catalogue.{is_content, is_file_of, is_file_sized};
ghost use Rattle.trove_stream.specs.cny-stream.Record.{has_name_and_size};
ghost use Rattle.indexmap.specs.IndexMap.{get};
ghost use Rattle.repo_index.specs.Keys.{places_in, is_number, knows, knows_sized, Extends, ExtendsMap};
ghost use Rattle.repo_index.specs.Hashes.{KeepsAll};
ghost use Rattle.repo_index.specs.Index.{IsIndexOf};

use crate::places_by_id::{PlacesById, hash_of};
use indexmap::{IndexMap, IndexSet};
use std::alloc::Global;
use trove_stream::Trove;
use trove_stream::cny_base::OutOfMemory;
use trove_stream::cny_stream::FileRec;
use trove_stream::trove_parts::FileAt;

/// A content, as a file record tells it.
#[derive(PartialEq, Eq, Hash, Drop)]
struct Content {
    size: usize,
    name: [u8; 20],
}

/// The places of the troves of each id and, rising, of each name, and the contents that the troves record.
pub(crate) struct Index {
    ids: PlacesById,
    // A name may stand here without a place.
    names: IndexMap<String, Vec<usize>>,
    // Each name of a content, with the size with which it was recorded first.
    contents: IndexMap<[u8; 20], usize>,
    // What was recorded with another size of the same name.
    others: IndexSet<Content>,
}

// Written by hand, so that to let a value go is a single call wherever a function ends early.
impl Drop for Index {
    fn drop(self) {
        let Index {
            ids: _ids,
            names: _names,
            contents: _contents,
            others: _others,
        } = self;
    }
}

impl Index {
    /// The index of no troves.
    pub(crate) fn new(alloc: Global) -> Self
        ensures { IsIndexOf [] result }
    {
        Index {
            ids: PlacesById::new(alloc),
            names: IndexMap::new(alloc),
            contents: IndexMap::new(alloc),
            others: IndexSet::new(alloc),
        }
    }

    /// Adds the trove that stands at this place, behind all others. On want of memory it is the index of the others still.
    pub(crate) fn add(
        &mut self,
        alloc: Global,
        trove: &Trove,
        place: usize,
    ) -> Result<(), OutOfMemory>
        ensures ok { OnOk result ((troves : List TroveParts) → IsIndexOf troves self.old → place ≡ length troves
            → IsIndexOf (troves ++ trove.now ∷ []) self.new) }
        ensures err { OnErr result ((troves : List TroveParts) → IsIndexOf troves self.old → IsIndexOf troves self.new) }
    {
        let known = self.contents.len();
        let known_others = self.others.len();
        if let Err(error) = self.add_trove(alloc, trove, place) {
            self.contents.truncate(known);
            self.others.truncate(known_others);
            return Err(error);
        }
        Ok(())
    }

    // The same, but on want of memory some of the trove's contents may be there, behind those that were.
    fn add_trove(&mut self, alloc: Global, trove: &Trove, place: usize) -> Result<(), OutOfMemory>
        ensures ok { OnOk result ((troves : List TroveParts) → IsIndexOf troves self.old → place ≡ length troves
            → IsIndexOf (troves ++ trove.now ∷ []) self.new) }
        ensures places { OnErr result ((name : List ℕ) → places_in self.new.names name ≡ places_in self.old.names name) }
        ensures ids { KeepsAll self.old.ids self.new.ids }
        ensures contents { ExtendsMap self.old.contents self.new.contents }
        ensures others { Extends self.old.others self.new.others }
    {
        self.ids.add(hash_of(trove.id()), place)?;
        add_contents(&mut self.contents, &mut self.others, trove.files())?;
        add_place(alloc, &mut self.names, trove.id().name.text(), place)?;
        Ok(())
    }

    /// The places by the hashes of the ids.
    pub(crate) fn ids(&self) -> &PlacesById
        ensures { result.now ≡ self.now.ids }
    {
        &self.ids
    }

    /// The places of the troves of a name, rising.
    pub(crate) fn places(&self, name: &str) -> &[usize]
        ensures { result.now ≡ places_in self.now.names name.now }
    {
        match self.names.get(name) {
            Some(places) => places.as_slice(),
            None => &[],
        }
    }

    /// Whether a content of this name is recorded.
    pub(crate) fn has(&self, name: &[u8; 20]) -> bool
        ensures { result ≡ knows self.now.contents name.now }
    {
        self.contents.contains_key(name)
    }

    /// Whether a content of this name and this size is recorded.
    pub(crate) fn has_sized(&self, name: &[u8; 20], size: usize) -> bool
        ensures { result ≡ knows_sized self.now.contents self.now.others name.now size }
    {
        let is_first = is_size(first_size(&self.contents, name), size);
        let is_other = self.others.contains(&Content { size, name: *name });
        is_first || is_other
    }
}

// Adds a place to those of a name. On want of memory each name has the places that it had.
fn add_place(
    alloc: Global,
    names: &mut IndexMap<String, Vec<usize>>,
    name: &str,
    place: usize,
) -> Result<(), OutOfMemory>
    ensures ok { OnOk result ((other : List ℕ) → places_in names.new other
        ≡ places_in names.old other ++ (if bytes_eq name.now other then place ∷ [] else [])) }
    ensures err { OnErr result ((other : List ℕ) → places_in names.new other ≡ places_in names.old other) }
{
    let key = String::from_str(alloc, name)?;
    names.entry(key)?.or_insert(Vec::new(alloc)).push(place)?;
    Ok(())
}

// The size with which a content of this name was recorded first.
fn first_size(contents: &IndexMap<[u8; 20], usize>, name: &[u8; 20]) -> Option<usize>
    ensures { result ≡ get bytes_eq contents.now name.now }
{
    contents.get(name).copied()
}

// Whether a size that there may be is this one.
fn is_size(first: Option<usize>, size: usize) -> bool
    ensures { result ≡ is_number first size }
{
    match first {
        Some(first) => first == size,
        None => false,
    }
}

// Adds a content. On want of memory all is as it was.
fn add_content(
    contents: &mut IndexMap<[u8; 20], usize>,
    others: &mut IndexSet<Content>,
    name: &[u8; 20],
    size: usize,
) -> Result<(), OutOfMemory>
    ensures names { OnOk result ((other : List ℕ) → knows contents.new other ≡ (knows contents.old other || bytes_eq name.now other)) }
    ensures sizes { OnOk result ((other : List ℕ) (given : ℕ) → knows_sized contents.new others.new other given
        ≡ (knows_sized contents.old others.old other given || (size == given && bytes_eq name.now other))) }
    ensures contents { ExtendsMap contents.old contents.new }
    ensures others { Extends others.old others.new }
{
    match first_size(contents, name) {
        None => {
            contents.insert(*name, size)?;
        }
        Some(first) => {
            if first != size {
                others.insert(Content { size, name: *name })?;
            }
        }
    }
    Ok(())
}

// Adds the contents of a file.
fn add_file(
    contents: &mut IndexMap<[u8; 20], usize>,
    others: &mut IndexSet<Content>,
    rec: &FileRec,
) -> Result<(), OutOfMemory>
    ensures names { OnOk result ((name : List ℕ) → knows contents.new name ≡ (knows contents.old name || is_content name rec.now)) }
    ensures sizes { OnOk result ((name : List ℕ) (size : ℕ) → knows_sized contents.new others.new name size
        ≡ (knows_sized contents.old others.old name size || has_name_and_size name size rec.now)) }
    ensures contents { ExtendsMap contents.old contents.new }
    ensures others { Extends others.old others.new }
{
    if let FileRec::File { size, name, .. } = rec {
        add_content(contents, others, name, *size as usize)?;
    }
    Ok(())
}

// Adds the contents of these files. On want of memory some of them may be there, behind those that were.
fn add_contents(
    contents: &mut IndexMap<[u8; 20], usize>,
    others: &mut IndexSet<Content>,
    files: &[FileAt],
) -> Result<(), OutOfMemory>
    ensures names { OnOk result ((name : List ℕ) → knows contents.new name ≡ (knows contents.old name || list_any (is_file_of name) files.now)) }
    ensures sizes { OnOk result ((name : List ℕ) (size : ℕ) → knows_sized contents.new others.new name size
        ≡ (knows_sized contents.old others.old name size || list_any (is_file_sized name size) files.now)) }
    ensures contents { ExtendsMap contents.old contents.new }
    ensures others { Extends others.old others.new }
{
    for file in files {
        add_file(contents, others, &file.rec)?;
    }
    Ok(())
}
