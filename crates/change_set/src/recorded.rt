//! The names and sizes of contents that the file records of parts have.
ghost use Rattle.std.specs.Prelude.{◌≡◌, ◌||◌, ◌++◌, [], ◌∷◌, IfOk, OnOk, List, ℕ};
ghost use Rattle.std.specs.List.{list_any};
ghost use Rattle.trove_stream.specs.cny-stream.Record.{has_name_and_size};
ghost use Rattle.change_set.specs.declared.change.Part.{Part};
ghost use Rattle.change_set.specs.ChangeSet.{files_of, has_record};
ghost use Rattle.change_set.specs.Index.{has_key, has_file, IsIndexOf};

use crate::change::Part;
use std::alloc::Global;
use std::collections::BTreeSet;
use trove_stream::cny_base::OutOfMemory;
use trove_stream::cny_stream::FileRec;
use trove_stream::trove_parts::FileAt;

// The name and the size of a content.
#[derive(PartialEq, Eq, PartialOrd, Ord, Drop)]
struct Key {
    name: [u8; 20],
    size: usize,
}

/// The names and sizes of contents that the file records of some parts have.
#[derive(Drop)]
pub struct Index {
    keys: BTreeSet<Key>,
}

impl Index {
    /// The index of no parts.
    pub fn new(alloc: Global) -> Self
        ensures { IsIndexOf [] result }
    {
        Index {
            keys: BTreeSet::new(alloc),
        }
    }

    /// Adds the file records of a part. After an error it may have some of them.
    pub fn add(&mut self, part: &Part) -> Result<(), OutOfMemory>
        ensures { (parts : List Part) → IsIndexOf parts self.old → OnOk result (IsIndexOf (parts ++ part.now ∷ []) self.new) }
    {
        add_files(&mut self.keys, files_of(part))
    }

    /// The index of the file records of these parts.
    pub(crate) fn of(alloc: Global, parts: &[Part]) -> Result<Self, OutOfMemory>
        ensures { IfOk result (IsIndexOf parts.now) }
    {
        let mut index = Index::new(alloc);
        for part in parts {
            index.add(part)?;
        }
        Ok(index)
    }

    /// Whether a file record has this name and this size.
    pub fn has(&self, name: &[u8; 20], size: usize) -> bool
        ensures { (parts : List Part) → IsIndexOf parts self.now → result ≡ list_any (has_record name.now size) parts }
    {
        self.keys.contains(&Key { name: *name, size })
    }
}

// What a part records of paths.
fn files_of(part: &Part) -> &[FileAt]
    ensures { result.now ≡ files_of part.now }
{
    match part {
        Part::Whole(trove) => trove.files(),
        Part::Relative(rel) => rel.parts().files_set.get(),
    }
}

// Adds the names and sizes that the records of these files have.
fn add_files(keys: &mut BTreeSet<Key>, files: &[FileAt]) -> Result<(), OutOfMemory>
    ensures { OnOk result ((name : List ℕ) (size : ℕ) → has_key name size keys.new ≡ (has_key name size keys.old || has_file name size files.now)) }
{
    for file in files {
        add_file(keys, &file.rec)?;
    }
    Ok(())
}

// Adds the name and the size of a file's contents.
fn add_file(keys: &mut BTreeSet<Key>, rec: &FileRec) -> Result<(), OutOfMemory>
    ensures { OnOk result ((name : List ℕ) (size : ℕ) → has_key name size keys.new ≡ (has_key name size keys.old || has_name_and_size name size rec.now)) }
{
    if let FileRec::File { size, name, .. } = rec {
        keys.insert(Key {
            name: *name,
            size: *size as usize,
        })?;
    }
    Ok(())
}
