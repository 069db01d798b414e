//! Change sets and what they hold.
ghost use Rattle.std.specs.Prelude.{◌≡◌};

use trove_stream::cny_base::{Bytes, Copies, ListOf, OutOfMemory};
use trove_stream::{RelTrove, Trove};

/// A part of a change set.
pub enum Part {
    /// A whole trove.
    Whole(Trove),
    /// What leads from one trove to another.
    Relative(RelTrove),
}

// Written by hand, so that to let a value go is a single call wherever a function ends early.
impl Drop for Part {
    fn drop(self) {
        match self {
            Part::Whole(_trove) => {}
            Part::Relative(_rel) => {}
        }
    }
}

impl Copies for Part {
    fn copy(&self) -> Result<Self, OutOfMemory> {
        Ok(match self {
            Part::Whole(trove) => Part::Whole(trove.copy()?),
            Part::Relative(rel) => Part::Relative(rel.copy()?),
        })
    }
}

/// A list of parts.
pub type Parts = ListOf<Part>;

/// A content that a change set carries.
pub struct Carried {
    /// The SHA-1 of the bytes.
    pub name: [u8; 20],
    pub bytes: Bytes,
}

// Written by hand, so that to let a value go is a single call wherever a function ends early.
impl Drop for Carried {
    fn drop(self) {
        let Carried {
            name: _name,
            bytes: _bytes,
        } = self;
    }
}

impl Carried {
    /// Its name and its bytes; takes no memory.
    pub fn into_parts(self) -> ([u8; 20], Bytes)
        ensures name { result.0 ≡ self.name }
        ensures bytes { result.1 ≡ self.bytes }
    {
        let Carried { name, bytes } = self;
        (name, bytes)
    }
}

impl Copies for Carried {
    fn copy(&self) -> Result<Self, OutOfMemory> {
        Ok(Carried {
            name: self.name,
            bytes: self.bytes.copy()?,
        })
    }
}

/// A list of contents.
pub type CarriedList = ListOf<Carried>;

/// Parts, and contents of the files that they record. A set carries what its maker chose: any of the contents may be
/// missing.
pub struct ChangeSet {
    /// In any order; more than 4,096 are neither read nor written.
    pub parts: Parts,
    /// By strictly rising names; each is named by its SHA-1, and a file record of a part has that name and its size. `decode`
    /// gives such, and `encode` asks for them.
    pub contents: CarriedList,
}

// Written by hand, so that to let a value go is a single call wherever a function ends early.
impl Drop for ChangeSet {
    fn drop(self) {
        let ChangeSet {
            parts: _parts,
            contents: _contents,
        } = self;
    }
}

impl Copies for ChangeSet {
    fn copy(&self) -> Result<Self, OutOfMemory> {
        Ok(ChangeSet {
            parts: self.parts.copy()?,
            contents: self.contents.copy()?,
        })
    }
}
