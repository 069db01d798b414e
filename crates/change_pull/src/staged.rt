//! Contents that stand in files.
ghost use Rattle.std.specs.Prelude.{◌≡◌};

use change_set::cny_base::{Copies, ListOf, OutOfMemory, Path};

/// A content that stands in a file.
pub struct Staged {
    /// The SHA-1 of its bytes.
    pub name: [u8; 20],
    /// How many bytes it has.
    pub size: u32,
    /// The path of the file.
    pub path: Path,
}

// Written by hand, so that to let a value go is a single call wherever a function ends early.
impl Drop for Staged {
    fn drop(self) {
        let Staged {
            name: _name,
            size: _size,
            path: _path,
        } = self;
    }
}

impl Copies for Staged {
    fn copy(&self) -> Result<Self, OutOfMemory> {
        Ok(Staged {
            name: self.name,
            size: self.size,
            path: self.path.copy()?,
        })
    }
}

/// A list of contents that stand in files.
pub type StagedList = ListOf<Staged>;
