//! What is to be put into a tree.
ghost use Rattle.std.specs.Prelude.{◌≡◌, ◌↔◌, IsTrue, IfSome, OnSome, IfNone};
ghost use Rattle.journal_log.specs.Staged.{is_file_want};
ghost use Rattle.journal_log.specs.Targets.{is_dir_want, is_target};
ghost use Rattle.journal_log.specs.WriteSet.{Rises};

use crate::search::place_of;
use std::marker::Model;
use tree_disk::cny_base::{Bytes, Copies, ListOf, Mode, OutOfMemory, Path, Target};

/// What is to stand at a path.
pub enum Want {
    /// No node is to be there.
    Nothing,
    /// A directory.
    Dir {
        mode: Mode,
    },
    /// A regular file with its contents.
    File {
        mode: Mode,
        bytes: Bytes,
    },
    /// A symbolic link, which has no mode.
    Link {
        target: Target,
    },
    /// A regular file whose contents stand in the staged file with this number: so many bytes, with
    /// this SHA-1 digest.
    Staged {
        mode: Mode,
        number: u32,
        size: u32,
        name: [u8; 20],
    },
}

// Written by hand, so that to let a value go is a single call.
impl Drop for Want {
    fn drop(self) {
        match self {
            Want::Nothing => {}
            Want::Dir { mode: _ } => {}
            Want::File {
                mode: _,
                bytes: _bytes,
            } => {}
            Want::Link { target: _target } => {}
            Want::Staged {
                mode: _,
                number: _,
                size: _,
                name: _,
            } => {}
        }
    }
}

impl Want {
    /// Whether a directory is to stand.
    pub fn is_dir(&self) -> bool
        ensures { result ≡ is_dir_want self.now }
    {
        matches!(self, Want::Dir { .. })
    }

    /// Whether nothing is to stand.
    pub fn is_nothing(&self) -> bool
        ensures { IsTrue result ↔ (self.now ≡ Want.Nothing) }
    {
        matches!(self, Want::Nothing)
    }

    /// Whether a file is to stand whose bytes are given.
    pub fn is_file(&self) -> bool
        ensures { result ≡ is_file_want self.now }
    {
        matches!(self, Want::File { .. })
    }
}

impl Copies for Want {
    fn copy(&self) -> Result<Self, OutOfMemory> {
        Ok(match self {
            Want::Nothing => Want::Nothing,
            Want::Dir { mode } => Want::Dir { mode: *mode },
            Want::File { mode, bytes } => Want::File {
                mode: *mode,
                bytes: bytes.copy()?,
            },
            Want::Link { target } => Want::Link {
                target: target.copy()?,
            },
            Want::Staged {
                mode,
                number,
                size,
                name,
            } => Want::Staged {
                mode: *mode,
                number: *number,
                size: *size,
                name: *name,
            },
        })
    }
}

/// What is to stand at one path.
pub struct Put {
    pub path: Path,
    pub want: Want,
}

// Written by hand, so that to let a value go is a single call.
impl Drop for Put {
    fn drop(self) {
        let Put {
            path: _path,
            want: _want,
        } = self;
    }
}

impl Copies for Put {
    fn copy(&self) -> Result<Self, OutOfMemory> {
        Ok(Put {
            path: self.path.copy()?,
            want: self.want.copy()?,
        })
    }
}

/// A write set: what is to stand at some paths, which strictly rise.
#[derive(Drop)]
pub struct Puts {
    items: ListOf<Put>,
}

impl Model for Puts {
    ghost use Rattle.std.specs.Prelude.{List};
    ghost use Rattle.journal_log.specs.declared.put.Put.{Put};
    ghost use Rattle.journal_log.specs.WriteSet.{Rises};

    ghost Value = { List Put };

    ghost view = { λ a. a.items };

    ghost invariant = { λ a. Rises a.items };
}

impl Puts {
    /// The write set of these puts; none exactly where their paths don't strictly rise. Takes no memory.
    pub fn new(items: Vec<Put>) -> Option<Self>
        ensures some { IfSome result (λ puts. puts ≡ items.items) }
        ensures rises { OnSome result (Rises items.items) }
        ensures none { IfNone result (Rises items.items → ⊥) }
    {
        if !items.is_sorted_by(|one, next| one.path < next.path) {
            return None;
        }
        Some(Puts {
            items: ListOf::new(items),
        })
    }

    /// The puts in path order.
    pub fn get(&self) -> &[Put]
        ensures value { result.now ≡ self.now }
        ensures rises { Rises result.now }
    {
        self.items.get()
    }

    /// Whether one of the puts is at this path; takes no memory.
    pub fn contains(&self, path: &Path) -> bool
        ensures { result ≡ is_target self.now path.now }
    {
        place_of(self.items.get(), path.text()).is_some()
    }

    /// The puts as a `Vec`; takes no memory.
    pub fn into_vec(self) -> Vec<Put>
        ensures value { result.items ≡ self }
        ensures rises { Rises result.items }
    {
        self.items.into_vec()
    }
}

impl Copies for Puts {
    fn copy(&self) -> Result<Self, OutOfMemory> {
        Ok(Puts {
            items: self.items.copy()?,
        })
    }
}
