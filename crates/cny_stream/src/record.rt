//! File records and their flags.
ghost use Rattle.std.specs.Prelude.{◌≡◌, ◌↔◌, IsTrue};
ghost use Rattle.cny_stream.specs.Record as spec;
ghost use Rattle.cny_stream.specs.Record.{IsFileRecord, flag_bits};
ghost use Rattle.cny_stream.specs.Reading.{flags_at};

use crate::owner::Owner;
use cny_base::{CONTENT_LIMIT, Copies, Mode, OutOfMemory, Target};

/// What a trove asks for a file beside its contents.
#[derive(Clone, Copy, PartialEq, Eq)]
pub struct Flags {
    /// A configuration file, whose edits are kept.
    pub config: bool,
    /// Only the first installation writes the file.
    pub initial: bool,
    /// The file may be overwritten whatever stands there.
    pub transient: bool,
}

impl Flags {
    // The flags as bits: 1 config, 2 initial, 4 transient.
    pub(crate) fn bits(self) -> u8
        ensures { result ≡ flag_bits self }
    {
        let config = if self.config { 1 } else { 0 };
        let initial = if self.initial { 2 } else { 0 };
        let transient = if self.transient { 4 } else { 0 };
        config + (initial + transient)
    }

    // The flags with these bits; none exactly where there are others.
    pub(crate) fn of_bits(bits: u8) -> Option<Flags>
        ensures { result ≡ flags_at bits }
    {
        if bits > 7 {
            return None;
        }
        Some(Flags {
            config: bits % 2 == 1,
            initial: bits / 2 % 2 == 1,
            transient: bits / 4 == 1,
        })
    }
}

/// What a trove records of a path.
#[derive(PartialEq, Eq)]
pub enum FileRec {
    /// A directory.
    Dir {
        mode: Mode,
        owner: Owner,
    },
    /// A regular file: its size in bytes, and its contents by their SHA-1.
    File {
        mode: Mode,
        owner: Owner,
        flags: Flags,
        size: u32,
        name: [u8; 20],
    },
    /// A symbolic link.
    Link {
        target: Target,
    },
}

// Written by hand, so that to let a value go is a single call.
impl Drop for FileRec {
    fn drop(self) {
        match self {
            FileRec::Dir {
                mode: _mode,
                owner: _owner,
            } => {}
            FileRec::File {
                mode: _mode,
                owner: _owner,
                flags: _flags,
                size: _size,
                name: _name,
            } => {}
            FileRec::Link { target: _target } => {}
        }
    }
}

impl FileRec {
    /// The flags of a file's record; a directory and a link have none.
    pub fn flags(&self) -> Flags
        ensures { result ≡ spec.flags_of self.now }
    {
        let none = Flags {
            config: false,
            initial: false,
            transient: false,
        };
        match self {
            FileRec::Dir { .. } => none,
            FileRec::File { flags, .. } => *flags,
            FileRec::Link { .. } => none,
        }
    }

    /// Whether the record has bytes: a file's size may be above its limit, all else the types hold.
    pub fn is_valid(&self) -> bool
        ensures { IsTrue result ↔ IsFileRecord self.now }
    {
        match self {
            FileRec::Dir { mode, owner } => {
                let _owner = owner.is_root();
                mode.bits() <= 0o7777
            }
            FileRec::File {
                mode,
                owner,
                size,
                name,
                ..
            } => {
                let _owner = owner.is_root();
                let is_name = name.as_slice().len() == 20;
                is_name && mode.bits() <= 0o7777 && *size <= CONTENT_LIMIT
            }
            FileRec::Link { target } => !target.text().is_empty(),
        }
    }

    /// Whether it is a directory.
    pub fn is_dir(&self) -> bool
        ensures { result ≡ spec.is_dir self.now }
    {
        matches!(self, FileRec::Dir { .. })
    }
}

impl Copies for FileRec {
    fn copy(&self) -> Result<Self, OutOfMemory> {
        Ok(match self {
            FileRec::Dir { mode, owner } => FileRec::Dir {
                mode: *mode,
                owner: owner.copy()?,
            },
            FileRec::File {
                mode,
                owner,
                flags,
                size,
                name,
            } => FileRec::File {
                mode: *mode,
                owner: owner.copy()?,
                flags: *flags,
                size: *size,
                name: *name,
            },
            FileRec::Link { target } => FileRec::Link {
                target: target.copy()?,
            },
        })
    }
}
