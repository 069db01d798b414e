//! Fingerprints of what stands at a path.
ghost use Rattle.std.specs.Prelude.{◌≡◌, Some};
ghost use Rattle.tree_disk.specs.cny-base.declared.node.Node.TheVariants as node;
ghost use Rattle.tree_scan.specs.declared.mark.Mark.TheVariants as mark;
ghost use Rattle.tree_scan.specs.Marks as spec;
ghost use Rattle.tree_scan.specs.Marks.{fingerprint, fingerprint_of_record, same_mark};

use cny_stream::FileRec;
use sha1::Sha1;
use tree_disk::cny_base::{Copies, Mode, OutOfMemory, Target};

/// A fingerprint: what stands at a path, a file by its size and the SHA-1 of its bytes. Owners and flags are no part of it.
pub enum Mark {
    /// Nothing stands there.
    Nothing,
    Dir {
        mode: Mode,
    },
    /// A file of so many bytes, which have this SHA-1.
    File {
        mode: Mode,
        size: u64,
        name: [u8; 20],
    },
    Link {
        target: Target,
    },
}

// Written by hand, so that to let a value go is a single call.
impl Drop for Mark {
    fn drop(self) {
        match self {
            Mark::Nothing => {}
            Mark::Dir { mode: _ } => {}
            Mark::File {
                mode: _,
                size: _,
                name: _,
            } => {}
            Mark::Link { target: _target } => {}
        }
    }
}

/// The fingerprint of a file with these bytes. Takes no memory.
pub fn mark_file(mode: Mode, bytes: &[u8]) -> Mark
    ensures { result ≡ fingerprint (Some (node.File mode bytes.now)) }
{
    Mark::File {
        mode,
        size: bytes.len() as u64,
        name: Sha1::digest(bytes),
    }
}

fn is_same_dir(mode: Mode, other: &Mark) -> bool
    ensures { result ≡ same_mark (mark.Dir mode) other.now }
{
    matches!(other, Mark::Dir { mode: of_other } if mode.bits() == of_other.bits())
}

fn is_same_file(mode: Mode, size: u64, name: &[u8; 20], other: &Mark) -> bool
    ensures { result ≡ same_mark (mark.File mode size name.now) other.now }
{
    match other {
        Mark::File {
            mode: of_other,
            size: other_size,
            name: other_name,
        } => {
            let modes = mode.bits() == of_other.bits();
            let sizes = size == *other_size;
            let names = name.as_slice() == other_name.as_slice();
            modes && (sizes && names)
        }
        Mark::Nothing => false,
        Mark::Dir { .. } => false,
        Mark::Link { .. } => false,
    }
}

fn is_same_link(target: &Target, other: &Mark) -> bool
    ensures { result ≡ same_mark (mark.Link target.now) other.now }
{
    matches!(other, Mark::Link { target: of_other } if target.text() == of_other.text())
}

impl Mark {
    /// Whether nothing stands there.
    pub fn is_nothing(&self) -> bool
        ensures { result ≡ spec.is_nothing self.now }
    {
        matches!(self, Mark::Nothing)
    }

    /// Whether a directory stands there.
    pub fn is_dir(&self) -> bool
        ensures { result ≡ spec.is_dir self.now }
    {
        matches!(self, Mark::Dir { .. })
    }

    /// Whether a file stands there.
    pub fn is_file(&self) -> bool
        ensures { result ≡ spec.is_file self.now }
    {
        matches!(self, Mark::File { .. })
    }

    /// Whether both are the same.
    pub fn is_same(&self, other: &Mark) -> bool
        ensures { result ≡ same_mark self.now other.now }
    {
        match self {
            Mark::Nothing => other.is_nothing(),
            Mark::Dir { mode } => is_same_dir(*mode, other),
            Mark::File { mode, size, name } => is_same_file(*mode, *size, name, other),
            Mark::Link { target } => is_same_link(target, other),
        }
    }

    /// Whether it is the fingerprint of what a record describes.
    pub fn is_of(&self, rec: &FileRec) -> bool
        ensures { result ≡ same_mark self.now (fingerprint_of_record rec.now) }
    {
        match self {
            Mark::Nothing => false,
            Mark::Dir { mode } => describes_dir(rec, *mode),
            Mark::File { mode, size, name } => describes_file(rec, *mode, *size, name),
            Mark::Link { target } => describes_link(rec, target),
        }
    }
}

// Whether the record describes a directory of this mode.
fn describes_dir(rec: &FileRec, mode: Mode) -> bool
    ensures { result ≡ same_mark (mark.Dir mode) (fingerprint_of_record rec.now) }
{
    matches!(rec, FileRec::Dir { mode: of_rec, .. } if mode.bits() == of_rec.bits())
}

// Whether the record describes a file of this mode and size, whose bytes have this name.
fn describes_file(rec: &FileRec, mode: Mode, size: u64, name: &[u8; 20]) -> bool
    ensures { result ≡ same_mark (mark.File mode size name.now) (fingerprint_of_record rec.now) }
{
    match rec {
        FileRec::File {
            mode: of_rec,
            size: rec_size,
            name: rec_name,
            ..
        } => {
            let modes = mode.bits() == of_rec.bits();
            let sizes = size == u64::from(*rec_size);
            let names = name.as_slice() == rec_name.as_slice();
            modes && (sizes && names)
        }
        FileRec::Dir { .. } => false,
        FileRec::Link { .. } => false,
    }
}

// Whether the record describes a link to this target.
fn describes_link(rec: &FileRec, target: &Target) -> bool
    ensures { result ≡ same_mark (mark.Link target.now) (fingerprint_of_record rec.now) }
{
    matches!(rec, FileRec::Link { target: of_rec } if target.text() == of_rec.text())
}

/// Whether two records have the same fingerprint: they describe the same node.
pub fn are_same_marks(one: &FileRec, other: &FileRec) -> bool
    ensures { result ≡ same_mark (fingerprint_of_record one.now) (fingerprint_of_record other.now) }
{
    match one {
        FileRec::Dir { mode, .. } => describes_dir(other, *mode),
        FileRec::File {
            mode,
            size,
            name,
            ..
        } => describes_file(other, *mode, u64::from(*size), name),
        FileRec::Link { target } => describes_link(other, target),
    }
}

impl Copies for Mark {
    fn copy(&self) -> Result<Self, OutOfMemory> {
        Ok(match self {
            Mark::Nothing => Mark::Nothing,
            Mark::Dir { mode } => Mark::Dir { mode: *mode },
            Mark::File { mode, size, name } => Mark::File {
                mode: *mode,
                size: *size,
                name: *name,
            },
            Mark::Link { target } => Mark::Link {
                target: target.copy()?,
            },
        })
    }
}
