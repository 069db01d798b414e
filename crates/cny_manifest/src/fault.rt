//! Why bytes aren't read.
ghost use Rattle.std.specs.Prelude.{◌≡◌, length};
ghost use Rattle.cny_manifest.specs.declared.fault.ReadError.TheVariants.{Memory};

use manifest_troves::cny_base::OutOfMemory;
use std::alloc::{AllocError, AllocFailed};

/// Why bytes aren't those of a manifest.
#[derive(Clone, Copy)]
pub(crate) enum Unread {
    /// They aren't of its form; so many of them were left at the fault.
    At { left: usize },
    /// A content is larger than its limit.
    TooLarge { size: u64 },
}

/// Why nothing was read.
#[derive(Drop)]
pub(crate) enum ReadError {
    Memory,
    Unread(Unread),
}

impl From<AllocError> for ReadError {
    ghost from_gives = { λ _ e. e ≡ Memory };

    fn from(_: AllocError) -> Self {
        ReadError::Memory
    }
}

impl<T: Drop> From<AllocFailed<T>> for ReadError {
    ghost from_gives = { λ _ e. e ≡ Memory };

    fn from(_: AllocFailed<T>) -> Self {
        ReadError::Memory
    }
}

impl From<OutOfMemory> for ReadError {
    ghost from_gives = { λ _ e. e ≡ Memory };

    fn from(_: OutOfMemory) -> Self {
        ReadError::Memory
    }
}

/// The fault at the first of these bytes.
pub(crate) fn fault_at(bytes: &[u8]) -> ReadError
    ensures { result ≡ ReadError.Unread (Unread.At (length bytes.now)) }
{
    ReadError::Unread(Unread::At { left: bytes.len() })
}
