//! Why bytes aren't read.
ghost use Rattle.std.specs.Prelude.{◌≡◌, length};
ghost use Rattle.cny_batch.specs.declared.fault.ReadError.TheVariants.{Memory};

use cny_base::OutOfMemory;
use std::alloc::{AllocError, AllocFailed};

/// Why nothing was read.
#[derive(Drop)]
pub(crate) enum ReadError {
    Memory,
    /// The bytes aren't of the form; so many of them stand from the fault on.
    Malformed { left: usize },
}

impl From<AllocError> for ReadError {
    ghost from_gives = { λ _ e. e ≡ Memory };

    fn from(_: AllocError) -> Self {
        ReadError::Memory
    }
}

impl<T: Drop> From<AllocFailed<T>> for ReadError {
    ghost from_gives = { λ _ e. e ≡ Memory };

    fn from(_: AllocFailed<T>) -> Self {
        ReadError::Memory
    }
}

impl From<OutOfMemory> for ReadError {
    ghost from_gives = { λ _ e. e ≡ Memory };

    fn from(_: OutOfMemory) -> Self {
        ReadError::Memory
    }
}

/// The fault at the first of these bytes.
pub(crate) fn fault_at(bytes: &[u8]) -> ReadError
    ensures { result ≡ ReadError.Malformed (length bytes.now) }
{
    ReadError::Malformed { left: bytes.len() }
}
