//! Why a call over a disk stops.
ghost use Rattle.std.specs.Prelude.{◌≡◌};
ghost use Rattle.cny_base.specs.Stop.{stop_of_fault};
ghost use Rattle.cny_base.specs.declared.stop.Stop.TheVariants as stop;

use crate::path::Path;
use crate::refusal::{Fault, Refusal};
use crate::text::OutOfMemory;
use std::alloc::{AllocError, AllocFailed};

/// Why a call over a disk stops.
#[derive(Drop)]
pub enum Stop {
    /// The command is refused.
    Refused(Refusal),
    /// No memory was left.
    Memory,
    /// The disk failed: its count of faults rose.
    Failed,
    /// A file of the disk isn't in its grammar or fails a cross-check.
    Damaged { path: Path },
    /// The source of contents failed: its count of faults rose.
    FarFailed,
    /// A file of the contents' disk isn't in its grammar or fails a cross-check.
    FarDamaged { path: Path },
}

impl From<Fault> for Stop {
    ghost from_gives = { λ fault made. made ≡ stop_of_fault fault };

    fn from(fault: Fault) -> Self {
        match fault {
            Fault::Refused(refusal) => Stop::Refused(refusal),
            Fault::Memory => Stop::Memory,
        }
    }
}

impl From<OutOfMemory> for Stop {
    ghost from_gives = { λ _ made. made ≡ stop.Memory };

    fn from(_: OutOfMemory) -> Self {
        Stop::Memory
    }
}

impl From<AllocError> for Stop {
    ghost from_gives = { λ _ made. made ≡ stop.Memory };

    fn from(_: AllocError) -> Self {
        Stop::Memory
    }
}

impl<T: Drop> From<AllocFailed<T>> for Stop {
    ghost from_gives = { λ _ made. made ≡ stop.Memory };

    fn from(_: AllocFailed<T>) -> Self {
        Stop::Memory
    }
}
