//! Why a pull was stopped.
ghost use Rattle.std.specs.Prelude.{◌≡◌};
ghost use Rattle.change_pull.specs.Halts.{fault_of, stop_of};
ghost use Rattle.change_pull.specs.declared.halt.Halt.TheVariants as halts;

use change_set::cny_base::{Fault, OutOfMemory, Refusal, Stop, What};
use std::alloc::{AllocError, AllocFailed};

/// Why a pull was stopped. It takes no memory to keep, so that it is told again whatever comes.
#[derive(Clone, Copy)]
pub(crate) enum Halt {
    /// The stream is malformed, as this byte shows.
    Malformed { at: u64 },
    /// A content is too large, with its size.
    TooLarge { size: u64 },
    /// The disk failed.
    Failed,
    /// No memory was left.
    Memory,
}

impl Halt {
    /// The stop that is told.
    pub(crate) fn stop(self) -> Stop
        ensures { result ≡ stop_of self }
    {
        match self {
            Halt::Malformed { at } => Stop::Refused(Refusal::Malformed { at }),
            Halt::TooLarge { size } => Stop::Refused(Refusal::TooLarge {
                what: What::Content,
                size,
            }),
            Halt::Failed => Stop::Failed,
            Halt::Memory => Stop::Memory,
        }
    }

    /// The fault that is told at the end.
    pub(crate) fn fault(self) -> Fault
        ensures { result ≡ fault_of self }
    {
        match self {
            Halt::Malformed { at } => Fault::Refused(Refusal::Malformed { at }),
            Halt::TooLarge { size } => Fault::Refused(Refusal::TooLarge {
                what: What::Content,
                size,
            }),
            Halt::Failed | Halt::Memory => Fault::Memory,
        }
    }
}

impl From<OutOfMemory> for Halt {
    ghost from_gives = { λ _ made. made ≡ halts.Memory };

    fn from(_: OutOfMemory) -> Self {
        Halt::Memory
    }
}

impl From<AllocError> for Halt {
    ghost from_gives = { λ _ made. made ≡ halts.Memory };

    fn from(_: AllocError) -> Self {
        Halt::Memory
    }
}

impl<T: Drop> From<AllocFailed<T>> for Halt {
    ghost from_gives = { λ _ made. made ≡ halts.Memory };

    fn from(_: AllocFailed<T>) -> Self {
        Halt::Memory
    }
}
