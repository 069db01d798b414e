// Why a call of the host isn't made, or how it failed.
ghost use Rattle.std.specs.Prelude.{◌≡◌};
ghost use Rattle.tree_host.specs.declared.stop.HostStop.TheVariants.{Failed, Memory};

use std::alloc::{AllocError, AllocFailed};
use std::io;
use tree_disk::cny_base::{OutOfMemory, TextFault};

#[derive(Clone, Copy)]
pub(crate) enum HostStop {
    /// The host answered an error, or it holds what no tree has, or the call isn't one that a tree allows.
    Failed,
    /// No memory was left for the call's own work.
    Memory,
}

impl From<io::Error> for HostStop {
    ghost from_gives = { λ _ e. e ≡ Failed };

    fn from(_: io::Error) -> Self {
        HostStop::Failed
    }
}

impl From<OutOfMemory> for HostStop {
    ghost from_gives = { λ _ e. e ≡ Memory };

    fn from(_: OutOfMemory) -> Self {
        HostStop::Memory
    }
}

impl From<AllocError> for HostStop {
    ghost from_gives = { λ _ e. e ≡ Memory };

    fn from(_: AllocError) -> Self {
        HostStop::Memory
    }
}

impl<T: Drop> From<AllocFailed<T>> for HostStop {
    ghost from_gives = { λ _ e. e ≡ Memory };

    fn from(_: AllocFailed<T>) -> Self {
        HostStop::Memory
    }
}

impl From<TextFault> for HostStop {
    fn from(fault: TextFault) -> Self {
        match fault {
            TextFault::Bad => HostStop::Failed,
            TextFault::Memory => HostStop::Memory,
        }
    }
}
