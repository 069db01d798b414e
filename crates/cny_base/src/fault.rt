//! Why a call of a source or a sink didn't do its work.
ghost use Rattle.std.specs.Prelude.{◌≡◌};
ghost use Rattle.cny_base.specs.declared.fault.FlowFault.TheVariants.{Memory};

use std::alloc::{AllocError, AllocFailed};

/// Why bytes didn't come or go.
#[derive(Clone, Copy)]
pub enum FlowFault {
    /// The source or sink failed: its count of faults rose.
    Failed,
    /// No memory was left.
    Memory,
}

impl From<AllocError> for FlowFault {
    ghost from_gives = { λ _ e. e ≡ Memory };

    fn from(_: AllocError) -> Self {
        FlowFault::Memory
    }
}

impl<T: Drop> From<AllocFailed<T>> for FlowFault {
    ghost from_gives = { λ _ e. e ≡ Memory };

    fn from(_: AllocFailed<T>) -> Self {
        FlowFault::Memory
    }
}
