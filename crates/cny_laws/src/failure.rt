//! Why a call of the program ends with a status other than 0.
ghost use Rattle.std.specs.Prelude.{◌≡◌};
ghost use Rattle.cny_laws.specs.Failures.{failure_of_fault};
ghost use Rattle.cny_laws.specs.declared.failure.Failure.TheVariants as failure;

use std::alloc::{AllocError, AllocFailed};
use system_core::cny_base::{Fault, OutOfMemory, Path, Refusal};

/// Why a call ends with a status other than 0.
#[derive(Drop)]
pub enum Failure {
    /// The words are no command.
    Usage,
    /// The command is refused, and changed nothing but what a recovery brought to its end.
    Refused(Refusal),
    /// The input failed.
    InputFault,
    /// The standard output failed.
    OutputFault,
    /// The disk of the root failed.
    RootFault,
    /// The disk of the repository failed.
    RepositoryFault,
    /// No memory was left.
    Memory,
    /// A file of the program's own isn't in its grammar or fails a cross-check.
    Damaged { path: Path },
}

impl From<Fault> for Failure {
    ghost from_gives = { λ fault made. made ≡ failure_of_fault fault };

    fn from(fault: Fault) -> Self {
        match fault {
            Fault::Refused(refusal) => Failure::Refused(refusal),
            Fault::Memory => Failure::Memory,
        }
    }
}

impl From<OutOfMemory> for Failure {
    ghost from_gives = { λ _ e. e ≡ failure.Memory };

    fn from(_: OutOfMemory) -> Self {
        Failure::Memory
    }
}

impl From<AllocError> for Failure {
    ghost from_gives = { λ _ e. e ≡ failure.Memory };

    fn from(_: AllocError) -> Self {
        Failure::Memory
    }
}

impl<T: Drop> From<AllocFailed<T>> for Failure {
    ghost from_gives = { λ _ e. e ≡ failure.Memory };

    fn from(_: AllocFailed<T>) -> Self {
        Failure::Memory
    }
}
