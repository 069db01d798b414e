//! Why a session was stopped.
ghost use Rattle.std.specs.Prelude.{◌≡◌};
ghost use Rattle.repo_serve.specs.Halts.{fault_of, halt_of, stop_of};

use repo_load::cny_base::{Fault, Refusal, Stop, What};

/// Why a session was stopped. It takes no memory to keep, so that it is told again whatever comes.
#[derive(Clone, Copy)]
pub(crate) enum Halt {
    /// The stream is malformed, as this byte shows.
    Malformed { at: u64 },
    /// A quantity passes its limit, with its size.
    TooLarge { what: What, size: u64 },
    /// The disk failed.
    Failed,
    /// No memory was left, or a content was damaged.
    Memory,
}

impl Halt {
    /// What is kept of a stop.
    pub(crate) fn of(stop: &Stop) -> Self
        ensures { result ≡ halt_of stop.now }
    {
        match stop {
            Stop::Refused(Refusal::Malformed { at }) => Halt::Malformed { at: *at },
            Stop::Refused(Refusal::TooLarge { what, size }) => Halt::TooLarge {
                what: *what,
                size: *size,
            },
            Stop::Failed => Halt::Failed,
            _ => Halt::Memory,
        }
    }

    /// The stop that is told.
    pub(crate) fn stop(self) -> Stop
        ensures { result ≡ stop_of self }
    {
        match self {
            Halt::Malformed { at } => Stop::Refused(Refusal::Malformed { at }),
            Halt::TooLarge { what, size } => Stop::Refused(Refusal::TooLarge { what, size }),
            Halt::Failed => Stop::Failed,
            Halt::Memory => Stop::Memory,
        }
    }

    /// The fault that is told at the end.
    pub(crate) fn fault(self) -> Fault
        ensures { result ≡ fault_of self }
    {
        match self {
            Halt::Malformed { at } => Fault::Refused(Refusal::Malformed { at }),
            Halt::TooLarge { what, size } => Fault::Refused(Refusal::TooLarge { what, size }),
            Halt::Failed | Halt::Memory => Fault::Memory,
        }
    }
}
