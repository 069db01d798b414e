//! Why a line has no answer.
use cny_report::cny_base::{OutOfMemory, TextFault};
use std::alloc::{AllocError, AllocFailed};

/// Why a line has no answer. It ends the program.
#[derive(Clone, Copy)]
pub enum Stop {
    /// It names no call, or its arguments aren't what the call takes.
    Unreadable,
    /// No memory was left.
    Memory,
}

impl From<OutOfMemory> for Stop {
    fn from(_: OutOfMemory) -> Self {
        Stop::Memory
    }
}

impl From<AllocError> for Stop {
    fn from(_: AllocError) -> Self {
        Stop::Memory
    }
}

impl<T: Drop> From<AllocFailed<T>> for Stop {
    fn from(_: AllocFailed<T>) -> Self {
        Stop::Memory
    }
}

// What a text has to be, as an argument of a call that takes only such.
impl From<TextFault> for Stop {
    fn from(fault: TextFault) -> Self {
        match fault {
            TextFault::Bad => Stop::Unreadable,
            TextFault::Memory => Stop::Memory,
        }
    }
}
