//! Why a manifest isn't written, or not to its end.
ghost use Rattle.std.specs.Prelude.{◌≡◌};
ghost use Rattle.cny_pack.specs.declared.stop.Halt.TheVariants as halt;
ghost use Rattle.cny_pack.specs.declared.stop.PackStop.TheVariants as pack;
ghost use Rattle.cny_pack.specs.Stops as spec;
ghost use Rattle.tree_disk.specs.Steps.{IsDiskStop};

use std::alloc::{AllocError, AllocFailed};
use tree_disk::cny_base::{FlowFault, OutOfMemory, Path, Stop};

/// Which of the words isn't in its grammar, or can't stand in a line.
#[derive(Clone, Copy)]
pub enum BadWord {
    Name,
    Version,
    Flavor,
    /// A component or a dependency of what is required.
    Requires,
    /// A component or a dependency of what is provided.
    Provides,
}

/// Why what stands at a path can't be in a manifest.
#[derive(Clone, Copy)]
pub enum Unfit {
    /// A file has more bytes than a content may have.
    TooLarge { size: u64 },
    /// No trove may record the path: it is the program's own, or one of those above it and no directory.
    Reserved,
    /// The file has another size now than when it was looked at.
    Changed,
    /// Nobody tells who owns it.
    NoOwner,
}

/// Why a manifest isn't written, or not to its end.
#[derive(Drop)]
pub enum PackStop {
    /// A word isn't in its grammar.
    Word(BadWord),
    /// What stands at the path can't be in a manifest.
    Unfit { path: Path, why: Unfit },
    /// The troves would break the rules of troves: there are too many entries, a component would get too long a name, or the
    /// version has a build count where none may be, or lacks one.
    NoTroves,
    /// The disk failed: its count of faults rose.
    DiskFailed,
    /// The sink failed: its count of faults rose.
    SinkFailed,
    /// No memory was left.
    Memory,
}

impl From<OutOfMemory> for PackStop {
    ghost from_gives = { λ _ e. e ≡ pack.Memory };

    fn from(_: OutOfMemory) -> Self {
        PackStop::Memory
    }
}

impl From<AllocError> for PackStop {
    ghost from_gives = { λ _ e. e ≡ pack.Memory };

    fn from(_: AllocError) -> Self {
        PackStop::Memory
    }
}

impl<T: Drop> From<AllocFailed<T>> for PackStop {
    ghost from_gives = { λ _ e. e ≡ pack.Memory };

    fn from(_: AllocFailed<T>) -> Self {
        PackStop::Memory
    }
}

/// Why an entry isn't written.
#[derive(Clone, Copy)]
pub(crate) enum Halt {
    Unfit(Unfit),
    DiskFailed,
    SinkFailed,
    Memory,
}

impl From<OutOfMemory> for Halt {
    ghost from_gives = { λ _ e. e ≡ halt.Memory };

    fn from(_: OutOfMemory) -> Self {
        Halt::Memory
    }
}

impl From<FlowFault> for Halt {
    ghost from_gives = { λ fault e. e ≡ spec.halt_of_flow fault };

    fn from(fault: FlowFault) -> Self {
        match fault {
            FlowFault::Failed => Halt::SinkFailed,
            FlowFault::Memory => Halt::Memory,
        }
    }
}

/// What a step over the disk that stopped makes of what is above it: it failed, or no memory was left.
pub(crate) fn by_step<E: Drop>(stop: Stop, failed: E, memory: E) -> E
    requires { IsDiskStop stop }
    ensures { result ≡ spec.by_step failed memory stop }
{
    match stop {
        Stop::Failed => failed,
        Stop::Memory => memory,
        _ => unreachable!(),
    }
}
