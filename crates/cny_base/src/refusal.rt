//! Why a command is refused.
ghost use Rattle.std.specs.Prelude.{◌≡◌};
ghost use Rattle.cny_base.specs.declared.refusal.Fault.TheVariants as fault;

use crate::text::{OutOfMemory, Text};
use std::alloc::{AllocError, AllocFailed};

/// A quantity that has a limit.
#[derive(Clone, Copy)]
pub enum What {
    /// The whole input of a command.
    Input,
    /// One content of a manifest or change set.
    Content,
    /// A file of the tree that a job replaces or that is to be carried.
    Local,
    /// The database file.
    Database,
    /// The configuration file.
    Config,
    /// The number of commits.
    Commits,
    /// A part of a revision's count.
    Count,
    /// The text of a version.
    Version,
    /// A change set that is written.
    ChangeSet,
    /// The number of a job.
    Jobs,
    /// A stream of requests, or one of replies.
    Message,
    /// The system model file.
    Model,
}

/// Why a command is refused. A refusal leaves everything as it was.
pub enum Refusal {
    /// The input isn't in its grammar; `at` is the byte at which that shows.
    Malformed {
        at: u64,
    },
    /// A quantity passes its limit; `size` is its size, in the quantity's unit.
    TooLarge {
        what: What,
        size: u64,
    },
    /// The trove is there already.
    Exists {
        trove: Text,
    },
    /// Nothing resolves the specification.
    MissingTrove {
        spec: Text,
    },
    /// The trove on which a relative trove is based isn't there.
    MissingBase {
        trove: Text,
    },
    /// A needed content is found nowhere; `name` is its SHA-1.
    MissingContent {
        name: [u8; 20],
    },
    /// Two different contents have one name; `at` is their first difference.
    Collision {
        name: [u8; 20],
        at: u64,
    },
    /// A committed trove refers to one that is neither committed nor in the input.
    MissingRef {
        name: Text,
    },
    /// The named trove isn't installed.
    NotInstalled {
        name: Text,
    },
    /// The first requirement that nothing satisfies.
    Unmet {
        name: Text,
        dep: Text,
    },
    /// Two troves have one path that isn't a directory in both.
    Owned {
        path: Text,
        first: Text,
        second: Text,
    },
    /// Something that no trove has stands at the path.
    Unowned {
        path: Text,
    },
    /// What stands at the path was changed since it was installed.
    Edited {
        path: Text,
    },
    /// The parent of the path isn't a directory.
    Parent {
        path: Text,
    },
    /// There is no job to roll back.
    StackEmpty,
    /// The path is kept for the program itself.
    Reserved {
        path: Text,
    },
    /// A specification without label or version meets an empty label path.
    NoLabel,
    /// A trove that is to be shadowed or branched is on that label.
    SameLabel {
        label: Text,
    },
    /// A line of the configuration file isn't in its grammar; lines count from 1.
    BadConfig {
        line: u32,
    },
    /// There are jobs to roll back, but none of this number.
    NoJob {
        number: u32,
    },
    /// There is no system model file.
    NoModel,
    /// A line of the system model file isn't in its grammar; lines count from 1.
    BadModel {
        line: u32,
    },
}

// Written by hand, so that to let a refusal go is a single call wherever a function ends early.
impl Drop for Refusal {
    fn drop(self) {
        match self {
            Refusal::Malformed { at: _ } => (),
            Refusal::TooLarge { what: _, size: _ } => (),
            Refusal::Exists { trove: _trove } => (),
            Refusal::MissingTrove { spec: _spec } => (),
            Refusal::MissingBase { trove: _trove } => (),
            Refusal::MissingContent { name: _ } => (),
            Refusal::Collision { name: _, at: _ } => (),
            Refusal::MissingRef { name: _name } => (),
            Refusal::NotInstalled { name: _name } => (),
            Refusal::Unmet {
                name: _name,
                dep: _dep,
            } => (),
            Refusal::Owned {
                path: _path,
                first: _first,
                second: _second,
            } => (),
            Refusal::Unowned { path: _path } => (),
            Refusal::Edited { path: _path } => (),
            Refusal::Parent { path: _path } => (),
            Refusal::StackEmpty => (),
            Refusal::Reserved { path: _path } => (),
            Refusal::NoLabel => (),
            Refusal::SameLabel { label: _label } => (),
            Refusal::BadConfig { line: _ } => (),
            Refusal::NoJob { number: _ } => (),
            Refusal::NoModel => (),
            Refusal::BadModel { line: _ } => (),
        }
    }
}

/// A refusal, or want of memory.
#[derive(Drop)]
pub enum Fault {
    /// The command is refused.
    Refused(Refusal),
    /// No memory was left.
    Memory,
}

impl From<OutOfMemory> for Fault {
    ghost from_gives = { λ _ e. e ≡ fault.Memory };

    fn from(_: OutOfMemory) -> Self {
        Fault::Memory
    }
}

impl From<AllocError> for Fault {
    ghost from_gives = { λ _ e. e ≡ fault.Memory };

    fn from(_: AllocError) -> Self {
        Fault::Memory
    }
}

impl<T: Drop> From<AllocFailed<T>> for Fault {
    ghost from_gives = { λ _ e. e ≡ fault.Memory };

    fn from(_: AllocFailed<T>) -> Self {
        Fault::Memory
    }
}
