//! The limits that several crates share, each stated once.
//!
//! A definition cites a limit by `use Rattle.cny_base.specs.declared.limits.TheConstants.{FILES_LIMIT}`.

/// The most bytes of the name of a trove.
pub const NAME_LIMIT: usize = 255;

/// The most bytes of a command's input.
pub const INPUT_LIMIT: usize = 268_435_456;

/// The most bytes of a content: in a manifest, in a change set, and of a file that a job replaces or that is to be carried.
pub const CONTENT_LIMIT: u32 = 16_777_216;

/// The most bytes of the value of a content's item in a change set: a name of 20 bytes and a content.
pub const CONTENT_ITEM_LIMIT: u32 = CONTENT_LIMIT + 20;

/// The most bytes of the database file.
pub const DATABASE_LIMIT: usize = 536_870_912;

/// The most bytes of a database file of format 1, and in that format of a database whose list a record of format 1 gives back.
pub const FORMAT_1_DATABASE_LIMIT: usize = 268_435_456;

/// The most bytes of a change set that is written.
pub const CHANGE_SET_LIMIT: usize = 268_435_456;

/// The most bytes of a stream of requests, and of one of replies.
pub const MESSAGE_LIMIT: usize = 268_435_456;

/// The most parts of a change set.
pub const PARTS_LIMIT: usize = 4_096;

/// The most files of a trove, and of items of a manifest.
pub const FILES_LIMIT: usize = 65_535;

/// The most references of a trove.
pub const REFS_LIMIT: usize = 65_535;

/// The most requirements of a trove, and the most that it provides.
pub const DEPS_LIMIT: usize = 4_096;

/// The most bytes of the text of a version.
pub const VERSION_LIMIT: usize = 512;

/// The greatest number in a part of a revision's count.
pub const COUNT_LIMIT: u32 = 4_294_967_295;

/// The most commits.
pub const COMMITS_LIMIT: u32 = 4_294_967_295;

/// The most bytes of the configuration file, and of the system model file.
pub const CONFIG_LIMIT: usize = 65_536;

/// The greatest number of a job.
pub const JOBS_LIMIT: u32 = 4_294_967_295;

/// The most jobs on the stack.
pub const STACK_LIMIT: usize = 4_096;
