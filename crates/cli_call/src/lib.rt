//! A call of the program, but for its commands: the two disks are opened, the input is read, what a command answers is written, and
//! its end is reported. Such a call keeps all its promises whatever the command means, on status, texts, both disks, crashes and
//! readers.
//!
//! Begin with `specs/Command` (the clause of each command's own function) and `specs/Runs` (a call by its steps). What a whole call
//! promises is told by `cny_laws`. What an input decides, for commands of the root and of the repository, is in `specs/SetInput` and
//! `specs/ManifestInput`.
#![tactic(auto)]

mod input;
mod laws;
mod no_disk;
mod opening;
mod reporting;
mod stops;
mod texts;
mod writing;

pub use cny_laws::system_core::{
    change_set, cny_base, content_store, tree_disk, trove_parts, trove_stream,
};
pub use cny_laws::{Failure, Opened, system_core};
pub use input::read_given;
pub use laws::store_laws;
pub use no_disk::NoDisk;
pub use opening::{open_disks, open_for_root};
pub use reporting::report;
pub use stops::{on_repository, on_root};
pub use texts::joined;
pub use writing::write_answer;
