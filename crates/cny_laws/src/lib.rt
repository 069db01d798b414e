//! What a call of a command promises, said of any command: what the two disks store and how they are opened, what a command means,
//! how a call ends, what stands then, and what an edit by others makes of what a root stores. The definitions are the same for
//! each command, and of such an edit it is proved what the root stores, and what it recovers to, after it.
//!
//! Begin with the definitions: `specs/Store` and `specs/Stores` (what a disk stores), `specs/State` (what a command means),
//! `specs/Call` (how the disks are opened) and `specs/WholeCall` (what a whole call promises).
#![tactic(auto)]

mod edits;
mod failure;
mod opened;

pub use edits::{edited_root, edited_system, recovers_edited};
pub use failure::Failure;
pub use opened::Opened;
pub use system_core;
