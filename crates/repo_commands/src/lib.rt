//! The commands of the repository, those that take specifications of troves, those that commit what a specification means on
//! another label, those by which it takes over what it lacks of another one, and the one that describes a change set. Each has its meaning in a file of its own in `specs/`, and a function
//! of which it is proved that it performs this meaning, and that a further command may begin where it is done.
#![tactic(auto)]

mod committing;
mod cooking;
mod laws;
mod listing;
mod mirroring;
mod moving;
mod sending;
mod serving;
mod showing;

pub use committing::{commit_input, commit_set};
pub use cooking::cook_manifest;
pub use laws::mirrored_by_commands;
pub use listing::list_committed;
pub use mirroring::{ask_mirror, take_mirror};
pub use moving::commit_moved;
pub use repo_mirror;
pub use repo_serve;
pub use sending::send_changes;
pub use serving::serve_requests;
pub use showing::show_change_set;
