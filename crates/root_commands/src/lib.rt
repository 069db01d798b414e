//! The commands of the root: those that only read it, that which takes its jobs back, and those that are jobs. Each has its meaning
//! in a file of its own in `specs/`, and a function of which it is proved that it performs this meaning, that it works on the root
//! alone, and that a further command may begin where it is done.
//!
//! `verify_fully`, `update_specs`, `update_input` and `sync_to_model` read the repository too, and lack the second of these clauses.
#![tactic(auto)]

mod erasing;
mod installing;
mod jobs;
mod listing;
mod local;
mod noting;
mod rolling_back;
mod specified;
mod syncing;
mod updating;
mod verifying;

pub use cli_call;
pub use erasing::erase_troves;
pub use installing::install_manifest;
pub use jobs::list_jobs;
pub use listing::list_installed;
pub use local::change_locally;
pub use rolling_back::roll_back;
pub use specified::update_specs;
pub use syncing::sync_to_model;
pub use updating::update_input;
pub use verifying::{verify_fully, verify_installed};
