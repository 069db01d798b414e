//! What an administrator changed of a root: whether its tree is as the installed troves record, and the local changes as a change
//! set, which leads to new troves on the branch `local@local:LOCAL` that record what stands. What differs is told exactly, each
//! refusal comes in its order, and tree and contents are only read.
//!
//! Begin with the definitions: `specs/Verify` (what is found at a recorded path, and of a list of troves), and of local changes
//! `specs/Reached` (the troves), `specs/Moved` (their ids and references), `specs/Standing` (their files and the contents that are
//! carried) and `specs/Local` (the set, and why there is none).
#![tactic(auto)]

mod asked;
mod changing;
mod finding;
mod moving;
mod reaching;
mod standing;
mod verifying;

pub use changing::local;
pub use update_job::{change_set, cny_base, trove_stream};
pub use verifying::verify;
