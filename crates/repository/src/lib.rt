//! A further commit of a repository on a disk; and the change set that leads from some troves of a repository to others. A commit
//! stands whole or not at all whenever a crash comes, with the first refusal exactly, and a change set has just what the receiver
//! of the old troves lacks.
//!
//! Begin at `committing`. In the order in which each stands on the ones before it: `parts` (the troves that the parts of a change set
//! make), `refs`, `contents` and `colliding` (the tests of references and of contents), `testing` (all tests), `preparing` (what is
//! written before the commit's file), `writing` (the file), `joining` (the catalogue), `committing`. Of a change set begin with
//! `specs/Between` (its parts and contents) and `specs/Damage` (which content can't be sent); its code stands in `between_parts` (what
//! is told of each trove), `names` (which contents are sent), `between_contents` (their bytes), `sizes` (whether these have the sizes of
//! the records) and `sets` (all of it).
#![tactic(auto)]

mod between_contents;
mod between_laws;
mod between_parts;
mod colliding;
mod committing;
mod contents;
mod joining;
mod laws;
mod names;
mod parts;
mod preparing;
mod refs;
mod sets;
mod sizes;
mod staging;
mod storing;
mod testing;
mod writing;

pub use between_laws::{absolute_set, one_set, stored_between};
pub use change_set;
pub use committing::{commit, commit_staged};
pub use joining::TroveIds;
pub use laws::{at_rest, commit_step, kept_files, same_contents};
pub use repo_load::{
    RepoContents, cny_base, cny_stream, content, content_store, counts, load, trove_parts,
    trove_stream,
};
pub use sets::between;
pub use staging::stage;
