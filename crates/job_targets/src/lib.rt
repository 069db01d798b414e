//! The write set of a job, and what stood at its paths, made from the job's plan: where the content of each file is found that is
//! to stand, and whether what stands can be saved under its SHA-1. Contents and refusals equal their definitions, in the order of
//! the tests, and root and contents are only read.
//!
//! Begin with `specs/Contents`: where a content is found. `specs/Targets` has the writes and what stood, `specs/Outcome` the tests in
//! their order, `specs/Old` what a fingerprint and the saved contents tell of what stood at a path.
#![tactic(auto)]

mod agreeing;
mod carried;
mod content;
mod entries;
mod entry;
mod laws;
mod marks;
mod old;
mod puts;
mod rising;
mod sizes;
mod targets;

pub use agreeing::{old_bytes, stashable};
pub use carried::{Carries, InMemory};
pub use change_pull;
pub use change_set;
pub use content_store;
pub use entry::{Entries, Entry};
pub use laws::planned_is_seen;
pub use local_db::{cny_base, cny_stream, journal_log, tree_disk, trove_parts, trove_stream};
pub use marks::mark_of;
pub use old::old_node;
pub use rising::are_rising;
pub use targets::{Targets, targets_by, targets_of};
