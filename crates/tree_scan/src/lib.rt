//! What stands in a tree: its fingerprints, whether it is what a record describes, and in how many bytes it differs from a content.
//! All three equal their definitions, and the disk is only read.
#![tactic(auto)]

mod counting;
mod laws;
mod mark;
mod pieces;
mod scanning;
mod verification;

pub use counting::differing;
pub use laws::distinct_marks;
pub use mark::{Mark, are_same_marks, mark_file};
pub use scanning::{mark_at, matches};
pub use tree_disk;
pub use verification::{Finding, Findings, Found, Verified};
