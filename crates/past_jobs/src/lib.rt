//! Jobs that are taken back, as values: the installed list before each of them, by the deltas of its record, and the fingerprints
//! that stand once they are taken back, newest first. A list leads to exactly the one before the job or to none, and whether a job can
//! be taken back next is told exactly, with the first path that was edited or would lack its directory.
#![tactic(auto)]

mod checking;
mod edits;
mod foreign;
mod found;
mod obstacles;
mod parents;
mod past_list;
mod past_marks;
mod search;
mod table;
mod taking;
mod turning;

pub use checking::check_undo;
pub use found::{FoundMark, FoundMarks, take_back};
pub use past_list::{Changed, PastList, TroveIds};
pub use search::are_rising;
