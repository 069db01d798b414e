//! What a job makes of each path that it may change: the conflict table, over what the old and the new list of troves record and
//! what stands. Just the paths that the table names change, each to its target, or the first refusal is told; there is one such
//! answer, and planning only reads.
#![tactic(auto)]

mod drafting;
mod entries;
mod laws;
mod making;
mod orphans;
mod planned;
mod planning;
mod records;
mod settling;
mod table;

pub use laws::one_plan;
pub use planned::{Planned, PlannedList};
pub use planning::plan;
pub use table::{Outcome, outcome_of};
