//! What commands write as texts: refusals, change sets, troves and lists of them, and what jobs, rollbacks and verifications did or
//! found. Each text equals its definition.
#![tactic(auto)]

mod changes;
mod digits;
mod jobs;
mod lines;
mod note;
mod records;
mod refusals;
mod troves;
mod verified;

pub use changes::change_text;
pub use jobs::{changes_text, rolled_back_text, undos_text};
pub use note::{Note, Notes};
pub use records::trove_text;
pub use refusals::refusal_text;
pub use troves::{committed_text, named_text, troves_text};
pub use update_job::{change_set, cny_base, cny_stream, trove_parts, trove_stream};
pub use verified::verified_text;
