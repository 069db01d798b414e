//! The rollback stack: for each job the record of how it is taken back, and the contents that it replaced; jobs are pushed on it,
//! read from the newest down, tested against the tree, and taken back in that order. What takes a job back puts each of its paths
//! as it stood before, or the first edited path is told, and at every moment of a push the root stores what it stored.
#![tactic(auto)]

mod back;
mod clearing;
mod database;
mod entries;
mod job_marks;
mod job_reading;
mod jobs;
mod laws;
mod migration;
mod numbers;
mod pushing;
mod saving;
mod saving_laws;
mod stack;
mod taking_back;
mod undo;

pub use database::db_below;
pub use entries::changes_of;
pub use job_reading::{Job, read_job};
pub use job_targets::{
    Entries, Entry, change_set, cny_base, content_store, journal_log, stashable, tree_disk,
    trove_parts, trove_stream,
};
pub use laws::one_record;
pub use migration::migrated;
pub use numbers::next_number;
pub use pushing::push_puts;
pub use saving::save_job;
pub use saving_laws::saving_keeps_system;
pub use stack::all;
pub use taking_back::inverse_to;
pub use undo::{Back, NotedJob, NotedJobs, TroveIds};
