//! Which system a root tree stores: its tree, its installed troves and its stack of jobs, what the record of a job says, and what a
//! job, a rollback and a migration make of it; and its database, read and written: the installed troves, and the numbers of its
//! stack. One tree tells one system, and the database is loaded where its file is one, in format 1 or 2, and damaged exactly where
//! it isn't.
#![tactic(auto)]

mod change;
mod db;
mod format;
mod laws;
mod loading;
mod names;
mod reading;
mod record;
mod recorded;
mod sharing;
mod staging;
mod steps;
mod writing;

pub use change::PathChange;
pub use content_store;
pub use db::Db;
pub use format::Format;
pub use laws::{checked_records, distinct_databases, empty_root, one_system, recovered_system};
pub use loading::{decode_file, load};
pub use names::{base_path, database_path, record_path, saved_path};
pub use reading::{are_allowed, are_roots, decode, is_allowed, most_bytes, read_trove};
pub use record::{Delta, Deltas, Record, Told, ToldEntries, ToldEntry};
pub use recorded::mark_of_record;
pub use staging::stage;
pub use steps::{
    migrated_system, prepared_system, puttable_writes, system_after_job, system_after_rollback,
};
pub use tree_journal::{journal_log, make_dir, tree_disk};
pub use trove_stream;
pub use trove_stream::{Installed, cny_base, cny_stream, trove_parts};
pub use writing::{encode, encode_within, put_value};
