//! Jobs and rollbacks on a root: it is made ready for a command, which list follows, the tests in their order, and the one write
//! set that takes the root from the system that it stores to the one after. Whenever the machine stops, the tree recovers to the
//! system before or to the one after, and a refusal changes nothing.
//!
//! Begin with `specs/Job`: the tests of a job in their order. `specs/Lists` says which list follows, `specs/Steps` how a job ends on a
//! disk, and `specs/Answers` what is answered on every disk; `specs/Ready` what each command begins with.
#![tactic(auto)]

mod calls;
mod closure;
mod done;
mod fixed_dirs;
mod inserting;
mod job_writing;
mod last;
mod listed;
mod making_ready;
mod migrating;
mod names;
mod newest_job;
mod opening;
mod preparing;
mod root_writing;
mod running;
mod several_jobs;
mod something;
mod testing;
mod union;

pub use calls::{adopt, erase, update, update_staged};
pub use done::Done;
pub use fixed_dirs::check_fixed_dirs;
pub use job_writing::write_job;
pub use listed::troves_keep_rules;
pub use making_ready::ready;
pub use names::changed_names;
pub use newest_job::rollback;
pub use rollback_stack::{
    change_set, cny_base, content_store, journal_log, tree_disk, trove_parts, trove_stream,
};
pub use root_edits::{local, verify};
pub use root_writing::write_all;
pub use several_jobs::rollback_to;
pub use tree_journal::recover_disk;
