//! Laws of what the commands mean: that a command has at most one outcome on a state and an input, and what holds of whole histories of
//! calls, edits and crashes. They are functions that do nothing, whose clauses are the laws; `play` makes a history on two disks in memory.
//!
//! Begin with `specs/Machine` (what a call means, without disks and faults) and `specs/Histories` (events, and their fold).
#![tactic(auto)]

mod histories;
mod images;
mod opened;
mod outcomes;
mod played;
mod playing;
mod streams;
mod syncs;

pub use conary_cli;
pub use histories::{
    counted_calls, one_history, one_outcome, one_reading, restored_jobs, root_steps, sound_lists,
};
pub use images::{crash_histories, crash_images};
pub use opened::opened_states;
pub use outcomes::{
    one_commit, one_cook, one_description, one_erasure, one_installation, one_list_committed,
    one_list_installed, one_list_jobs, one_local_change, one_mirror_asking, one_mirror_taking,
    one_moving, one_rollback, one_sending, one_serving, one_sync, one_update, one_update_by_input,
    one_verification, stored_states,
};
pub use played::{played_laws, played_rollbacks};
pub use playing::{Event, play};
pub use syncs::synced_roots;
