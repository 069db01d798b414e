//! A repository on a disk: which files store its state, the file of a commit, and the laws of a further commit; its catalogue and
//! its contents are read. What is loaded is the catalogue of the commits that the tree holds, or the first damaged file is named,
//! and a content that is read has its name's SHA-1 and a recorded size.
//!
//! Begin with the definitions: `specs/State` (commits and contents), `specs/Files` (which tree stores a state), `specs/Damage` (which
//! file is damaged) and `specs/Steps` (what a commit makes of a state). Then `loading` and `contents`. In the order in which each
//! stands on the ones before it: `commit_reading` (the bytes of a commit), `reading` (its file), `joining` (a commit joined to the
//! catalogue), `resolving` (references), `loading` (all commits), `counting` (how many troves each has). By themselves stand
//! `contents`, and above it `repo_contents` (a repository as a source of contents).
#![tactic(auto)]

mod catalogues;
mod commit_reading;
mod contents;
mod counting;
mod frames;
mod joining;
mod laws;
mod loading;
mod names;
mod reading;
mod repo_contents;
mod resolving;
mod state_laws;
mod writing;

pub use catalogues::{catalogue_after_commit, same_for_the_journal};
pub use commit_reading::{Troves, decode_commit};
pub use content_store;
pub use contents::content;
pub use counting::{Counts, counts};
pub use frames::{counted_names, prepared_names};
pub use journal_log::tree_disk;
pub use laws::stored_state;
pub use loading::{load, tested};
pub use names::{base_path, commit_path, content_path, contents_path};
pub use repo_contents::RepoContents;
pub use repo_index::{cny_base, cny_stream, trove_parts, trove_stream};
pub use state_laws::{one_commit, one_repository, stored_after_commit};
pub use writing::encode_commit;
