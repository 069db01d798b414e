//! The journal of a disk: a write set takes effect as a whole at the write of one byte, or not at all. Whenever a crash comes, also
//! during a recovery, the tree recovers to the one before or the one after, and readers see at each path the node before or the
//! node after.
#![tactic(auto)]

mod blocked;
mod copying;
mod directory;
mod emptying;
mod flag;
mod found;
mod moving;
mod passes;
mod recovered;
mod recovery;
mod staging;
mod unstaged;
mod writing;

pub use directory::make_dir;
pub use emptying::clear_stage;
pub use journal_log;
pub use journal_log::{Put, Puts, Want, cny_base, tree_disk};
pub use recovered::recover_disk;
pub use recovery::recover;
pub use writing::apply;
