//! A directory's tree as a manifest, written to a sink in pieces, with no file whole in memory. What is written to its end is a spelling of
//! a manifest behind the words that were given, and over a disk that tells its tree its entries are just the nodes of that tree.
#![tactic(auto)]

mod content;
mod entry;
mod head;
mod judge;
mod lines;
mod owners;
mod pack;
mod pattern;
mod plan;
mod stop;
mod walk;

pub use head::{DepWords, Words};
pub use manifest_troves::cny_stream;
pub use owners::Owners;
pub use pack::write_manifest;
pub use pattern::Pattern;
pub use plan::Rules;
pub use stop::{BadWord, PackStop, Unfit};
pub use tree_disk;
pub use tree_disk::cny_base;
pub use walk::{Seen, find_all};
