//! Write sets of a tree, the log of the journal that holds one, and files that are streams of items. A log has one spelling, exact both ways,
//! and so have the numbers of its staged files; a file that is longer than its own items tell is never read.
#![tactic(auto)]

mod decode;
mod encode;
mod named;
mod numbering;
mod put;
mod ranges;
mod read_put;
mod rules;
mod search;
mod staged;
mod walk;

pub use decode::decode_log;
pub use encode::encode_log;
pub use named::can_be_named;
pub use numbering::numbered;
pub use put::{Put, Puts, Want};
pub use ranges::put_ranges;
pub use read_put::read_mode;
pub use rules::keeps_rules;
pub use staged::{StagedNumbers, is_staged_path, staged_path};
pub use tree_disk;
pub use tree_disk::cny_base;
pub use walk::read_stream;
