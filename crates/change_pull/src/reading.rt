//! What was read of a change set so far.
use crate::item::Item;
use crate::staged::Staged;
use change_set::{Index, Part};
use cny_stream::Cutter;

/// `CNYCS01` and a line feed.
pub(crate) const MAGIC: [u8; 8] = *b"CNYCS01\n";

/// What was read of a change set, as long as nothing is decided.
#[derive(Drop)]
pub(crate) struct Reading {
    pub cutter: Cutter,
    // How many bytes were given, and at which of them the item begins that isn't whole.
    pub given: u64,
    pub start: u64,
    pub parts: Vec<Part>,
    pub index: Index,
    pub staged: Vec<Staged>,
    pub item: Item,
    // Whether the end item was there.
    pub ended: bool,
}
