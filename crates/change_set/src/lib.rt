//! Change sets: troves and relative troves with contents of their files, and their one stream. The stream is exact both ways, and
//! other bytes are refused with their first fault, by kind and place.
#![tactic(auto)]

mod change;
mod contents;
mod items;
mod laws;
mod parts;
mod reading;
mod recorded;
mod writing;

pub use change::{Carried, CarriedList, ChangeSet, Part, Parts};
pub use items::{CONTENT, CONTENT_TAGS, END, PART_TAGS, RELATIVE, TROVE};
pub use laws::{one_fault, unique_set};
pub use parts::part_of;
pub use reading::decode;
pub use recorded::Index;
pub use trove_stream;
pub use trove_stream::{cny_base, cny_stream, trove_parts};
pub use writing::encode;
