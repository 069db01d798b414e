//! Items of a binary stream, also of one that comes in pieces of any length, and file records with their owners in two encodings, whose id is
//! the SHA-1 of the compact bytes. Reading and writing are exact both ways, and for every cut a fault is told exactly where it is decided.
#![tactic(auto)]

mod cutter;
mod encoding;
mod item;
mod laws;
mod owner;
mod push;
mod reading;
mod record;
mod record_laws;
mod writing;

pub use cutter::{Cutter, Event, Step};
pub use encoding::Encoding;
pub use item::{Item, OpenItem, close_item, next_item, one_item, open_item, put_item};
pub use laws::item_faults;
pub use owner::Owner;
pub use reading::{decode, decode_as, decode_full};
pub use record::{FileRec, Flags};
pub use record_laws::{distinct_records, small_contents};
pub use writing::{encode, encode_as, encode_full, file_id};
