//! Contents of files, each kept once in a directory, under the name that a digest gives it. What was put is what is got, and since
//! the digest is never trusted, a collision is answered exactly where other bytes stand.
#![tactic(auto)]

mod compare;
mod contents;
mod difference;
mod getting;
mod keep;
mod move_in;
mod name_file;
mod namer;
mod path_of;
mod putting;

pub use contents::{Contents, FarStop, NoContents};
pub use difference::difference as first_difference;
pub use getting::{clear, file_at, get, has};
pub use namer::{ByteNamer, Namer, Sha1Namer};
pub use path_of::names_apart;
pub use putting::{put, put_file};
