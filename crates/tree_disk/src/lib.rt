//! A disk that holds one tree of directories, files and links. It says what each call does, what a crash may leave, and what a
//! reader sees meanwhile; whole files, cleared directories and written files stand on it for any disk.
#![tactic(auto)]

mod clear;
mod disk;
mod pieces;
mod ranges;
pub mod steps;
mod whole;
mod write;

pub use clear::clear_tree;
pub use cny_base;
pub use disk::{DiskStop, Look, TreeDisk};
pub use pieces::{PIECE, piece_room, room_for};
pub use ranges::{byte_ranges, node_ranges};
pub use whole::read_whole;
pub use write::{make_file, write_file};
