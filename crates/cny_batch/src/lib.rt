//! Batches: lists of commands, each a line of words with an input; and the lines of the demo of so many packages. Of any bytes it is told
//! exactly which lines they are or, where they are no batch, the place of their first fault; each line of the demo is made by itself, and
//! is exactly the line of its place.
//!
//! The demo's commands commit its packages and a group of them in two rounds, install each round, take the second back and verify what
//! stands.
#![tactic(auto)]

mod demo;
mod fault;
mod group;
mod limits;
mod line;
mod package;
mod reading;
mod words;
mod writing;

pub use cny_base;
pub use demo::{line_count, line_of};
pub use limits::LINES_LIMIT;
pub use line::{Line, Lines, Words};
pub use reading::{one_batch, read_batch};
