//! The program: the words of the command line, what they call, and what that does over a source, two sinks and two disks. The words
//! are read as the command that they are, as a batch or the demo, which are several lines, or as usage, and `run` does what the
//! command or each of the lines means, and nothing where there is none. `run_line` does what one line means.
//!
//! `specs/Words` says which lists of words are commands, and why the others are none, `specs/Calls` which call several lines, and
//! `specs/Several` what a call of several lines promises. `entry` hands the words, the standard streams and two disks to `run`.
#![tactic(auto)]

mod commands;
mod entry;
mod laws;
mod line_alone;
mod lines;
mod program;
mod several;

pub use cli_words;
pub use cny_batch;
pub use entry::start;
pub use laws::call_laws;
pub use line_alone::run_line;
pub use program::run;
pub use repo_commands;
pub use root_commands::cli_call;
