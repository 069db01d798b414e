//! The words of the command line: which command they are, or which call of several lines, a batch or the demo. What is read is exactly
//! what the words mean, and all others are usage.
//!
//! `specs/Words` says which lists of words are commands, and `specs/Calls` which call several lines.
#![tactic(auto)]

mod call_words;
mod words;

pub use call_words::{Call, read_call};
pub use words::{Command, NameList, SpecList, read_words, some_words};
