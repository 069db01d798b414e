//! Lines of calls and their answers: what all programs share that read calls from standard input and write what they answer. The
//! reader of a line and the writer of its answer remember their first failure, and a line that isn't a call, and want of memory,
//! end a program with an error.
//!
//! A line is the name of a call and its arguments, with a tab before each. An argument is bytes: a plain text; `0x` and
//! hexadecimal digits; or `=` and terms, with a `+` between two. A list has a semicolon between two of its parts, each in the
//! same form, and is empty where the argument is.
#![tactic(auto)]

mod answer;
mod argument;
mod first_stop;
mod line;
mod node_text;
mod nodes;
mod outcomes;
mod program;
mod stop;
mod terms;
mod value;
mod why;

pub use answer::Answer;
pub use argument::{Argument, arguments_of};
pub use cny_dep;
pub use cny_report;
pub use cny_version;
pub use line::Line;
pub use outcomes::Outcomes;
pub use program::{Calls, answer_all};
pub use stop::Stop;
pub use terms::bytes_of;
pub use tree_scan;
pub use value::Value;
pub use why::Why;
