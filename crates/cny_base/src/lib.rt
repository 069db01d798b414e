//! Paths, names, modes and numbers with their texts, nodes of a tree, why a call stops, where bytes come from and go to, and how slices are
//! compared. A text is read exactly where it is in its grammar, a copy equals what it was made from, bytes that moved and faults are told.
#![tactic(auto)]

mod bytes;
mod compare;
mod fault;
mod flow;
mod kernel;
mod limits;
mod list;
mod memory_sink;
mod memory_source;
mod mode;
mod name;
mod node;
mod number;
mod options;
mod path;
mod path_grammar;
mod refusal;
mod schedule;
mod std_sink;
mod std_source;
mod stop;
mod str_field;
mod target;
mod text;

pub use bytes::Bytes;
pub use compare::{count_different, equal, first_difference};
pub use fault::FlowFault;
pub use flow::{Sink, Source};
pub use limits::{
    CHANGE_SET_LIMIT, COMMITS_LIMIT, CONFIG_LIMIT, CONTENT_ITEM_LIMIT, CONTENT_LIMIT, COUNT_LIMIT,
    DATABASE_LIMIT, DEPS_LIMIT, FILES_LIMIT, FORMAT_1_DATABASE_LIMIT, INPUT_LIMIT, JOBS_LIMIT,
    MESSAGE_LIMIT, NAME_LIMIT, PARTS_LIMIT, REFS_LIMIT, STACK_LIMIT, VERSION_LIMIT,
};
pub use list::{Copies, Fails, ListOf, Names, Paths, copies_of};
pub use memory_sink::MemorySink;
pub use memory_source::MemorySource;
pub use mode::{Mode, octal, read_octal};
pub use name::{Name, NameKind, begins_alphanumeric, is_word};
pub use node::Node;
pub use number::{decimal, read_decimal};
pub use options::Options;
pub use path::Path;
pub use path_grammar::{last_name, parent_of};
pub use refusal::{Fault, Refusal, What};
pub use schedule::Schedule;
pub use std_sink::StdSink;
pub use std_source::StdSource;
pub use stop::Stop;
pub use str_field::{Span, next_str, put_str};
pub use target::Target;
pub use text::{OutOfMemory, Text, TextFault, text_of};
