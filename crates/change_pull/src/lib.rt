//! Change sets that come in pieces of any length: they are decided item by item, and their contents go to files below a directory
//! as they come. For every cut a refusal is that of the whole and is told exactly where it is decided, and the parts with the
//! files' bytes are the whole's change set.
#![tactic(auto)]

mod checks;
mod feeding;
mod halt;
mod incoming;
mod item;
mod laws;
mod pull;
mod reading;
mod staged;
mod write;

pub use incoming::Incoming;
pub use laws::empty_dir;
pub use pull::{Pull, Pulled};
pub use staged::{Staged, StagedList};
