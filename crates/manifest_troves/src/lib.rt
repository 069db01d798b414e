//! What the lines of a manifest make: a component, a package with its components, or a group; and the contents of their files. The
//! troves equal their definition, with no entry lost, or the first rule that one of them breaks is told, and the first two contents
//! that collide.
#![tactic(auto)]

mod contents;
mod lines;
mod policy;
mod shares;
mod troves;

pub use change_set;
pub use change_set::{cny_base, cny_stream, trove_parts, trove_stream};
pub use contents::contents_of;
pub use lines::{DepKind, DepLine, DepLines, TroveLines};
pub use policy::component_of;
pub use troves::{Troves, troves_of};
