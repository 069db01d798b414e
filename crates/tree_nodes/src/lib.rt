//! The nodes of a file tree in an ordered map: what stands where, which calls of a disk are allowed, and what they do. It is the
//! tree of the definition, call by call.
#![tactic(auto)]

mod attempts;
mod below;
mod conditions;
mod copies;
mod crash;
mod effects;
mod map;
mod reads;
mod start;

pub use crash::Crash;
pub use map::NodeMap;
pub use tree_disk;
pub use tree_disk::cny_base;
use tree_disk::cny_base::{ListOf, Node, Path};

/// Nodes with their paths.
pub type Nodes = ListOf<(Path, Node)>;
