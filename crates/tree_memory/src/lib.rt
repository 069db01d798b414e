//! A disk in memory, which tells its tree and all that a crash may leave of it. It has exactly the crash images of the definition.
#![tactic(auto)]

mod calls;
mod change;
mod crash;
mod memory;
mod turns;

pub use memory::{MemoryTree, TreeFault};
pub use tree_nodes::{Nodes, cny_base, tree_disk};
