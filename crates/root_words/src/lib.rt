//! The words of lines that give disks and what jobs take: disks in memory that tell contracts nothing, made of the nodes of a line, what
//! is to stand on them, contents, and troves. What the programs share that make calls on disks.
#![tactic(auto)]

mod carried;
mod disks;
mod far;
mod listing;
mod quiet;
mod troves;
mod wants;

pub use carried::{are_in_order, carried_of};
pub use content_store;
pub use disks::{crashed, disk_of, edit, edit_at, empty_disk, nodes_of};
pub use far::{Far, far_of};
pub use listing::{paths_of, told_but, told_kept, told_nodes};
pub use quiet::Quiet;
pub use tree_memory;
pub use troves::{list_of, troves_of};
pub use wants::placed_want;
