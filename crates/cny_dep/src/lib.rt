//! Dependencies and flavors: what a trove requires and provides, and what a build needs or prefers of a machine. Their texts are read and
//! written exactly both ways; whether a requirement is satisfied, and a flavor's score, equal their definitions.
#![tactic(auto)]

mod class;
mod dep;
mod flag;
mod flavor;
mod flavor_order;
mod flavor_reading;
mod flavor_writing;
mod parts;
mod reading;
mod satisfying;
mod scoring;
mod writing;

pub use class::Class;
pub use dep::Dep;
pub use flag::Flag;
pub use flavor::{Flavor, one_text, same_items};
pub use parts::{Flags, FlavorFlag, InstructionSet, InstructionSets, Parts, Sense};
pub use satisfying::satisfies;
pub use scoring::score;
