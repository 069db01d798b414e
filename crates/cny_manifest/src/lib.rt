//! Manifests: what a person or a build writes of a component, a package or a group, and the troves that it makes. They are read and
//! written exactly both ways, and of any other bytes the first fault is told, by kind and place.
#![tactic(auto)]

mod body;
mod deps;
mod draft;
mod entries;
mod fault;
mod fields;
mod head;
mod laws;
mod lines;
mod made;
mod order;
mod reading;
mod words;

pub use laws::{one_manifest, spelled};
pub use made::Made;
pub use manifest_troves::{
    Troves, change_set, cny_base, cny_stream, component_of, trove_parts, trove_stream,
};
pub use order::is_own;
pub use reading::read;
