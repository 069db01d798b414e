//! What a trove reaches by references, moved onto a label: as shadows on it or as branches onto it. It equals its definition, with
//! the references along, or is refused for the first reason, and what is moved can be committed together.
//!
//! Begin at `shadow`. It stands on `way` (a version and an id, moved), `refusing` (why troves aren't moved), `moving` (troves,
//! moved) and `within` (troves that refer only to one another).
#![tactic(auto)]

mod moving;
mod refusing;
mod shadow;
mod way;
mod within;

pub use shadow::{moved, one_move};
pub use way::Way;
pub use within::{all_refer_within, refs_found};
