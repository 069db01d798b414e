//! Dependency closure: whether each requirement of the troves of a list is met by what some trove of it provides, for a whole list
//! and for a list that changes. The first requirement that nothing satisfies is named exactly, and a list that changes is answered
//! for as the whole changed list is.
//!
//! Begin at `whole` (a whole list) and `changing` (a list that changes). Both stand on `providing` (when a trove satisfies a
//! requirement). `changing` stands on `slots` (troves by their names, and edits of them), `index` (which troves name a
//! dependency) and `staying` (what is the first that edits of a closed list leave without what it requires).
#![tactic(auto)]

mod changing;
mod index;
mod laws;
mod providing;
mod slots;
mod staying;
mod whole;

pub use changing::Closure;
pub use laws::one_changed_list;
pub use trove_stream;
pub use trove_stream::{cny_base, cny_stream, trove_parts};
pub use whole::closed;
