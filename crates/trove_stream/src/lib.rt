//! Troves: what a version of a component, a package or a group holds, and their streams; relative troves, which lead from one trove
//! to another of its name, and theirs; and lists of installed troves, each with a name of its own. Each keeps its rules as an
//! invariant of its type and has one stream in each encoding, exact both ways, and look-ups in a list equal its search and take no
//! memory.
#![tactic(auto)]

mod disjoint;
mod forbidden;
mod head;
mod installed;
mod laws;
mod parts;
mod reading;
mod rel;
mod rel_laws;
mod rel_reading;
mod rel_writing;
mod rules;
mod together;
mod trove;
mod writing;

pub use forbidden::check;
pub use installed::{Installed, Troves};
pub use laws::{distinct_troves, one_result};
pub use parts::TroveParts;
pub use reading::{decode, decode_full};
pub use rel::{RelParts, RelTrove};
pub use rel_laws::distinct_rels;
pub use rel_reading::{decode_rel, decode_rel_full};
pub use rel_writing::{encode_rel, encode_rel_full};
pub use rules::is_component_of;
pub use trove::Trove;
pub use trove_parts;
pub use trove_parts::{
    Deps, FileAt, Files, IdAt, Refs, TroveId, cny_base, cny_stream, id_text, next_id, put_id,
    read_id,
};
pub use writing::{encode, encode_full};
