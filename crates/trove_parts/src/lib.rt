//! The parts of a trove: ids (a name, a version and a flavor) with their texts, and the lists of files, ids, dependencies and
//! paths, each with its bytes in streams. All of them are read and written exactly both ways, and their orders equal their
//! definitions.
#![tactic(auto)]

mod deps;
mod files;
mod id;
mod items;
mod laws;
mod paths;
mod places;
mod refs;
mod stream;
mod text;

pub use cny_stream;
pub use cny_version::cny_base;
pub use deps::{Deps, DepsAt, are_deps, put_deps, take_deps};
pub use files::{FileAt, Files, FilesAt, are_files, put_files, take_files};
pub use id::{TroveId, distinct_ids, short_ids};
pub use laws::distinct_lists;
pub use paths::{PathsAt, are_paths, put_paths, take_paths};
pub use places::Places;
pub use refs::{Refs, RefsAt, are_refs, put_id_item, put_refs, take_id_item, take_refs};
pub use stream::{IdAt, id_of_bytes, next_id, put_id};
pub use text::{id_of_texts, id_text, read_id};
