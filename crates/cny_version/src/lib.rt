//! Labels, revisions and versions of troves, with their texts. They are read and written exactly both ways, and shadows, branches
//! and next revisions equal their definitions.
//!
//! Begin at `version` and `next`, which hold what other crates call. In the order in which each stands on
//! the ones before it: `cut` (a text cut at a byte), `label`, `count`, `revision`, `part` and `branch` (the
//! parts of a version), `scan` (whether a text is that of a version, without memory), `read` (the version
//! made from it), `version`, `next` (the revision after the latest one).
#![tactic(auto)]

mod branch;
mod count;
mod cut;
mod label;
mod next;
mod part;
mod read;
mod revision;
mod scan;
mod version;

pub use cny_base;
pub use count::Count;
pub use label::Label;
pub use next::next_revision;
pub use revision::Revision;
pub use version::{Version, distinct_texts};
