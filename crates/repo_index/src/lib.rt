//! The catalogue of a repository: its troves in the order of their commits, with an index by id and by name; and troves with the version that
//! comes next on their branch. Each look-up equals the search of all troves and takes no memory, no two troves have one id, and the
//! next version equals its definition.
//!
//! Begin at `catalogue`. It stands on `index` (where the troves of each name stand, and the names of contents), which stands on
//! `places_by_id` (where the trove of each id stands), and on `search` (the searches among the troves at some places). The next versions begin at `renewing`, which stands on `latest` (the revision
//! that comes next) and `with_version` (a trove with another version).
#![tactic(auto)]

mod catalogue;
mod index;
mod latest;
mod places_by_id;
mod renewing;
mod search;
mod with_version;

pub use catalogue::Catalogue;
pub use renewing::{Troves, next_troves};
pub use trove_stream;
pub use trove_stream::{cny_base, cny_stream, trove_parts};
