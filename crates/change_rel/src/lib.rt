//! What a relative trove makes of a trove, the one relative trove that leads from a trove to another, and which contents are to be
//! sent with it. Applied to the old trove the difference gives the new one, and any other base is refused.
#![tactic(auto)]

mod amending;
mod applying;
mod difference;
mod element;
mod laws;
mod relating;
mod same;
mod sending;

pub use applying::{apply, missing_base};
pub use laws::one_relative;
pub use relating::relative;
pub use sending::{ContentNames, to_send};
pub use trove_stream;
pub use trove_stream::{cny_base, cny_stream, trove_parts};
