//! Installed lists that change: what an update puts in and takes away, what an erasure leaves, how two lists differ, and the troves
//! that come with a manifest or a change set. Each equals its definition, and each refusal comes exactly where its cause stands.
//!
//! Begin at `changing` (the list after an update or an erasure), then `comparing` (how two lists differ). They stand on `reaching`
//! (which troves stay) and `by_name` (troves in a map by their names). Before them come `applying` (what each part of a change set makes
//! of the installed troves) and `allowed` (whether one of them records a path that no trove may record).
#![tactic(auto)]

mod allowed;
mod applying;
mod by_name;
mod changing;
mod comparing;
mod laws;
mod reaching;

pub use allowed::check_allowed;
pub use applying::applied;
pub use change_set;
pub use change_set::{cny_base, cny_stream, trove_parts, trove_stream};
pub use changing::{erased, updated};
pub use comparing::{Change, Changes, changed};
pub use laws::{led_from_installed, one_made, one_reserved};
pub use reaching::places_from;
