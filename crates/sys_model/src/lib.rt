//! What a system is to consist of: the list that its model file wants, and an update that completes itself. The list is what the lines of the
//! file make of the empty one, or is refused for the first that fails; each trove that is added was chosen for a requirement that wasn't met.
//!
//! Begin at `model` (the lines of a file), which stands on `line` (a line without what isn't read of it) and `directive` (what a line
//! says), then `wanted_list`, which stands on `making` (what a line makes of a list). `reading` stands on `model`: the model of a root.
//!
//! The update that completes itself begins at `completing` (the rounds), which stands on `round` (what the rounds keep from one to the next)
//! and `doubting` (the first requirement that isn't met, and what is added for it). `round` stands on `reaching` (what more roots reach) and
//! `noting` (what comes, by its names); `doubting` on `view` (the list of a round by names, and what meets a requirement in it) and `helping`
//! (which trove is chosen). Below them are `meeting` (when a trove meets a requirement), `providers` (which troves provide something of a
//! name) and `known` (the repository and the installed troves with these).
#![tactic(auto)]

mod completing;
mod directive;
mod doubting;
mod helping;
mod known;
mod line;
mod making;
mod meeting;
mod model;
mod noting;
mod providers;
mod reaching;
mod reading;
mod round;
mod view;
mod wanted_list;

pub use completing::complete;
pub use directive::ModelLine;
pub use model::{Model, ModelLines};
pub use reading::read_model;
pub use wanted_list::wanted;
