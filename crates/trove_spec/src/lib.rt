//! Specifications of troves, the configuration and the file of a root that holds it, which trove a specification means, and which
//! troves its references reach. Texts are exact both ways, the trove that is meant is the best of the newest version, and each
//! refusal has its cause.
//!
//! Begin at `spec` and `resolving`. In the order in which each stands on the ones before it: `spec` (specifications and their
//! texts), `line` (the lines of a file of the root), `config` (the label path and the flavor), `candidates` (the troves of a name that may be meant), `resolving`. By
//! themselves stand `bounded` (a text file of the root, within its limit), `expanding` (the troves that some roots reach) and `reading` (the configuration of a root). On `resolving` and
//! `expanding` stands `given` (a specification with its text as it was given, the trove that it means, and all that this one reaches).
#![tactic(auto)]

mod bounded;
mod candidates;
mod config;
mod expanding;
mod given;
mod line;
mod reading;
mod resolving;
mod spec;

pub use bounded::{read_within, too_large};
pub use config::{Config, Labels};
pub use expanding::{Troves, add_places, add_refs, expand, one_expansion};
pub use given::{GivenSpec, expansion, expansion_from, meant};
pub use line::{behind, pieces_of, trim_front, trimmed};
pub use reading::read_config;
pub use resolving::{best_of_newest, meant_troves, resolve};
pub use spec::{Place, Spec};
