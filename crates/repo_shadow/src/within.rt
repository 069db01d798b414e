//! Troves that refer only to one another.
ghost use Rattle.std.specs.Prelude.{◌↔◌, All, List, IsTrue};
ghost use Rattle.repo_index.specs.trove-stream.declared.parts.TroveParts.{TroveParts};
ghost use Rattle.repo_index.specs.trove-stream.Trove.{IsTrove};
ghost use Rattle.repo_shadow.specs.Within.{HasId, RefersWithin, AllReferWithin, AllRefsAreFound};

use repo_index::Catalogue;
use repo_index::trove_parts::{TroveId, distinct_ids};
use repo_index::trove_stream::Trove;

// Whether a trove of the catalogue has the id.
fn has_id(catalogue: &Catalogue, id: &TroveId) -> bool
    ensures { IsTrue result ↔ HasId catalogue.now.troves id.now }
{
    catalogue.place_of(id).is_some()
}

// Whether each of the ids is that of a trove of the catalogue.
fn has_all(catalogue: &Catalogue, ids: &[TroveId]) -> bool
    ensures { IsTrue result ↔ All (HasId catalogue.now.troves) ids.now }
{
    for id in ids {
        if !has_id(catalogue, id) {
            return false;
        }
    }
    true
}

// Whether each reference of these troves is the id of a trove of the catalogue.
fn refer_within(catalogue: &Catalogue, troves: &[Trove]) -> bool
    ensures { IsTrue result ↔ All (RefersWithin catalogue.now.troves) troves.now }
{
    for trove in troves {
        if !has_all(catalogue, trove.refs()) {
            return false;
        }
    }
    true
}

/// Whether each reference of each trove of the catalogue is the id of one of its troves, as in a repository. Takes no memory.
pub fn all_refer_within(catalogue: &Catalogue) -> bool
    ensures { IsTrue result ↔ AllReferWithin catalogue.now.troves }
{
    refer_within(catalogue, catalogue.troves())
}

/// Troves in which a search finds each of their references refer only to one another.
pub fn refs_found()
    ensures { (troves : List TroveParts) → All IsTrove troves → AllRefsAreFound troves → AllReferWithin troves }
{
    // Ids that are equal by their texts are one id.
    distinct_ids();
}
