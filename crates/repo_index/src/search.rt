//! Searches among the troves at some places.
ghost use Rattle.std.specs.Prelude.{◌≡◌, ◌↔◌, ℕ, Some, None, filter, slice_get, Contains, IsTrue, IfSome};
ghost use Rattle.std.specs.List.{last_or};
ghost use Rattle.std.specs.Option.{option_copied};
ghost use Rattle.repo_index.specs.Catalogue as spec;
ghost use Rattle.repo_index.specs.Catalogue.{HasDistinctIds};
ghost use Rattle.repo_index.specs.Index.{AreKept};
ghost use Rattle.repo_index.specs.Places.{troves_at, HasIdAt};

use crate::places_by_id::{PlacesById, hash_of};
use cny_version::{Count, Version};
use trove_stream::Trove;
use trove_stream::trove_parts::TroveId;

/// The trove at a place, if there is one.
pub(crate) fn trove_at(troves: &[Trove], place: usize) -> Option<&Trove>
    ensures { option_copied result ≡ slice_get troves.now place }
{
    troves.get(place)
}

// Whether the trove of this id stands at this place.
fn is_place_of(troves: &[Trove], place: usize, id: &TroveId) -> bool
    ensures { IsTrue result ↔ HasIdAt troves.now id.now place }
{
    match trove_at(troves, place) {
        None => false,
        Some(trove) => *trove.id() == *id,
    }
}

// The place of the trove of this id, if it is one of these.
fn place_among(troves: &[Trove], places: &[usize], id: &TroveId) -> Option<usize>
    requires { HasDistinctIds troves.now }
    ensures place { IfSome result (HasIdAt troves.now id.now) }
    ensures only { (place : ℕ) → Contains places.now place → HasIdAt troves.now id.now place → result ≡ Some place }
{
    for place in places {
        if is_place_of(troves, *place, id) {
            return Some(*place);
        }
    }
    None
}

/// The place of the trove of this id, if there is one, where the place of each trove is kept under its hash.
pub(crate) fn place_by_id(troves: &[Trove], places: &PlacesById, id: &TroveId) -> Option<usize>
    requires distinct { HasDistinctIds troves.now }
    requires kept { AreKept troves.now places.now }
    ensures place { IfSome result (HasIdAt troves.now id.now) }
    ensures only { (place : ℕ) → HasIdAt troves.now id.now place → result ≡ Some place }
{
    if let Some(place) = places.first(hash_of(id)) {
        if is_place_of(troves, place, id) {
            return Some(place);
        }
    }
    place_among(troves, places.others(), id)
}

// Whether the source count is the given one, where one is given.
fn has_source(given: Option<&Count>, source: &Count) -> bool
    ensures { result ≡ spec.has_source (option_copied given.entry) source.now }
{
    match given {
        Some(count) => *source == *count,
        None => true,
    }
}

// Whether the version is on this branch, with this upstream and, where one is given, this source count.
fn is_revision_of(version: &Version, branch: &str, upstream: &str, source: Option<&Count>) -> bool
    ensures { result ≡ spec.is_revision_of branch.now upstream.now (option_copied source.entry) version.now }
{
    let revision = version.revision();
    let has_branch = version.branch() == branch;
    let has_upstream = revision.upstream.get() == upstream;
    let has_source = has_source(source, &revision.source);
    has_branch && has_upstream && has_source
}

/// The last of the troves at these places whose version is on this branch, with this upstream and, where one is given, this
/// source count.
pub(crate) fn latest_among<'a>(
    troves: &'a [Trove],
    places: &[usize],
    branch: &str,
    upstream: &str,
    source: Option<&Count>,
) -> Option<&'a Trove>
    ensures { option_copied result
        ≡ last_or None (filter (spec.is_of branch.now upstream.now (option_copied source.entry)) (troves_at troves.now places.now)) }
{
    let mut rest = places;
    while let Some((place, before)) = rest.split_last() {
        if let Some(trove) = trove_at(troves, *place) {
            if is_revision_of(&trove.id().version, branch, upstream, source) {
                return Some(trove);
            }
        }
        rest = before;
    }
    None
}
