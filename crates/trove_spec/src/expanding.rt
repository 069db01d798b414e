//! Which troves some roots reach by references.
ghost use Rattle.std.specs.Prelude.{◌≡◌, ◌<◌, ◌++◌, ◌∷◌, [], None, List, map, OnOk, IfOk, IfErr};
ghost use Rattle.std.specs.Option.{option_map};
ghost use Rattle.repo_index.specs.trove-parts.declared.id.TroveId.{TroveId};
ghost use Rattle.repo_index.specs.trove-stream.declared.parts.TroveParts.{TroveParts};
ghost use Rattle.repo_index.specs.Places.{troves_at};
ghost use Rattle.trove_spec.specs.Expansion as spec;
ghost use Rattle.trove_spec.specs.Expansion.{IsExpansion, IsClosedIn, HasRisingNames, IsUnexpanded};
ghost use Rattle.trove_spec.specs.Reached.{HasAddedPlaces, HasAddedRefs, ArePlacesReached};

use repo_index::Catalogue;
use repo_index::cny_base::{Copies, Fault, ListOf, OutOfMemory, Refusal};
use repo_index::trove_parts::{Places, TroveId, id_text};
use repo_index::trove_stream::Trove;
use std::alloc::Global;

/// A list of troves.
pub type Troves = ListOf<Trove>;

/// Adds the places of the troves of these ids behind those that are there, each once.
pub fn add_places(
    catalogue: &Catalogue,
    ids: &[TroveId],
    places: &mut Places,
) -> Result<(), OutOfMemory>
    ensures { OnOk result (HasAddedPlaces catalogue.now.troves ids.now places.old places.new) }
{
    for id in ids {
        if let Some(place) = catalogue.place_of(id) {
            places.insert(place)?;
        }
    }
    Ok(())
}

/// Adds the places of the troves to which the trove at this place refers.
pub fn add_refs(catalogue: &Catalogue, place: usize, places: &mut Places) -> Result<(), OutOfMemory>
    ensures { OnOk result (HasAddedRefs catalogue.now.troves place places.old places.new) }
{
    if let Some(trove) = catalogue.trove_at(place) {
        add_places(catalogue, trove.refs(), places)?;
    }
    Ok(())
}

// The places of the troves that the roots reach, each once.
fn places_reached(
    alloc: Global,
    catalogue: &Catalogue,
    roots: &[TroveId],
) -> Result<Places, OutOfMemory>
    ensures { IfOk result (λ places. ArePlacesReached catalogue.now.troves roots.now places) }
{
    let mut places = Places::new(alloc);
    add_places(catalogue, roots, &mut places)?;
    let mut done = 0;
    while done < places.len() {
        let place = places.as_slice()[done];
        add_refs(catalogue, place, &mut places)?;
        done += 1;
    }
    Ok(places)
}

// Adds a trove behind the others, once.
fn add_trove<'a>(troves: &mut Vec<&'a Trove>, trove: &'a Trove) -> Result<(), OutOfMemory>
    ensures once { OnOk result (map (λ trove. trove.now) troves.new.items ≡ map (λ trove. trove.now) troves.old.items ++ trove.now ∷ []) }
{
    troves.push(trove)?;
    Ok(())
}

// The troves at these places.
fn troves_at<'a>(
    alloc: Global,
    catalogue: &'a Catalogue,
    places: &[usize],
) -> Result<Vec<&'a Trove>, OutOfMemory>
    ensures { IfOk result (λ troves. map (λ trove. trove.now) troves.items ≡ troves_at catalogue.now.troves places.now) }
{
    let mut troves = Vec::new(alloc);
    for place in places {
        if let Some(trove) = catalogue.trove_at(*place) {
            add_trove(&mut troves, trove)?;
        }
    }
    Ok(troves)
}

// The troves that the roots reach, in the order of their ids.
fn troves_reached<'a>(
    alloc: Global,
    catalogue: &'a Catalogue,
    roots: &[TroveId],
) -> Result<Vec<&'a Trove>, OutOfMemory>
    ensures value { IfOk result (λ troves. IsExpansion catalogue.now.troves roots.now (map (λ trove. trove.now) troves.items)) }
    ensures closed { IfOk result (λ troves. IsClosedIn catalogue.now.troves (map (λ trove. trove.now) troves.items)) }
{
    // No two troves of the catalogue have one id.
    let _all = catalogue.troves();
    let places = places_reached(alloc, catalogue, roots)?;
    let mut troves = troves_at(alloc, catalogue, places.as_slice())?;
    troves.sort_unstable_by(|trove, other| trove.id().cmp(other.id()));
    Ok(troves)
}

// The first of the troves whose name the one before it has.
fn first_of_same_name<'a>(troves: &[&'a Trove]) -> Option<&'a Trove>
    ensures { option_map (λ trove. trove.now.id) result ≡ spec.first_of_same_name (map (λ trove. trove.now) troves.now) }
{
    let mut rest = troves;
    while let [trove, after @ ..] = rest {
        if let [next, ..] = after {
            if trove.id().name == next.id().name {
                return Some(next);
            }
        }
        rest = after;
    }
    None
}

// Copies of these troves.
fn copies(alloc: Global, troves: &[&Trove]) -> Result<Troves, OutOfMemory>
    ensures { IfOk result (λ made. made ≡ map (λ trove. trove.now) troves.now) }
{
    let mut items = Vec::new(alloc);
    for trove in troves {
        items.push(trove.copy()?)?;
    }
    Ok(Troves::new(items))
}

/// The expansion of these roots: copies of the troves of the catalogue that they reach by references, the roots among them, each
/// once, in the order of their ids, so that their names strictly rise. A reference to which the catalogue has no trove leads
/// nowhere.
///
/// `Exists` exactly where two of these troves have one name, with the text of the first id in that order whose name the one
/// before it has.
pub fn expand(alloc: Global, catalogue: &Catalogue, roots: &[TroveId]) -> Result<Troves, Fault>
    ensures value { IfOk result (IsExpansion catalogue.now.troves roots.now) }
    ensures once { IfOk result (λ found. spec.first_of_same_name found ≡ None) }
    ensures names { IfOk result HasRisingNames }
    ensures closed { IfOk result (IsClosedIn catalogue.now.troves) }
    ensures fault { IfErr result (IsUnexpanded catalogue.now.troves roots.now) }
{
    let troves = troves_reached(alloc, catalogue, roots)?;
    if let Some(trove) = first_of_same_name(troves.as_slice()) {
        return Err(Fault::Refused(Refusal::Exists {
            trove: id_text(alloc, trove.id())?,
        }));
    }
    Ok(copies(alloc, troves.as_slice())?)
}

/// Some roots have at most one expansion.
pub fn one_expansion()
    ensures { (troves : List TroveParts) (roots : List TroveId) (found other : List TroveParts)
        → IsExpansion troves roots found → IsExpansion troves roots other → found ≡ other }
{}
