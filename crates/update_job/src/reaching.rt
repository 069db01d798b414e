//! Which installed troves stay when some are taken away.
ghost use Rattle.std.specs.Prelude.{◌≡◌, [], ◌∷◌, ◌++◌, if◌then◌else◌, eqb, Some, OnOk, IfOk, IfSome, ℕ};
ghost use Rattle.std.specs.List.{list_any};
ghost use Rattle.update_job.specs.Gone.{IsPlace};
ghost use Rattle.update_job.specs.Places.{IsOpenPlace, HasAddedPlaces, HasAddedRefs, ArePlacesReached, ArePlacesFrom, HasSame, AreOthers, ArePlaces, ArePlacesLeft, name_of_id};

use change_set::cny_base::{Name, OutOfMemory};
use change_set::trove_parts::{Places, TroveId};
use change_set::trove_stream::Installed;
use std::alloc::Global;

// The place of the trove of this name, if it is installed and its place isn't barred.
fn open_place(installed: &Installed, barred: &Places, name: &Name) -> Option<usize>
    ensures some { IfSome result (IsOpenPlace installed.now barred.now name.now) }
    ensures only { (place : ℕ) → IsOpenPlace installed.now barred.now name.now place → result ≡ Some place }
{
    let place = installed.place_of(name)?;
    if barred.contains(place) {
        return None;
    }
    Some(place)
}

// Adds the places of the troves with the names of these ids, behind those that are there, each once, without the barred ones.
fn add_named(
    installed: &Installed,
    barred: &Places,
    ids: &[TroveId],
    places: &mut Places,
) -> Result<(), OutOfMemory>
    ensures { OnOk result (HasAddedPlaces name_of_id installed.now barred.now ids.now places.old places.new) }
{
    for id in ids {
        if let Some(place) = open_place(installed, barred, &id.name) {
            places.insert(place)?;
        }
    }
    Ok(())
}

// Adds the places to which the trove at this place refers, without the barred ones.
fn add_refs(
    installed: &Installed,
    barred: &Places,
    place: usize,
    places: &mut Places,
) -> Result<(), OutOfMemory>
    ensures { OnOk result (HasAddedRefs installed.now barred.now place places.old places.new) }
{
    if let Some(trove) = installed.troves().get(place) {
        add_named(installed, barred, trove.refs(), places)?;
    }
    Ok(())
}

// The set of these places.
fn set_of(alloc: Global, places: &[usize]) -> Result<Places, OutOfMemory>
    ensures { IfOk result (λ set. HasSame places.now set) }
{
    let mut set = Places::new(alloc);
    for place in places {
        set.insert(*place)?;
    }
    Ok(set)
}

// The places that these reach by references, they included, each once, without entering a barred one.
fn places_reached(
    alloc: Global,
    installed: &Installed,
    barred: &Places,
    starts: &[usize],
) -> Result<Places, OutOfMemory>
    requires { ArePlaces installed.now starts.now }
    ensures { IfOk result (λ places. ArePlacesReached installed.now barred.now starts.now places) }
{
    let mut places = set_of(alloc, starts)?;
    let mut done = 0;
    while done < places.len() {
        let place = places.as_slice()[done];
        add_refs(installed, barred, place, &mut places)?;
        done += 1;
    }
    Ok(places)
}

/// The places that this one reaches by references, itself included, each once.
pub fn places_from(
    alloc: Global,
    installed: &Installed,
    start: usize,
) -> Result<Places, OutOfMemory>
    requires { IsPlace installed.now start }
    ensures { IfOk result (λ places. ArePlacesFrom installed.now start places) }
{
    let none = Places::new(alloc);
    places_reached(alloc, installed, &none, &[start])
}

// Adds a place, unless it is among these.
fn push_other(places: &Places, place: usize, others: &mut Vec<usize>) -> Result<(), OutOfMemory>
    ensures { OnOk result (others.new.items ≡ (if list_any (eqb place) places.now then others.old.items else others.old.items ++ place ∷ [])) }
{
    if places.contains(place) {
        return Ok(());
    }
    others.push(place)?;
    Ok(())
}

// The places that aren't among these.
fn other_places(
    alloc: Global,
    installed: &Installed,
    places: &Places,
) -> Result<Vec<usize>, OutOfMemory>
    ensures { IfOk result (λ others. AreOthers installed.now places.now others.items) }
{
    let mut others = Vec::new(alloc);
    for place in 0..installed.troves().len() {
        push_other(places, place, &mut others)?;
    }
    Ok(others)
}

/// The places of the troves that don't go when those at the roots are taken away: what isn't reached from the roots, and what
/// that refers to, over any number of steps, without entering a root.
pub(crate) fn places_left(
    alloc: Global,
    installed: &Installed,
    roots: &Places,
) -> Result<Places, OutOfMemory>
    requires { ArePlaces installed.now roots.now }
    ensures { IfOk result (λ places. ArePlacesLeft installed.now roots.now places) }
{
    let none = Places::new(alloc);
    let reached = places_reached(alloc, installed, &none, roots.as_slice())?;
    let outside = other_places(alloc, installed, &reached)?;
    let left = places_reached(alloc, installed, roots, outside.as_slice())?;
    Ok(left)
}
