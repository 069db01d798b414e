//! What comes is noted by its names.
ghost use Rattle.std.specs.Prelude.{◌≡◌, ◌↔◌, ℕ, if◌then◌else◌, false, IsTrue, List, Contains, Some, slice_get, IfOk, OnOk};
ghost use Rattle.repo_index.specs.trove-stream.declared.parts.TroveParts.{TroveParts};
ghost use Rattle.sys_model.specs.Fit.{place_of};
ghost use Rattle.update_job.specs.ByName.{same};
ghost use Rattle.sys_model.specs.Growing.{is_doubted, HasNoted, HasNotedAll, HasReplaced, HasTwo, IsTaken};

use crate::view::Fresh;
use repo_index::Catalogue;
use repo_index::cny_base::{Copies, Name, OutOfMemory};
use repo_index::trove_stream::{Installed, Trove};
use std::collections::BTreeSet;

// Whether another place stands under the name.
fn is_taken(fresh: &Fresh, name: &Name, place: usize) -> bool
    ensures { IsTrue result ↔ IsTaken fresh.now name.now place }
{
    match fresh.get(name) {
        Some(other) => *other != place,
        None => false,
    }
}

// Puts the place under the name.
fn stand(fresh: &mut Fresh, name: &Name, place: usize) -> Result<(), OutOfMemory>
    ensures { OnOk result ((other : List ℕ) → place_of fresh.new other ≡ (if same name.now other then Some place else place_of fresh.old other)) }
{
    let key = name.copy()?;
    fresh.insert(key, place)?;
    Ok(())
}

// Doubts the name.
fn doubt(doubted: &mut BTreeSet<Name>, name: &Name) -> Result<(), OutOfMemory>
    ensures own { OnOk result (IsTrue (is_doubted doubted.new name.now)) }
    ensures still { OnOk result ((other : List ℕ) → IsTrue (is_doubted doubted.old other) → IsTrue (is_doubted doubted.new other)) }
{
    doubted.insert(name.copy()?)?;
    Ok(())
}

// Puts the name behind the others, where a trove of this name is installed.
fn replace(installed: &Installed, name: &Name, replaced: &mut Vec<Name>) -> Result<(), OutOfMemory>
    ensures { OnOk result (HasReplaced installed.now name.now replaced.old.items replaced.new.items) }
{
    if let Some(_place) = installed.place_of(name) {
        replaced.push(name.copy()?)?;
    }
    Ok(())
}

// Notes the place of a trove under its name, which is doubted from now on, and replaced where it is installed.
fn note(
    installed: &Installed,
    name: &Name,
    place: usize,
    fresh: &mut Fresh,
    doubted: &mut BTreeSet<Name>,
    replaced: &mut Vec<Name>,
) -> Result<(), OutOfMemory>
    ensures { OnOk result (HasNoted installed.now name.now place fresh.old fresh.new doubted.old doubted.new replaced.old.items replaced.new.items) }
{
    stand(fresh, name, place)?;
    doubt(doubted, name)?;
    replace(installed, name, replaced)?;
    Ok(())
}

/// Notes the troves at these places under their names; whether no other one stands under such a name.
pub(crate) fn note_all(
    catalogue: &Catalogue,
    installed: &Installed,
    places: &[usize],
    fresh: &mut Fresh,
    doubted: &mut BTreeSet<Name>,
    replaced: &mut Vec<Name>,
) -> Result<bool, OutOfMemory>
    ensures noted { IfOk result (λ noted. IsTrue noted
        → HasNotedAll catalogue.now.troves installed.now places.now fresh.old fresh.new doubted.old doubted.new replaced.old.items replaced.new.items) }
    ensures two { IfOk result (λ noted. noted ≡ false → HasTwo catalogue.now.troves places.now fresh.old) }
{
    for place in places {
        if let Some(trove) = catalogue.trove_at(*place) {
            if is_taken(fresh, &trove.id().name, *place) {
                return Ok(false);
            }
            note(
                installed,
                &trove.id().name,
                *place,
                fresh,
                doubted,
                replaced,
            )?;
        }
    }
    Ok(true)
}

/// Doubts the names of these troves.
pub(crate) fn doubt_troves(
    doubted: &mut BTreeSet<Name>,
    troves: &[Trove],
) -> Result<(), OutOfMemory>
    ensures all { OnOk result ((t : TroveParts) → Contains troves.now t → IsTrue (is_doubted doubted.new t.id.name)) }
    ensures still { OnOk result ((name : List ℕ) → IsTrue (is_doubted doubted.old name) → IsTrue (is_doubted doubted.new name)) }
{
    for trove in troves {
        doubt(doubted, &trove.id().name)?;
    }
    Ok(())
}

/// Doubts the names of the troves of the repository at these places.
pub(crate) fn doubt_places(
    doubted: &mut BTreeSet<Name>,
    catalogue: &Catalogue,
    places: &[usize],
) -> Result<(), OutOfMemory>
    ensures all { OnOk result ((place : ℕ) (t : TroveParts) → Contains places.now place → slice_get catalogue.now.troves place ≡ Some t → IsTrue (is_doubted doubted.new t.id.name)) }
    ensures still { OnOk result ((name : List ℕ) → IsTrue (is_doubted doubted.old name) → IsTrue (is_doubted doubted.new name)) }
{
    for place in places {
        if let Some(trove) = catalogue.trove_at(*place) {
            doubt(doubted, &trove.id().name)?;
        }
    }
    Ok(())
}
