//! What more roots reach.
ghost use Rattle.std.specs.Prelude.{◌≤◌, eqb, length, take, OnOk};
ghost use Rattle.std.specs.List.{IsDistinct};
ghost use Rattle.sys_model.specs.Growing.{AreGathered, HasMore};

use repo_index::Catalogue;
use repo_index::cny_base::OutOfMemory;
use repo_index::trove_parts::{Places, TroveId};
use trove_spec::{add_places, add_refs};

/// Adds the places of what the roots from this one on reach to those of what the roots before reach.
pub(crate) fn reach(
    catalogue: &Catalogue,
    roots: &[TroveId],
    from: usize,
    places: &mut Places,
) -> Result<(), OutOfMemory>
    requires within { from ≤ length roots.now }
    requires before { AreGathered catalogue.now.troves (take from roots.now) places.old (length places.old) }
    ensures gathered { OnOk result (AreGathered catalogue.now.troves roots.now places.new (length places.new)) }
    ensures more { OnOk result (HasMore places.old places.new) }
    ensures distinct { OnOk result (IsDistinct eqb places.new) }
{
    let mut done = places.len();
    add_places(catalogue, &roots[from..], places)?;
    while done < places.len() {
        let place = places.as_slice()[done];
        add_refs(catalogue, place, places)?;
        done += 1;
    }
    Ok(())
}
