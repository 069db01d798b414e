//! How two installed lists differ.
ghost use Rattle.std.specs.Prelude.{◌≡◌, IfOk, OnOk};
ghost use Rattle.std.specs.BTreeMap.{values, IsOrdered};
ghost use Rattle.std.specs.Cmp.Lexicographic.{slice_cmp};
ghost use Rattle.std.specs.Ordering.{nat_cmp};
ghost use Rattle.change_set.specs.trove-stream.Installed.{IsRising};
ghost use Rattle.update_job.specs.Changes.{AreChanges, IsLost, IsFresh, HasNoted, NotesOne, NotesAll};

use crate::by_name::are_equal;
use change_set::cny_base::{Copies, ListOf, Name, OutOfMemory};
use change_set::trove_parts::TroveId;
use change_set::trove_stream::{Installed, Trove};
use std::alloc::Global;
use std::collections::BTreeMap;

/// A change of an installed list.
#[derive(Drop)]
pub enum Change {
    /// The list after has this trove, and the list before has none of its name.
    Installed(TroveId),
    /// The list after has this trove, and the list before has another one of its name, which may have the same id.
    Updated(TroveId),
    /// The list before has this trove, and the list after has none of its name.
    Erased(TroveId),
}

impl Copies for Change {
    fn copy(&self) -> Result<Self, OutOfMemory> {
        Ok(match self {
            Change::Installed(id) => Change::Installed(id.copy()?),
            Change::Updated(id) => Change::Updated(id.copy()?),
            Change::Erased(id) => Change::Erased(id.copy()?),
        })
    }
}

/// A list of changes.
pub type Changes = ListOf<Change>;

// Changes by the names of their troves.
type Noted = BTreeMap<Name, Change>;

// Puts a change under a name.
fn note(changes: &mut Noted, name: &Name, change: Change) -> Result<(), OutOfMemory>
    requires { IsOrdered (slice_cmp nat_cmp) changes.old }
    ensures noted { OnOk result (HasNoted name.now change changes.old changes.new) }
    ensures ordered { IsOrdered (slice_cmp nat_cmp) changes.new }
{
    let key = name.copy()?;
    changes.insert(key, change)?;
    Ok(())
}

// Notes the trove of the list before, where the list after has none of its name.
fn note_lost(after: &Installed, trove: &Trove, changes: &mut Noted) -> Result<(), OutOfMemory>
    requires { IsOrdered (slice_cmp nat_cmp) changes.old }
    ensures noted { OnOk result (NotesOne (IsLost after.now trove.now) trove.now.id.name changes.old changes.new) }
    ensures ordered { IsOrdered (slice_cmp nat_cmp) changes.new }
{
    let id = trove.id();
    if let Some(_place) = after.place_of(&id.name) {
        return Ok(());
    }
    let change = Change::Erased(id.copy()?);
    note(changes, &id.name, change)?;
    Ok(())
}

// Notes the trove of the list after, where the list before has none of its name or another one.
fn note_fresh(
    alloc: Global,
    before: &Installed,
    trove: &Trove,
    changes: &mut Noted,
) -> Result<(), OutOfMemory>
    requires { IsOrdered (slice_cmp nat_cmp) changes.old }
    ensures noted { OnOk result (NotesOne (IsFresh before.now trove.now) trove.now.id.name changes.old changes.new) }
    ensures ordered { IsOrdered (slice_cmp nat_cmp) changes.new }
{
    // No two troves of the list have one name.
    let _all = before.troves();
    let id = trove.id();
    let Some(old) = before.get(&id.name) else {
        let change = Change::Installed(id.copy()?);
        note(changes, &id.name, change)?;
        return Ok(());
    };
    if are_equal(alloc, old, trove)? {
        return Ok(());
    }
    let change = Change::Updated(id.copy()?);
    note(changes, &id.name, change)?;
    Ok(())
}

// Notes those of the troves of the list before of whose names the list after has none.
fn note_all_lost(
    after: &Installed,
    troves: &[Trove],
    changes: &mut Noted,
) -> Result<(), OutOfMemory>
    requires rising { IsRising troves.now }
    requires was_ordered { IsOrdered (slice_cmp nat_cmp) changes.old }
    ensures noted { OnOk result (NotesAll (IsLost after.now) troves.now changes.old changes.new) }
    ensures ordered { IsOrdered (slice_cmp nat_cmp) changes.new }
{
    for trove in troves {
        note_lost(after, trove, changes)?;
    }
    Ok(())
}

// Notes those of the troves of the list after that the list before hasn't so.
fn note_all_fresh(
    alloc: Global,
    before: &Installed,
    troves: &[Trove],
    changes: &mut Noted,
) -> Result<(), OutOfMemory>
    requires rising { IsRising troves.now }
    requires was_ordered { IsOrdered (slice_cmp nat_cmp) changes.old }
    ensures noted { OnOk result (NotesAll (IsFresh before.now) troves.now changes.old changes.new) }
    ensures ordered { IsOrdered (slice_cmp nat_cmp) changes.new }
{
    for trove in troves {
        note_fresh(alloc, before, trove, changes)?;
    }
    Ok(())
}

// The changes in the order of their names.
fn in_order(alloc: Global, changes: Noted) -> Result<Vec<Change>, OutOfMemory>
    ensures { IfOk result (λ list. list.items ≡ values changes) }
{
    Ok(changes.into_values().collect(alloc)?)
}

/// The changes that lead from one installed list to another, in the order of their names. A trove counts as updated exactly
/// where both lists have one of its name and the two differ in anything that they hold, also where their ids are equal.
pub fn changed(alloc: Global, before: &Installed, after: &Installed) -> Result<Changes, OutOfMemory>
    ensures { IfOk result (AreChanges before.now after.now) }
{
    let mut noted = BTreeMap::new(alloc);
    note_all_lost(after, before.troves(), &mut noted)?;
    note_all_fresh(alloc, before, after.troves(), &mut noted)?;
    let changes = in_order(alloc, noted)?;
    Ok(Changes::new(changes))
}
