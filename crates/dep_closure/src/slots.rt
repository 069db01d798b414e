//! Troves by their names, and edits of them.
ghost use Rattle.std.specs.Prelude.{◌≡◌, ◌++◌, ℕ, List, Option, Some, None, if◌then◌else◌, IsSome, OnOk, IfOk};
ghost use Rattle.std.specs.BTreeMap.{keys, IsOrdered};
ghost use Rattle.std.specs.Cmp.Lexicographic.{slice_cmp};
ghost use Rattle.std.specs.List.{list_any};
ghost use Rattle.std.specs.Option.{option_copied, option_to_list};
ghost use Rattle.std.specs.Ordering.{nat_cmp};
ghost use Rattle.std.specs.Str.{bytes_eq};
ghost use Rattle.trove_stream.specs.Installed.{IsRising, trove_of};
ghost use Rattle.dep_closure.specs.Slots as spec;
ghost use Rattle.dep_closure.specs.Slots.{slot, put_slot};

use std::alloc::Global;
use std::collections::BTreeMap;
use trove_stream::Trove;
use trove_stream::cny_base::{Copies, Name, OutOfMemory};

/// By name: a trove, or a place for one. Beside such troves, edits: a trove that is to stand under the name, or none.
pub(crate) type Slots = BTreeMap<Name, Option<Trove>>;

/// The trove of a name.
pub(crate) fn held<'a>(slots: &'a Slots, name: &Name) -> Option<&'a Trove>
    ensures { option_copied result ≡ spec.held slots.now name.now }
{
    match slots.get(name) {
        None => None,
        Some(slot) => match slot {
            None => None,
            Some(trove) => Some(trove),
        },
    }
}

/// The trove of a name once the edits are made.
pub(crate) fn held_after<'a>(slots: &'a Slots, edits: &'a Slots, name: &Name) -> Option<&'a Trove>
    ensures { option_copied result ≡ spec.held_after slots.now edits.now name.now }
{
    if edits.contains_key(name) {
        return held(edits, name);
    }
    held(slots, name)
}

// Appends a copy of the trove, if there is one.
fn push_copy(list: &mut Vec<Trove>, found: Option<&Trove>) -> Result<(), OutOfMemory>
    ensures { OnOk result (list.new.items ≡ list.old.items ++ option_to_list (option_copied found.entry)) }
{
    if let Some(trove) = found {
        list.push(trove.copy()?)?;
    }
    Ok(())
}

/// Copies of the troves once the edits are made, in name order, where each name of the edits has a slot.
pub(crate) fn listed(alloc: Global, slots: &Slots, edits: &Slots) -> Result<Vec<Trove>, OutOfMemory>
    ensures { IfOk result (λ list. list.items ≡ spec.listed (spec.held_after slots.now edits.now) (keys slots.now)) }
{
    let mut list = Vec::new(alloc);
    for name in slots.keys() {
        push_copy(&mut list, held_after(slots, edits, name))?;
    }
    Ok(list)
}

/// Puts copies of the troves under their names.
pub(crate) fn put_troves(slots: &mut Slots, list: &[Trove]) -> Result<(), OutOfMemory>
    requires rising { IsRising list.now }
    requires was_ordered { IsOrdered (slice_cmp nat_cmp) slots.old }
    ensures troves { OnOk result ((name : List ℕ) → slot slots.new name ≡ put_slot (trove_of name list.now) (slot slots.old name)) }
    ensures ordered { IsOrdered (slice_cmp nat_cmp) slots.new }
{
    for trove in list {
        let name = trove.id().name.copy()?;
        let copy = trove.copy()?;
        slots.insert(name, Some(copy))?;
    }
    Ok(())
}

// Empties the slots of these names.
fn take_names(slots: &mut Slots, names: &[Name]) -> Result<(), OutOfMemory>
    requires was_ordered { IsOrdered (slice_cmp nat_cmp) slots.old }
    ensures names { OnOk result ((name : List ℕ) → slot slots.new name ≡ (if list_any (bytes_eq name) names.now then Some None else slot slots.old name)) }
    ensures ordered { IsOrdered (slice_cmp nat_cmp) slots.new }
{
    for name in names {
        slots.insert(name.copy()?, None)?;
    }
    Ok(())
}

/// The edits that take the troves of some names away and put these troves in.
pub(crate) fn edits_of(alloc: Global, gone: &[Name], come: &[Trove]) -> Result<Slots, OutOfMemory>
    requires { IsRising come.now }
    ensures { IfOk result (λ edits. (name : List ℕ) → slot edits name
        ≡ put_slot (trove_of name come.now) (if list_any (bytes_eq name) gone.now then Some None else None)) }
{
    let mut edits = BTreeMap::new(alloc);
    take_names(&mut edits, gone)?;
    put_troves(&mut edits, come)?;
    Ok(edits)
}

// Makes a slot for a name, without a trove, where there is none.
fn make_slot(slots: &mut Slots, name: &Name) -> Result<(), OutOfMemory>
    requires was_ordered { IsOrdered (slice_cmp nat_cmp) slots.old }
    ensures made { OnOk result (IsSome (slot slots.new name.now)) }
    ensures kept { (other : List ℕ) → IsSome (slot slots.old other) → IsSome (slot slots.new other) }
    ensures same { (other : List ℕ) → spec.held slots.new other ≡ spec.held slots.old other }
    ensures ordered { IsOrdered (slice_cmp nat_cmp) slots.new }
{
    if slots.contains_key(name) {
        return Ok(());
    }
    slots.insert(name.copy()?, None)?;
    Ok(())
}

/// Makes a slot for each name of the edits; the troves stay.
pub(crate) fn make_slots(slots: &mut Slots, edits: &Slots) -> Result<(), OutOfMemory>
    requires was_ordered { IsOrdered (slice_cmp nat_cmp) slots.old }
    ensures made { OnOk result ((name : List ℕ) → IsSome (slot edits.now name) → IsSome (slot slots.new name)) }
    ensures same { (other : List ℕ) → spec.held slots.new other ≡ spec.held slots.old other }
    ensures ordered { IsOrdered (slice_cmp nat_cmp) slots.new }
{
    for name in edits.keys() {
        make_slot(slots, name)?;
    }
    Ok(())
}

// Puts what an edit has in the slot of its name.
fn put_edit(slots: &mut Slots, name: &Name, edit: Option<Trove>)
    requires was_ordered { IsOrdered (slice_cmp nat_cmp) slots.old }
    requires there { IsSome (slot slots.old name.now) }
    ensures edited { (other : List ℕ) → slot slots.new other ≡ (if bytes_eq name.now other then Some edit else slot slots.old other) }
    ensures ordered { IsOrdered (slice_cmp nat_cmp) slots.new }
{
    if let Some(place) = slots.get_mut(name) {
        *place = edit;
    }
}

/// Makes the edits, each name of which has a slot. Takes no memory.
pub(crate) fn commit(slots: &mut Slots, edits: Slots)
    requires was_ordered { IsOrdered (slice_cmp nat_cmp) slots.old }
    requires there { (name : List ℕ) → IsSome (slot edits name) → IsSome (slot slots.old name) }
    ensures made { (name : List ℕ) → spec.held slots.new name ≡ spec.held_after slots.old edits name }
    ensures kept { (name : List ℕ) → IsSome (slot slots.old name) → IsSome (slot slots.new name) }
    ensures ordered { IsOrdered (slice_cmp nat_cmp) slots.new }
{
    let mut left = edits;
    while let Some((name, edit)) = left.pop_first() {
        put_edit(slots, &name, edit);
    }
}
