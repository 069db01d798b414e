//! A list of troves that changes, with the indices that tell what a change can break.
ghost use Rattle.std.specs.Prelude.{◌≡◌, ℕ, List, Some, None, if◌then◌else◌, IsTrue, IsSome, All, IfOk, IfErr, OnOk, OnErr};
ghost use Rattle.std.specs.BTreeMap.{IsOrdered};
ghost use Rattle.std.specs.Cmp.Lexicographic.{slice_cmp};
ghost use Rattle.std.specs.List.{list_any};
ghost use Rattle.std.specs.Ordering.{nat_cmp};
ghost use Rattle.std.specs.Str.{bytes_eq};
ghost use Rattle.trove_stream.specs.Installed.{IsRising, trove_of};
ghost use Rattle.dep_closure.specs.Closed.{IsClosed, provides_of};
ghost use Rattle.dep_closure.specs.Changed.{IsChanged, RefusesChange};
ghost use Rattle.dep_closure.specs.Slots.{slot, put_slot, held, held_after, notes, IsNoted, AreNoted, IsPassed, IsFaulty};

use crate::index::{Index, note_providers, note_requirers};
use crate::slots::{Slots, commit, edits_of, listed, make_slots, put_troves};
use crate::staying::test_edits;
use crate::whole::closed;
use std::alloc::Global;
use std::collections::BTreeMap;
use std::marker::Model;
use trove_stream::Trove;
use trove_stream::cny_base::{Fault, Name, OutOfMemory};

/// A list of troves, one of a name, in name order. Whether a change of it keeps it closed is decided from what the change brings
/// and what it takes away; the whole list is tested where it wasn't closed before.
pub struct Closure {
    slots: Slots,
    requirers: Index,
    providers: Index,
    // Only where it is true is the list known to be closed.
    closed: bool,
}

impl Model for Closure {
    ghost use Rattle.std.specs.Prelude.{List};
    ghost use Rattle.trove_stream.specs.declared.parts.TroveParts.{TroveParts};
    ghost use Rattle.dep_closure.specs.Slots.{all_held, IsKept};

    ghost Value = { List TroveParts };

    ghost view = { λ a. all_held a.slots };

    ghost invariant = { λ a. IsKept a.slots a.requirers a.providers a.closed };
}

// Written by hand, so that to let a value go is a single call wherever a function ends early.
impl Drop for Closure {
    fn drop(self) {
        let Closure {
            slots: _slots,
            requirers: _requirers,
            providers: _providers,
            closed: _closed,
        } = self;
    }
}

// Makes ready for a change: the edits, with a slot for each of their names, and the indices with what they bring. The troves stay.
fn prepare(
    alloc: Global,
    slots: &mut Slots,
    requirers: &mut Index,
    providers: &mut Index,
    gone: &[Name],
    come: &[Trove],
) -> Result<Slots, OutOfMemory>
    requires rising { IsRising come.now }
    requires was_ordered { IsOrdered (slice_cmp nat_cmp) slots.old }
    ensures edits { IfOk result (λ edits. (name : List ℕ) → slot edits name
        ≡ put_slot (trove_of name come.now) (if list_any (bytes_eq name) gone.now then Some None else None)) }
    ensures made { IfOk result (λ edits. (name : List ℕ) → IsSome (slot edits name) → IsSome (slot slots.new name)) }
    ensures requirers { OnOk result (All (λ t. IsNoted requirers.new t.id.name t.requires_) come.now) }
    ensures providers { OnOk result (All (λ t. IsNoted providers.new t.id.name (provides_of t)) come.now) }
    ensures requirers_kept { (dep name : List ℕ) → IsTrue (notes requirers.old dep name) → IsTrue (notes requirers.new dep name) }
    ensures providers_kept { (dep name : List ℕ) → IsTrue (notes providers.old dep name) → IsTrue (notes providers.new dep name) }
    ensures same { (name : List ℕ) → held slots.new name ≡ held slots.old name }
    ensures ordered { IsOrdered (slice_cmp nat_cmp) slots.new }
{
    let edits = edits_of(alloc, gone, come)?;
    note_requirers(alloc, requirers, come)?;
    note_providers(alloc, providers, come)?;
    make_slots(slots, &edits)?;
    Ok(edits)
}

// Tests the list that the edits make, where the troves are closed if `is_closed` says so.
fn test(
    alloc: Global,
    slots: &Slots,
    edits: &Slots,
    providers: &Index,
    requirers: &Index,
    is_closed: bool,
) -> Result<(), Fault>
    requires { AreNoted (held_after slots.now edits.now) providers.now }
    ensures ok { OnOk result (IsPassed slots.now edits.now requirers.now is_closed) }
    ensures fault { IfErr result (IsFaulty slots.now edits.now requirers.now is_closed) }
{
    if is_closed {
        return test_edits(alloc, slots, edits, providers, requirers);
    }
    let list = listed(alloc, slots, edits)?;
    closed(alloc, list.as_slice())
}

// Whether the list is known to be closed.
fn is_closed(alloc: Global, list: &[Trove]) -> Result<bool, OutOfMemory>
    ensures { IfOk result (λ known. IsTrue known → IsClosed list.now) }
{
    match closed(alloc, list) {
        Ok(()) => Ok(true),
        Err(Fault::Refused(_)) => Ok(false),
        Err(Fault::Memory) => Err(OutOfMemory),
    }
}

impl Closure {
    /// The closure of a list whose names rise. The list may be closed or not.
    pub fn of(alloc: Global, list: &[Trove]) -> Result<Self, OutOfMemory>
        requires { IsRising list.now }
        ensures { IfOk result (λ closure. closure ≡ list.now) }
    {
        let mut slots = BTreeMap::new(alloc);
        let mut requirers = BTreeMap::new(alloc);
        let mut providers = BTreeMap::new(alloc);
        put_troves(&mut slots, list)?;
        note_requirers(alloc, &mut requirers, list)?;
        note_providers(alloc, &mut providers, list)?;
        let known = is_closed(alloc, list)?;
        Ok(Closure {
            slots,
            requirers,
            providers,
            closed: known,
        })
    }

    /// Takes the troves of the names `gone` away and puts the troves `come` in, whose names rise; where the list has a trove of
    /// such a name still, the one that comes takes its place. `Unmet` exactly where `closed` answers it on the changed list,
    /// and with the same name and requirement. An error changes nothing.
    pub fn change(&mut self, alloc: Global, gone: &[Name], come: &[Trove]) -> Result<(), Fault>
        requires { IsRising come.now }
        ensures ok { OnOk result (IsChanged gone.now come.now self.old self.new) }
        ensures closed { OnOk result (IsClosed self.new) }
        ensures fault { IfErr result (RefusesChange gone.now come.now self.old) }
        ensures err { OnErr result (self.new ≡ self.old) }
    {
        let edits = prepare(
            alloc,
            &mut self.slots,
            &mut self.requirers,
            &mut self.providers,
            gone,
            come,
        )?;
        let tested = test(
            alloc,
            &self.slots,
            &edits,
            &self.providers,
            &self.requirers,
            self.closed,
        );
        if let Err(fault) = tested {
            return Err(fault);
        }
        commit(&mut self.slots, edits);
        self.closed = true;
        Ok(())
    }
}
