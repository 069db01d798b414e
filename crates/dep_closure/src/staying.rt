//! Which trove is the first that has a requirement that isn't met, once edits are made of a list that is closed. Only a trove that
//! comes can have one, or a trove that may require something of the name of a provide which goes and which no trove provides as
//! well; so only these are looked at. The bound in what follows is the first name of such a trove that was found so far.
ghost use Rattle.std.specs.Prelude.{◌≡◌, ◌↔◌, ℕ, List, false, IsTrue, All, Some, None, IfErr, OnOk};
ghost use Rattle.std.specs.BTreeSet.{contains};
ghost use Rattle.std.specs.Cmp.Lexicographic.{slice_cmp};
ghost use Rattle.std.specs.Option.{option_copied};
ghost use Rattle.std.specs.Ordering.{nat_cmp};
ghost use Rattle.trove_stream.specs.declared.parts.TroveParts.{TroveParts};
ghost use Rattle.dep_closure.specs.Closed.{own_provide, provides_of};
ghost use Rattle.dep_closure.specs.Slots as spec;
ghost use Rattle.dep_closure.specs.Slots.{notes, AreNoted, IsMetBy, IsNoProvider, IsUnmetAt, IsServed, IsServedBefore, IsUnserved, IsBefore, IsLowered, IsNoLoss, IsHarmless, AreHarmless, IsFirstFault};

use crate::index::Index;
use crate::providing::{Meets, first_unmet};
use crate::slots::{Slots, held, held_after};
use crate::whole::unmet;
use cny_dep::Dep;
use std::alloc::Global;
use std::collections::BTreeSet;
use trove_stream::Trove;
use trove_stream::cny_base::{Fault, Name};

// Whether the trove of this name is there and meets the requirement.
fn is_met_by(slots: &Slots, edits: &Slots, name: &Name, require: &Dep) -> bool
    ensures met { IsTrue result → IsMetBy (spec.held_after slots.now edits.now) require.now }
    ensures unmet { result ≡ false → IsNoProvider (spec.held_after slots.now edits.now) require.now name.now }
{
    match held_after(slots, edits, name) {
        Some(trove) => trove.meets(require),
        None => false,
    }
}

// Whether a trove of one of these names meets the requirement.
fn is_met_by_any(slots: &Slots, edits: &Slots, names: &BTreeSet<Name>, require: &Dep) -> bool
    ensures met { IsTrue result → IsMetBy (spec.held_after slots.now edits.now) require.now }
    ensures unmet { result ≡ false → (name : List ℕ) → IsTrue (contains (slice_cmp nat_cmp) names.now name)
        → IsNoProvider (spec.held_after slots.now edits.now) require.now name }
{
    for name in names.iter() {
        if is_met_by(slots, edits, name, require) {
            return true;
        }
    }
    false
}

// Whether some trove meets the requirement: only one that is noted for a provide of its name can.
fn is_met(slots: &Slots, edits: &Slots, providers: &Index, require: &Dep) -> bool
    requires { AreNoted (spec.held_after slots.now edits.now) providers.now }
    ensures { IsTrue result ↔ IsMetBy (spec.held_after slots.now edits.now) require.now }
{
    match providers.get(require.name()) {
        Some(names) => is_met_by_any(slots, edits, names, require),
        None => false,
    }
}

// The troves once the edits are made, with the index of what they provide.
#[derive(Drop)]
struct Edited<'a> {
    slots: &'a Slots,
    edits: &'a Slots,
    providers: &'a Index,
}

impl Meets for Edited<'_> {
    ghost can_tell = { λ edited. AreNoted (spec.held_after edited.slots.now edited.edits.now) edited.providers.now };

    ghost is_met = { λ edited require. IsMetBy (spec.held_after edited.slots.now edited.edits.now) require };

    fn meets(&self, require: &Dep) -> bool {
        is_met(self.slots, self.edits, self.providers, require)
    }
}

fn are_met(slots: &Slots, edits: &Slots, providers: &Index, required: &[Dep]) -> bool
    requires { AreNoted (spec.held_after slots.now edits.now) providers.now }
    ensures { IsTrue result ↔ All (IsMetBy (spec.held_after slots.now edits.now)) required.now }
{
    let edited = Edited {
        slots,
        edits,
        providers,
    };
    match first_unmet(&edited, required) {
        Some(_) => false,
        None => true,
    }
}

// Tests the requirements of the trove of this name, if there is one.
fn test_trove(
    alloc: Global,
    slots: &Slots,
    edits: &Slots,
    providers: &Index,
    name: &Name,
) -> Result<(), Fault>
    requires { AreNoted (spec.held_after slots.now edits.now) providers.now }
    ensures ok { OnOk result (IsServed (spec.held_after slots.now edits.now) name.now) }
    ensures fault { IfErr result (IsUnmetAt (spec.held_after slots.now edits.now) name.now) }
{
    let Some(trove) = held_after(slots, edits, name) else {
        return Ok(());
    };
    let edited = Edited {
        slots,
        edits,
        providers,
    };
    let Some(require) = first_unmet(&edited, trove.requires_()) else {
        return Ok(());
    };
    let refusal = unmet(alloc, &trove.id().name, require)?;
    Err(Fault::Refused(refusal))
}

// Whether the trove of this name, if there is one, has its requirements met.
fn is_served(slots: &Slots, edits: &Slots, providers: &Index, name: &Name) -> bool
    requires { AreNoted (spec.held_after slots.now edits.now) providers.now }
    ensures { IsTrue result ↔ IsServed (spec.held_after slots.now edits.now) name.now }
{
    match held_after(slots, edits, name) {
        Some(trove) => are_met(slots, edits, providers, trove.requires_()),
        None => true,
    }
}

// Whether the name comes before the bound, if there is one.
fn is_before(name: &Name, bound: Option<&Name>) -> bool
    ensures { IsTrue result ↔ IsBefore (option_copied bound.entry) name.now }
{
    match bound {
        Some(first) => *name < *first,
        None => true,
    }
}

// The bound, or this name, if it comes before it and its trove has a requirement that isn't met.
fn bound_by<'a>(
    slots: &Slots,
    edits: &Slots,
    providers: &Index,
    name: &'a Name,
    bound: Option<&'a Name>,
) -> Option<&'a Name>
    requires { AreNoted (spec.held_after slots.now edits.now) providers.now }
    ensures lowered { IsLowered (spec.held_after slots.now edits.now) (option_copied bound.entry) (option_copied result) }
    ensures served { IsServedBefore (spec.held_after slots.now edits.now) (option_copied result) name.now }
{
    if !is_before(name, bound) {
        return bound;
    }
    if is_served(slots, edits, providers, name) {
        return bound;
    }
    Some(name)
}

// The same for each of these names.
fn bound_by_names<'a>(
    slots: &Slots,
    edits: &Slots,
    providers: &Index,
    names: &'a BTreeSet<Name>,
    bound: Option<&'a Name>,
) -> Option<&'a Name>
    requires { AreNoted (spec.held_after slots.now edits.now) providers.now }
    ensures lowered { IsLowered (spec.held_after slots.now edits.now) (option_copied bound.entry) (option_copied result) }
    ensures served { (name : List ℕ) → IsTrue (contains (slice_cmp nat_cmp) names.now name)
        → IsServedBefore (spec.held_after slots.now edits.now) (option_copied result) name }
{
    let mut lowest = bound;
    for name in names.iter() {
        lowest = bound_by(slots, edits, providers, name, lowest);
    }
    lowest
}

// The same for the names of the troves that are noted for a requirement of this name.
fn bound_by_requirers<'a>(
    slots: &Slots,
    edits: &Slots,
    providers: &Index,
    requirers: &'a Index,
    dep: &str,
    bound: Option<&'a Name>,
) -> Option<&'a Name>
    requires { AreNoted (spec.held_after slots.now edits.now) providers.now }
    ensures lowered { IsLowered (spec.held_after slots.now edits.now) (option_copied bound.entry) (option_copied result) }
    ensures served { (name : List ℕ) → IsTrue (notes requirers.now dep.now name)
        → IsServedBefore (spec.held_after slots.now edits.now) (option_copied result) name }
{
    match requirers.get(dep) {
        Some(names) => bound_by_names(slots, edits, providers, names, bound),
        None => bound,
    }
}

// The same where such a provide goes, unless what some trove provides is as good.
fn bound_by_provide<'a>(
    slots: &Slots,
    edits: &Slots,
    providers: &Index,
    requirers: &'a Index,
    provide: &Dep,
    bound: Option<&'a Name>,
) -> Option<&'a Name>
    requires { AreNoted (spec.held_after slots.now edits.now) providers.now }
    ensures lowered { IsLowered (spec.held_after slots.now edits.now) (option_copied bound.entry) (option_copied result) }
    ensures no_loss { IsNoLoss (spec.held_after slots.now edits.now) requirers.now (option_copied result) provide.now }
{
    if is_met(slots, edits, providers, provide) {
        return bound;
    }
    bound_by_requirers(slots, edits, providers, requirers, provide.name(), bound)
}

// The same where these provides go.
fn bound_by_provides<'a>(
    slots: &Slots,
    edits: &Slots,
    providers: &Index,
    requirers: &'a Index,
    provides: &[Dep],
    bound: Option<&'a Name>,
) -> Option<&'a Name>
    requires { AreNoted (spec.held_after slots.now edits.now) providers.now }
    ensures lowered { IsLowered (spec.held_after slots.now edits.now) (option_copied bound.entry) (option_copied result) }
    ensures no_loss { All (IsNoLoss (spec.held_after slots.now edits.now) requirers.now (option_copied result)) provides.now }
{
    let mut lowest = bound;
    for provide in provides {
        lowest = bound_by_provide(slots, edits, providers, requirers, provide, lowest);
    }
    lowest
}

// The same where what a trove provides by its name goes, unless a trove of its name comes.
fn bound_by_own<'a>(
    slots: &Slots,
    edits: &Slots,
    providers: &Index,
    requirers: &'a Index,
    name: &Name,
    bound: Option<&'a Name>,
) -> Option<&'a Name>
    requires { AreNoted (spec.held_after slots.now edits.now) providers.now }
    ensures lowered { IsLowered (spec.held_after slots.now edits.now) (option_copied bound.entry) (option_copied result) }
    ensures no_loss { IsNoLoss (spec.held_after slots.now edits.now) requirers.now (option_copied result) (own_provide name.now) }
{
    if held_after(slots, edits, name).is_some() {
        return bound;
    }
    bound_by_requirers(slots, edits, providers, requirers, name.text(), bound)
}

// The same where what the trove of this name provides goes, if there is one.
fn bound_by_lost<'a>(
    slots: &Slots,
    edits: &Slots,
    providers: &Index,
    requirers: &'a Index,
    name: &Name,
    bound: Option<&'a Name>,
) -> Option<&'a Name>
    requires { AreNoted (spec.held_after slots.now edits.now) providers.now }
    ensures lowered { IsLowered (spec.held_after slots.now edits.now) (option_copied bound.entry) (option_copied result) }
    ensures no_loss { (t : TroveParts) → spec.held slots.now name.now ≡ Some t
        → All (IsNoLoss (spec.held_after slots.now edits.now) requirers.now (option_copied result)) (provides_of t) }
{
    let Some(trove) = held(slots, name) else {
        return bound;
    };
    let own = bound_by_own(slots, edits, providers, requirers, &trove.id().name, bound);
    bound_by_provides(slots, edits, providers, requirers, trove.provides(), own)
}

// The same for the edit of this name.
fn bound_by_edit<'a>(
    slots: &Slots,
    edits: &Slots,
    providers: &Index,
    requirers: &'a Index,
    name: &'a Name,
    bound: Option<&'a Name>,
) -> Option<&'a Name>
    requires { AreNoted (spec.held_after slots.now edits.now) providers.now }
    ensures lowered { IsLowered (spec.held_after slots.now edits.now) (option_copied bound.entry) (option_copied result) }
    ensures harmless { IsHarmless (spec.held slots.now) (spec.held_after slots.now edits.now) requirers.now (option_copied result) name.now }
{
    let own = bound_by(slots, edits, providers, name, bound);
    bound_by_lost(slots, edits, providers, requirers, name, own)
}

// The first name of a trove that has a requirement which isn't met once the edits are made.
fn first_unserved<'a>(
    slots: &Slots,
    edits: &'a Slots,
    providers: &Index,
    requirers: &'a Index,
) -> Option<&'a Name>
    requires { AreNoted (spec.held_after slots.now edits.now) providers.now }
    ensures harmless { AreHarmless slots.now edits.now requirers.now (option_copied result) }
    ensures unserved { IsUnserved (spec.held_after slots.now edits.now) (option_copied result) }
{
    let mut lowest = None;
    for name in edits.keys() {
        lowest = bound_by_edit(slots, edits, providers, requirers, name, lowest);
    }
    lowest
}

/// Tests the list that the edits make of one that is closed, by what they bring and take away.
pub(crate) fn test_edits(
    alloc: Global,
    slots: &Slots,
    edits: &Slots,
    providers: &Index,
    requirers: &Index,
) -> Result<(), Fault>
    requires { AreNoted (spec.held_after slots.now edits.now) providers.now }
    ensures ok { OnOk result (AreHarmless slots.now edits.now requirers.now None) }
    ensures fault { IfErr result (IsFirstFault slots.now edits.now requirers.now) }
{
    match first_unserved(slots, edits, providers, requirers) {
        Some(name) => test_trove(alloc, slots, edits, providers, name),
        None => Ok(()),
    }
}
