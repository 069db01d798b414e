//! What keys that are gone and elements that are set make of a list: one pass over the three.
ghost use Rattle.std.specs.Prelude.{drop, Contains, IfOk, MatchOption};
ghost use Rattle.std.specs.List.Sorted.{IsStrictlySortedBy};
ghost use Rattle.trove_stream.specs.Amends.{by_key, HasKey, Fits, IsAmended};
ghost use Rattle.change_rel.specs.Turns.{IsFateByKeys, IsFate};

use crate::difference::{push_copies, push_copy};
use crate::element::Element;
use std::alloc::Global;
use std::cmp::Ordering;
use trove_stream::cny_base::{Copies, ListOf, OutOfMemory};

/// What becomes of an element of the old list.
#[derive(Clone, Copy)]
pub(crate) enum Fate {
    /// It remains.
    Kept,
    /// Its key is gone.
    Gone,
    /// The next element that is set has its key.
    Replaced,
    /// The next element that is set comes before it.
    Behind,
    /// The changes are none of this list.
    Unfit,
}

// What becomes of the element, by the keys that are gone from a place on alone.
fn fate_by_keys<T: Element<K>, K>(item: &T, gone: &[K], away: usize) -> Fate
    requires gone { IsStrictlySortedBy T.order gone.now }
    ensures { IsFateByKeys T.key_of T.order item.now (drop away gone.now) result }
{
    if away >= gone.len() {
        return Fate::Kept;
    }
    match item.meet_key(&gone[away]) {
        Ordering::Less => Fate::Kept,
        Ordering::Equal => Fate::Gone,
        Ordering::Greater => Fate::Unfit,
    }
}

// What becomes of the element, by the keys that are gone and the elements that are set, each from a place on.
fn fate_of<T: Element<K>, K>(item: &T, gone: &[K], away: usize, set: &[T], next: usize) -> Fate
    requires gone { IsStrictlySortedBy T.order gone.now }
    requires set { IsStrictlySortedBy (by_key T.key_of T.order) set.now }
    ensures { IsFate T.key_of T.order item.now (drop away gone.now) (drop next set.now) result }
{
    if next >= set.len() {
        return fate_by_keys(item, gone, away);
    }
    let other = &set[next];
    match item.meet(other) {
        Ordering::Less => fate_by_keys(item, gone, away),
        Ordering::Equal => {
            if item.is_same(other) {
                return Fate::Unfit;
            }
            Fate::Replaced
        }
        Ordering::Greater => Fate::Behind,
    }
}

/// The old list without the elements whose keys are gone, and with those that are set. None exactly where a key that is gone is
/// that of no element, or an element that is set is one already.
pub(crate) fn amended<T: Element<K> + Copies, K>(
    alloc: Global,
    old: &[T],
    gone: &[K],
    set: &[T],
) -> Result<Option<ListOf<T>>, OutOfMemory>
    requires old { IsStrictlySortedBy (by_key T.key_of T.order) old.now }
    requires gone { IsStrictlySortedBy T.order gone.now }
    requires set { IsStrictlySortedBy (by_key T.key_of T.order) set.now }
    requires apart { (k : K) → Contains gone.now k → HasKey T.key_of set.now k → ⊥ }
    ensures { IfOk result (λ made. MatchOption made (Fits T.key_of gone.now set.now old.now → ⊥)
        (λ fresh. IsAmended T.key_of T.order gone.now set.now old.now fresh)) }
{
    let mut fresh = Vec::with_capacity(alloc, old.len().saturating_add(set.len()))?;
    let mut at = 0;
    let mut away = 0;
    let mut next = 0;
    'merge: loop {
        if at >= old.len() {
            if away < gone.len() {
                return Ok(None);
            }
            push_copies(&mut fresh, &set[next..])?;
            return Ok(Some(ListOf::new(fresh)));
        }
        let item = &old[at];
        match fate_of(item, gone, away, set, next) {
            Fate::Kept => {
                push_copy(&mut fresh, item)?;
                at += 1;
            }
            Fate::Gone => {
                away += 1;
                at += 1;
            }
            Fate::Replaced => {
                push_copy(&mut fresh, &set[next])?;
                next += 1;
                at += 1;
            }
            Fate::Behind => {
                push_copy(&mut fresh, &set[next])?;
                next += 1;
            }
            Fate::Unfit => return Ok(None),
        }
    }
}
