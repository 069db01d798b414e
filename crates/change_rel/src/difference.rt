//! What leads from one list to another: one pass over both.
ghost use Rattle.std.specs.Prelude.{◌≡◌, ◌⊎◌, ◌++◌, ◌∷◌, [], IfOk, OnOk, map};
ghost use Rattle.std.specs.List.Sorted.{IsStrictlySortedBy};
ghost use Rattle.trove_stream.specs.Amends.{by_key, IsAmended};

use crate::element::Element;
use std::alloc::Global;
use std::cmp::Ordering;
use trove_stream::cny_base::{Copies, ListOf, OutOfMemory};

/// Keys that are gone, and elements that are set.
#[derive(Drop)]
pub(crate) struct Changes<T, K> {
    pub(crate) gone: ListOf<K>,
    pub(crate) set: ListOf<T>,
}

fn changes_of<T, K>(gone: Vec<K>, set: Vec<T>) -> Changes<T, K>
    ensures gone { result.gone ≡ gone.items }
    ensures set { result.set ≡ set.items }
{
    Changes {
        gone: ListOf::new(gone),
        set: ListOf::new(set),
    }
}

fn push_key<T: Element<K>, K: Drop>(keys: &mut Vec<K>, item: &T) -> Result<(), OutOfMemory>
    ensures { OnOk result (keys.new.items ≡ keys.old.items ++ T.key_of item.now ∷ []) }
{
    keys.push(item.key()?)?;
    Ok(())
}

fn push_keys<T: Element<K>, K: Drop>(keys: &mut Vec<K>, items: &[T]) -> Result<(), OutOfMemory>
    ensures { OnOk result (keys.new.items ≡ keys.old.items ++ map T.key_of items.now) }
{
    for item in items {
        push_key(keys, item)?;
    }
    Ok(())
}

/// Appends a copy.
pub(crate) fn push_copy<T: Copies>(copies: &mut Vec<T>, item: &T) -> Result<(), OutOfMemory>
    ensures { OnOk result (copies.new.items ≡ copies.old.items ++ item.now ∷ []) }
{
    copies.push(item.copy()?)?;
    Ok(())
}

/// Appends copies.
pub(crate) fn push_copies<T: Copies>(copies: &mut Vec<T>, items: &[T]) -> Result<(), OutOfMemory>
    ensures { OnOk result (copies.new.items ≡ copies.old.items ++ items.now) }
{
    for item in items {
        push_copy(copies, item)?;
    }
    Ok(())
}

// Appends a copy of the new element, where it isn't the old one again.
fn push_changed<T: Element<K> + Copies, K>(
    set: &mut Vec<T>,
    old: &T,
    fresh: &T,
) -> Result<(), OutOfMemory>
    ensures { OnOk result (((old.now ≡ fresh.now) × (set.new.items ≡ set.old.items))
        ⊎ ((old.now ≡ fresh.now → ⊥) × (set.new.items ≡ set.old.items ++ fresh.now ∷ []))) }
{
    if old.is_same(fresh) {
        return Ok(());
    }
    push_copy(set, fresh)
}

/// The keys that are gone and the elements that are set on the way from one list to another, each strictly rising.
pub(crate) fn difference<T: Element<K> + Copies, K: Drop>(
    alloc: Global,
    old: &[T],
    fresh: &[T],
) -> Result<Changes<T, K>, OutOfMemory>
    requires old { IsStrictlySortedBy (by_key T.key_of T.order) old.now }
    requires fresh { IsStrictlySortedBy (by_key T.key_of T.order) fresh.now }
    ensures { IfOk result (λ changes. IsAmended T.key_of T.order changes.gone changes.set old.now fresh.now) }
{
    let mut gone = Vec::new(alloc);
    let mut set = Vec::with_capacity(alloc, fresh.len())?;
    let mut at = 0;
    let mut next = 0;
    'merge: loop {
        if at >= old.len() {
            push_copies(&mut set, &fresh[next..])?;
            return Ok(changes_of(gone, set));
        }
        if next >= fresh.len() {
            push_keys(&mut gone, &old[at..])?;
            return Ok(changes_of(gone, set));
        }
        let was = &old[at];
        let is = &fresh[next];
        match was.meet(is) {
            Ordering::Less => {
                push_key(&mut gone, was)?;
                at += 1;
            }
            Ordering::Equal => {
                push_changed(&mut set, was, is)?;
                at += 1;
                next += 1;
            }
            Ordering::Greater => {
                push_copy(&mut set, is)?;
                next += 1;
            }
        }
    }
}
