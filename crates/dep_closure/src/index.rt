//! An index: which troves name a dependency.
ghost use Rattle.std.specs.Prelude.{◌≡◌, ℕ, List, None, IsTrue, IsSome, All, OnOk};
ghost use Rattle.std.specs.BTreeMap.{get_by_text};
ghost use Rattle.std.specs.BTreeSet.{contains};
ghost use Rattle.std.specs.Cmp.Lexicographic.{slice_cmp};
ghost use Rattle.std.specs.Ordering.{nat_cmp};
ghost use Rattle.dep_closure.specs.Closed.{provides_of};
ghost use Rattle.dep_closure.specs.Slots.{notes, IsNoted};

use cny_dep::Dep;
use std::alloc::Global;
use std::collections::{BTreeMap, BTreeSet};
use trove_stream::Trove;
use trove_stream::cny_base::{Copies, Name, OutOfMemory};

/// By the name of a dependency, the names of the troves that require, or provide, something of this name. A trove may stand
/// here that isn't in the list, or has another content there: what is found is looked up in the list.
pub(crate) type Index = BTreeMap<String, BTreeSet<Name>>;

// Adds a name to a set; on want of memory the set stays.
fn note_in(names: &mut BTreeSet<Name>, name: &Name) -> Result<(), OutOfMemory>
    ensures noted { OnOk result (IsTrue (contains (slice_cmp nat_cmp) names.new name.now)) }
    ensures kept { (other : List ℕ) → IsTrue (contains (slice_cmp nat_cmp) names.old other) → IsTrue (contains (slice_cmp nat_cmp) names.new other) }
{
    names.insert(name.copy()?)?;
    Ok(())
}

// Notes a trove beside a name that stands in the index.
fn note_more(index: &mut Index, dep: &str, name: &Name) -> Result<(), OutOfMemory>
    requires { IsSome (get_by_text index.old dep.now) }
    ensures noted { OnOk result (IsTrue (notes index.new dep.now name.now)) }
    ensures kept { (dep name : List ℕ) → IsTrue (notes index.old dep name) → IsTrue (notes index.new dep name) }
{
    if let Some(names) = index.get_mut(dep) {
        note_in(names, name)?;
    }
    Ok(())
}

// Notes a trove beside a name that doesn't stand in the index.
fn note_first(alloc: Global, index: &mut Index, dep: &str, name: &Name) -> Result<(), OutOfMemory>
    requires { get_by_text index.old dep.now ≡ None }
    ensures noted { OnOk result (IsTrue (notes index.new dep.now name.now)) }
    ensures kept { (dep name : List ℕ) → IsTrue (notes index.old dep name) → IsTrue (notes index.new dep name) }
{
    let key = String::from_str(alloc, dep)?;
    let mut names = BTreeSet::new(alloc);
    note_in(&mut names, name)?;
    index.insert(key, names)?;
    Ok(())
}

// Notes a trove beside a name.
fn note(alloc: Global, index: &mut Index, dep: &str, name: &Name) -> Result<(), OutOfMemory>
    ensures noted { OnOk result (IsTrue (notes index.new dep.now name.now)) }
    ensures kept { (dep name : List ℕ) → IsTrue (notes index.old dep name) → IsTrue (notes index.new dep name) }
{
    if index.contains_key(dep) {
        return note_more(index, dep, name);
    }
    note_first(alloc, index, dep, name)
}

// Notes a trove beside the names of these dependencies.
fn note_deps(alloc: Global, index: &mut Index, deps: &[Dep], name: &Name) -> Result<(), OutOfMemory>
    ensures noted { OnOk result (IsNoted index.new name.now deps.now) }
    ensures kept { (dep name : List ℕ) → IsTrue (notes index.old dep name) → IsTrue (notes index.new dep name) }
{
    for dep in deps {
        note(alloc, index, dep.name(), name)?;
    }
    Ok(())
}

/// Notes each trove beside the names of what it requires.
pub(crate) fn note_requirers(
    alloc: Global,
    index: &mut Index,
    list: &[Trove],
) -> Result<(), OutOfMemory>
    ensures noted { OnOk result (All (λ t. IsNoted index.new t.id.name t.requires_) list.now) }
    ensures kept { (dep name : List ℕ) → IsTrue (notes index.old dep name) → IsTrue (notes index.new dep name) }
{
    for trove in list {
        note_deps(alloc, index, trove.requires_(), &trove.id().name)?;
    }
    Ok(())
}

/// Notes each trove beside the names of what it provides, its own one too.
pub(crate) fn note_providers(
    alloc: Global,
    index: &mut Index,
    list: &[Trove],
) -> Result<(), OutOfMemory>
    ensures noted { OnOk result (All (λ t. IsNoted index.new t.id.name (provides_of t)) list.now) }
    ensures kept { (dep name : List ℕ) → IsTrue (notes index.old dep name) → IsTrue (notes index.new dep name) }
{
    for trove in list {
        let name = &trove.id().name;
        note(alloc, index, name.text(), name)?;
        note_deps(alloc, index, trove.provides(), name)?;
    }
    Ok(())
}
