//! Where the troves stand that provide something of a name.
ghost use Rattle.std.specs.Prelude.{◌≡◌, ◌++◌, ◌∷◌, [], ℕ, List, if◌then◌else◌, Contains, IfOk, OnOk};
ghost use Rattle.std.specs.Str.{bytes_eq};
ghost use Rattle.dep_closure.specs.Closed.{provides_of};
ghost use Rattle.sys_model.specs.Providers.{places_in, IsBesideAll, AreNoted};

use cny_dep::Dep;
use indexmap::IndexMap;
use repo_index::cny_base::OutOfMemory;
use repo_index::trove_stream::Trove;
use std::alloc::Global;

/// By the name of a dependency, the places of the troves of a list that provide something of this name.
pub(crate) struct Providers {
    names: IndexMap<String, Vec<usize>>,
}

// Written by hand, so that to let a value go is a single call wherever a function ends early.
impl Drop for Providers {
    fn drop(self) {
        let Providers { names: _names } = self;
    }
}

// Adds a place to those beside a name.
fn add_place(
    alloc: Global,
    names: &mut IndexMap<String, Vec<usize>>,
    name: &str,
    place: usize,
) -> Result<(), OutOfMemory>
    ensures { OnOk result ((other : List ℕ) → places_in names.new other
        ≡ places_in names.old other ++ (if bytes_eq name.now other then place ∷ [] else [])) }
{
    let key = String::from_str(alloc, name)?;
    names.entry(key)?.or_insert(Vec::new(alloc)).push(place)?;
    Ok(())
}

// Adds a place to those beside the name of each of these.
fn add_places(
    alloc: Global,
    names: &mut IndexMap<String, Vec<usize>>,
    deps: &[Dep],
    place: usize,
) -> Result<(), OutOfMemory>
    ensures noted { OnOk result (IsBesideAll names.new deps.now place) }
    ensures kept { OnOk result ((name : List ℕ) (other : ℕ) → Contains (places_in names.old name) other → Contains (places_in names.new name) other) }
{
    for dep in deps {
        add_place(alloc, names, dep.name(), place)?;
    }
    Ok(())
}

// Adds the place of a trove to those beside the names of all that it provides.
fn add_trove(
    alloc: Global,
    names: &mut IndexMap<String, Vec<usize>>,
    trove: &Trove,
    place: usize,
) -> Result<(), OutOfMemory>
    ensures noted { OnOk result (IsBesideAll names.new (provides_of trove.now) place) }
    ensures kept { OnOk result ((name : List ℕ) (other : ℕ) → Contains (places_in names.old name) other → Contains (places_in names.new name) other) }
{
    add_place(alloc, names, trove.id().name.text(), place)?;
    add_places(alloc, names, trove.provides(), place)?;
    Ok(())
}

impl Providers {
    /// Where the troves of a list stand by what they provide.
    pub(crate) fn of(alloc: Global, troves: &[Trove]) -> Result<Self, OutOfMemory>
        ensures { IfOk result (AreNoted troves.now) }
    {
        let mut names = IndexMap::new(alloc);
        for (place, trove) in troves.iter().enumerate() {
            add_trove(alloc, &mut names, trove, place)?;
        }
        Ok(Providers { names })
    }

    /// The places beside a name.
    pub(crate) fn places(&self, name: &str) -> &[usize]
        ensures { result.now ≡ places_in self.now.names name.now }
    {
        match self.names.get(name) {
            Some(places) => places.as_slice(),
            None => &[],
        }
    }
}
