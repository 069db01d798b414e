//! Whether a list of troves is closed.
ghost use Rattle.std.specs.Prelude.{◌≡◌, IsTrue, OnOk, IfOk, IfErr};
ghost use Rattle.trove_stream.specs.cny-base.declared.refusal.Refusal.TheVariants as refusal;
ghost use Rattle.cny_dep.specs.Dep.{dep_text};
ghost use Rattle.dep_closure.specs.Closed.{IsMet, IsClosed, IsUnmetOrMemory};

use crate::providing::{Meets, first_unmet, is_met_by_any};
use cny_dep::Dep;
use std::alloc::Global;
use std::collections::BTreeMap;
use trove_stream::Trove;
use trove_stream::cny_base::{Fault, Name, OutOfMemory, Refusal, Text};

// By the name of a dependency, the places of the troves that provide something of this name. Only where to look first: what is
// found there is looked at, and where nothing is found the whole list is.
type Providers = BTreeMap<String, Vec<usize>>;

fn note_place(
    alloc: Global,
    providers: &mut Providers,
    name: &str,
    place: usize,
) -> Result<(), OutOfMemory> {
    let key = String::from_str(alloc, name)?;
    providers
        .entry(key)?
        .or_insert(Vec::new(alloc))
        .push(place)?;
    Ok(())
}

// Notes the place of a trove beside the names of all that it provides.
fn note_trove(
    alloc: Global,
    providers: &mut Providers,
    trove: &Trove,
    place: usize,
) -> Result<(), OutOfMemory> {
    note_place(alloc, providers, trove.id().name.text(), place)?;
    for provide in trove.provides() {
        note_place(alloc, providers, provide.name(), place)?;
    }
    Ok(())
}

fn providers_of(alloc: Global, list: &[Trove]) -> Result<Providers, OutOfMemory> {
    let mut providers = BTreeMap::new(alloc);
    for place in 0..list.len() {
        note_trove(alloc, &mut providers, &list[place], place)?;
    }
    Ok(providers)
}

// Whether the trove at this place of the list is there and meets the requirement.
fn is_met_at(list: &[Trove], place: usize, require: &Dep) -> bool
    ensures { IsTrue result → IsMet list.now require.now }
{
    if place >= list.len() {
        return false;
    }
    list[place].meets(require)
}

// Whether a trove at one of these places of the list meets the requirement.
fn is_met_at_any(list: &[Trove], places: &[usize], require: &Dep) -> bool
    ensures { IsTrue result → IsMet list.now require.now }
{
    for place in places {
        if is_met_at(list, *place, require) {
            return true;
        }
    }
    false
}

// A list, with the places of its troves that provide something of a name.
#[derive(Drop)]
struct Listed<'a> {
    list: &'a [Trove],
    providers: &'a Providers,
}

impl Meets for Listed<'_> {
    ghost can_tell = { λ _. Unit {0} };

    ghost is_met = { λ listed require. IsMet listed.list.now require };

    fn meets(&self, require: &Dep) -> bool {
        if let Some(places) = self.providers.get(require.name()) {
            if is_met_at_any(self.list, places.as_slice(), require) {
                return true;
            }
        }
        is_met_by_any(self.list, require)
    }
}

/// The refusal of a requirement of the trove of this name.
pub(crate) fn unmet(alloc: Global, name: &Name, require: &Dep) -> Result<Refusal, OutOfMemory>
    ensures { IfOk result (λ made. made ≡ refusal.Unmet name.now (dep_text require.now)) }
{
    let name = Text::new(alloc, name.text())?;
    let dep = require.write()?;
    Ok(Refusal::Unmet { name, dep })
}

/// Tests that each requirement of each trove of the list is satisfied by what some trove of it provides. Each trove provides
/// what it lists and, of the class `trove`, its own name without flags. `Unmet` exactly where a requirement isn't satisfied,
/// with the name of the first trove that has such a requirement and the text of its first one. The names of the troves may
/// come in any order, and more than once.
pub fn closed(alloc: Global, list: &[Trove]) -> Result<(), Fault>
    ensures ok { OnOk result (IsClosed list.now) }
    ensures fault { IfErr result (IsUnmetOrMemory list.now) }
{
    let providers = providers_of(alloc, list)?;
    for trove in list {
        let listed = Listed {
            list,
            providers: &providers,
        };
        if let Some(require) = first_unmet(&listed, trove.requires_()) {
            let refusal = unmet(alloc, &trove.id().name, require)?;
            return Err(Fault::Refused(refusal));
        }
    }
    Ok(())
}
