//! What a round looks at: the troves of its list by their names, and which of them meet a requirement.
ghost use Rattle.std.specs.Prelude.{◌≡◌, ◌↔◌, ℕ, false, IsTrue, All, Contains, slice_get, Some, IfNone, IfSome};
ghost use Rattle.std.specs.Option.{option_copied};
ghost use Rattle.repo_index.specs.trove-stream.declared.parts.TroveParts.{TroveParts};
ghost use Rattle.dep_closure.specs.Closed.{IsFirstNotMet};
ghost use Rattle.dep_closure.specs.Slots.{IsMetBy, IsServed, IsNoProvider};
ghost use Rattle.sys_model.specs.Held.{held_in, IsView, IsFirstOf};

use crate::meeting::meets;
use crate::providers::Providers;
use cny_dep::Dep;
use repo_index::Catalogue;
use repo_index::cny_base::Name;
use repo_index::trove_stream::{Installed, Trove};
use std::collections::BTreeMap;

/// By name, the places of the troves of the repository that come.
pub(crate) type Fresh = BTreeMap<Name, usize>;

/// The list of a round, and where to look for what meets a requirement.
#[derive(Drop)]
pub(crate) struct View<'a> {
    pub(crate) catalogue: &'a Catalogue,
    pub(crate) installed: &'a Installed,
    // Where the troves of the repository stand by what they provide, and where the installed ones do.
    pub(crate) comers: &'a Providers,
    pub(crate) stayers: &'a Providers,
    // What comes, and the installed troves that stay.
    pub(crate) fresh: &'a Fresh,
    pub(crate) kept: &'a Installed,
}

/// A trove, and its first requirement that isn't met.
#[derive(Drop)]
pub(crate) struct Unmet<'a> {
    pub(crate) trove: &'a Trove,
    pub(crate) require: &'a Dep,
}

// The trove of a name: the one that comes, or else the one that stays.
fn held<'a>(view: &View<'a>, name: &Name) -> Option<&'a Trove>
    ensures { option_copied result ≡ held_in view.now name.now }
{
    match view.fresh.get(name) {
        Some(place) => view.catalogue.trove_at(*place),
        None => view.kept.get(name),
    }
}

// Whether the trove of this name is there and meets the requirement.
fn is_met_by(view: &View<'_>, name: &Name, require: &Dep) -> bool
    ensures met { IsTrue result → IsMetBy (held_in view.now) require.now }
    ensures unmet { result ≡ false → IsNoProvider (held_in view.now) require.now name.now }
{
    match held(view, name) {
        Some(trove) => meets(trove, require),
        None => false,
    }
}

// The trove at this place of a list, if there is one.
fn trove_at(list: &[Trove], place: usize) -> Option<&Trove>
    ensures { option_copied result ≡ slice_get list.now place }
{
    list.get(place)
}

// Whether the trove with the name of the one at this place of the list is there and meets the requirement.
fn is_met_at(view: &View<'_>, list: &[Trove], place: usize, require: &Dep) -> bool
    ensures met { IsTrue result → IsMetBy (held_in view.now) require.now }
    ensures unmet { result ≡ false → (t : TroveParts) → slice_get list.now place ≡ Some t → IsNoProvider (held_in view.now) require.now t.id.name }
{
    match trove_at(list, place) {
        Some(trove) => is_met_by(view, &trove.id().name, require),
        None => false,
    }
}

// The same of one of these places.
fn is_met_at_any(view: &View<'_>, list: &[Trove], places: &[usize], require: &Dep) -> bool
    ensures met { IsTrue result → IsMetBy (held_in view.now) require.now }
    ensures unmet { result ≡ false → (place : ℕ) (t : TroveParts) → Contains places.now place → slice_get list.now place ≡ Some t
        → IsNoProvider (held_in view.now) require.now t.id.name }
{
    for place in places {
        if is_met_at(view, list, *place, require) {
            return true;
        }
    }
    false
}

// Whether a trove of the list meets the requirement: only one that stands beside its name can.
fn is_met(view: &View<'_>, require: &Dep) -> bool
    requires { IsView view.now }
    ensures { IsTrue result ↔ IsMetBy (held_in view.now) require.now }
{
    let comers = view.comers.places(require.name());
    if is_met_at_any(view, view.catalogue.troves(), comers, require) {
        return true;
    }
    let stayers = view.stayers.places(require.name());
    is_met_at_any(view, view.installed.troves(), stayers, require)
}

// The first of these requirements that isn't met.
fn first_unmet<'a>(view: &View<'_>, required: &'a [Dep]) -> Option<&'a Dep>
    requires { IsView view.now }
    ensures none { IfNone result (All (IsMetBy (held_in view.now)) required.now) }
    ensures some { IfSome result (λ require. IsFirstNotMet (IsMetBy (held_in view.now)) required.now require.now) }
{
    for require in required {
        if !is_met(view, require) {
            return Some(require);
        }
    }
    None
}

/// The first requirement of the trove of this name that isn't met, if there are the trove and such a requirement.
pub(crate) fn unmet_of<'a>(view: &View<'a>, name: &Name) -> Option<Unmet<'a>>
    requires { IsView view.now }
    ensures none { IfNone result (IsServed (held_in view.now) name.now) }
    ensures some { IfSome result (IsFirstOf (held_in view.now) name.now) }
{
    let trove = held(view, name)?;
    let require = first_unmet(view, trove.requires_())?;
    Some(Unmet { trove, require })
}
