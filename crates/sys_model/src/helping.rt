//! Which trove is added for a requirement that isn't met.
ghost use Rattle.std.specs.Prelude.{◌≡◌, ◌↔◌, ◌⊎◌, ◌≤◌, Some, IsTrue, is_some, IfNone, IfSome};
ghost use Rattle.trove_spec.specs.Resolve as resolve;
ghost use Rattle.sys_model.specs.Candidate.{IsChosen, HasNoChoice};
ghost use Rattle.sys_model.specs.Fit.{IsWished, IsFitAt, IsLastAmong, IsNoneAmong};
ghost use Rattle.sys_model.specs.Providers.{AreNoted};

use crate::meeting::meets;
use crate::providers::Providers;
use crate::view::Fresh;
use cny_dep::{Dep, Flavor, score};
use cny_version::{Label, Version};
use repo_index::Catalogue;
use repo_index::trove_stream::Trove;

/// What a trove that is added has to be: fit for the system, of a name that none has that comes, and meet the requirement.
#[derive(Drop)]
pub(crate) struct Wish<'a> {
    pub(crate) system: &'a Flavor,
    pub(crate) fresh: &'a Fresh,
    pub(crate) require: &'a Dep,
}

// Whether the version is on this label.
fn is_on(label: &Label, version: &Version) -> bool
    ensures { result ≡ resolve.is_on (Some label.now) version.now }
{
    *version.label() == *label
}

// Whether the trove's flavor fits the system.
fn fits(system: &Flavor, trove: &Trove) -> bool
    ensures { result ≡ is_some (resolve.worth system.now trove.now) }
{
    score(&trove.id().flavor, system).is_some()
}

// Whether the trove is on the label and as it has to be.
fn is_fit(wish: &Wish<'_>, label: &Label, trove: &Trove) -> bool
    ensures { IsTrue result ↔ IsWished wish.now label.now trove.now }
{
    if !is_on(label, &trove.id().version) {
        return false;
    }
    if !fits(wish.system, trove) {
        return false;
    }
    if wish.fresh.contains_key(&trove.id().name) {
        return false;
    }
    meets(trove, wish.require)
}

// Whether the trove at this place is there and so.
fn is_fit_at(catalogue: &Catalogue, wish: &Wish<'_>, label: &Label, place: usize) -> bool
    ensures { IsTrue result ↔ IsFitAt (IsWished wish.now label.now) catalogue.now.troves place }
{
    match catalogue.trove_at(place) {
        Some(trove) => is_fit(wish, label, trove),
        None => false,
    }
}

// The later of two places, if there are two.
fn later_of(last: Option<usize>, place: usize) -> usize
    ensures least { place ≤ result }
    ensures above { IfSome last (λ other. other ≤ result) }
    ensures either { IfSome last (λ other. (result ≡ other) ⊎ (result ≡ place)) }
    ensures alone { IfNone last (result ≡ place) }
{
    match last {
        Some(other) => { if other < place { place } else { other } }
        None => place,
    }
}

// The last of these places at which such a trove stands.
fn last_on(catalogue: &Catalogue, places: &[usize], wish: &Wish<'_>, label: &Label) -> Option<usize>
    ensures some { IfSome result (IsLastAmong (IsWished wish.now label.now) catalogue.now.troves places.now) }
    ensures none { IfNone result (IsNoneAmong (IsWished wish.now label.now) catalogue.now.troves places.now) }
{
    let mut last = None;
    for place in places {
        if is_fit_at(catalogue, wish, label, *place) {
            last = Some(later_of(last, *place));
        }
    }
    last
}

/// The trove that is added: on the first of the labels on which there is such a trove, the last one.
pub(crate) fn choice<'a>(
    catalogue: &'a Catalogue,
    providers: &Providers,
    labels: &[Label],
    wish: &Wish<'_>,
) -> Option<&'a Trove>
    requires { AreNoted catalogue.now.troves providers.now }
    ensures some { IfSome result (λ trove. IsChosen (IsWished wish.now) labels.now catalogue.now.troves trove.now) }
    ensures none { IfNone result (HasNoChoice (IsWished wish.now) labels.now catalogue.now.troves) }
{
    let places = providers.places(wish.require.name());
    for label in labels {
        if let Some(place) = last_on(catalogue, places, wish, label) {
            return catalogue.trove_at(place);
        }
    }
    None
}
