//! The troves of a name that a specification may mean.
ghost use Rattle.std.specs.Prelude.{◌≡◌, None, Some, filter};
ghost use Rattle.std.specs.List.{last_or};
ghost use Rattle.std.specs.Option.{option_copied};
ghost use Rattle.repo_index.specs.Places.{troves_at};
ghost use Rattle.trove_spec.specs.Resolve as spec;
ghost use Rattle.trove_spec.specs.Resolve.{candidates_of, best, kept};

use cny_dep::{Flavor, score};
use cny_version::{Label, Version};
use repo_index::Catalogue;
use repo_index::trove_stream::Trove;

// Whether the version is on this label, where one is given.
fn is_on(label: Option<&Label>, version: &Version) -> bool
    ensures { result ≡ spec.is_on (option_copied label.entry) version.now }
{
    match label {
        Some(label) => *version.label() == *label,
        None => true,
    }
}

// Whether it is this version, where one is given.
fn is_version(given: Option<&Version>, version: &Version) -> bool
    ensures { result ≡ spec.is_version (option_copied given.entry) version.now }
{
    match given {
        Some(given) => *version == *given,
        None => true,
    }
}

// Whether the trove is on this label and has this version, where they are given, and fits the system.
fn is_candidate(
    label: Option<&Label>,
    version: Option<&Version>,
    system: &Flavor,
    trove: &Trove,
) -> bool
    ensures { result ≡ spec.is_candidate (option_copied label.entry) (option_copied version.entry) system.now trove.now }
{
    let on_label = is_on(label, &trove.id().version);
    let has_version = is_version(version, &trove.id().version);
    let fits = score(&trove.id().flavor, system).is_some();
    on_label && has_version && fits
}

/// The last of the candidates at these places.
pub(crate) fn last_candidate<'a>(
    catalogue: &'a Catalogue,
    places: &[usize],
    label: Option<&Label>,
    version: Option<&Version>,
    system: &Flavor,
) -> Option<&'a Trove>
    ensures { option_copied result
        ≡ last_or None (candidates_of (option_copied label.entry) (option_copied version.entry) system.now (troves_at catalogue.now.troves places.now)) }
{
    let mut rest = places;
    while let Some((place, before)) = rest.split_last() {
        if let Some(trove) = catalogue.trove_at(*place) {
            if is_candidate(label, version, system, trove) {
                return Some(trove);
            }
        }
        rest = before;
    }
    None
}

// What the trove's flavor is worth, or 0 where it doesn't fit.
fn points(system: &Flavor, trove: &Trove) -> i32
    ensures { result ≡ spec.points system.now trove.now }
{
    score(&trove.id().flavor, system).unwrap_or(0)
}

// Whether a trove fits the system better than another: it is worth more, or as much and its flavor's text comes first.
fn is_better(system: &Flavor, trove: &Trove, other: &Trove) -> bool
    ensures { result ≡ spec.is_better system.now trove.now other.now }
{
    let by_worth = points(system, other).cmp(&points(system, trove));
    let by_text = trove.id().flavor.text().cmp(other.id().flavor.text());
    by_worth.then(by_text).is_lt()
}

// The better of the best so far, if there is one, and a trove.
fn better<'a>(system: &Flavor, best: Option<&'a Trove>, trove: &'a Trove) -> &'a Trove
    ensures { result.now ≡ kept system.now (option_copied best.entry) trove.now }
{
    match best {
        None => trove,
        Some(best) => {
            if is_better(system, trove, best) {
                trove
            } else {
                best
            }
        }
    }
}

// Whether the trove is a candidate of this version.
fn is_wanted(
    label: Option<&Label>,
    version: Option<&Version>,
    system: &Flavor,
    newest: &Version,
    trove: &Trove,
) -> bool
    ensures { result ≡ spec.is_wanted (option_copied label.entry) (option_copied version.entry) system.now newest.now trove.now }
{
    if trove.id().version == *newest {
        is_candidate(label, version, system, trove)
    } else {
        false
    }
}

/// The candidate of this version at these places that fits the system best.
pub(crate) fn best_candidate<'a>(
    catalogue: &'a Catalogue,
    places: &[usize],
    label: Option<&Label>,
    version: Option<&Version>,
    system: &Flavor,
    newest: &Version,
) -> Option<&'a Trove>
    ensures { option_copied result ≡ best system.now
        (filter (spec.is_wanted (option_copied label.entry) (option_copied version.entry) system.now newest.now) (troves_at catalogue.now.troves places.now)) }
{
    let mut found = None;
    for place in places {
        if let Some(trove) = catalogue.trove_at(*place) {
            if is_wanted(label, version, system, newest, trove) {
                found = Some(better(system, found, trove));
            }
        }
    }
    found
}
