//! Which trove a specification means.
ghost use Rattle.std.specs.Prelude.{◌≡◌, true, false, List, [], Some, None, All, Contains, IfOk, IfErr};
ghost use Rattle.std.specs.List.{last_or};
ghost use Rattle.std.specs.Option.{option_copied, option_map};
ghost use Rattle.cny_dep.specs.declared.parts.Parts.{Parts};
ghost use Rattle.repo_index.specs.trove-stream.declared.parts.TroveParts.{TroveParts};
ghost use Rattle.trove_spec.specs.declared.config.Config.{Config};
ghost use Rattle.trove_spec.specs.declared.spec.Spec.{Spec};
ghost use Rattle.trove_spec.specs.Resolve.{chosen, chosen_of, has_version, is_better, first_chosen, resolution, system_flavor, lacks_label, IsUnresolved};

use crate::candidates::{best_candidate, last_candidate};
use crate::config::Config;
use crate::spec::{Place, Spec};
use cny_dep::Flavor;
use cny_version::{Label, Version};
use repo_index::Catalogue;
use repo_index::cny_base::{Copies, Fault, Name, Refusal, Text};
use repo_index::trove_parts::TroveId;
use repo_index::trove_stream::Trove;
use std::alloc::Global;

// The trove that is chosen among those of a name, on this label and of this version, where they are given.
fn chosen<'a>(
    catalogue: &'a Catalogue,
    name: &Name,
    label: Option<&Label>,
    version: Option<&Version>,
    system: &Flavor,
) -> Option<&'a Trove>
    ensures { option_copied result
        ≡ chosen name.now (option_copied label.entry) (option_copied version.entry) system.now catalogue.now.troves }
{
    let places = catalogue.by_name(name);
    let last = last_candidate(catalogue, places, label, version, system)?;
    best_candidate(
        catalogue,
        places,
        label,
        version,
        system,
        &last.id().version,
    )
}

// The trove that is chosen on the first of these labels that has a candidate.
fn first_chosen<'a>(
    catalogue: &'a Catalogue,
    name: &Name,
    system: &Flavor,
    labels: &[Label],
) -> Option<&'a Trove>
    ensures { option_copied result ≡ first_chosen name.now system.now catalogue.now.troves labels.now }
{
    for label in labels {
        if let Some(trove) = chosen(catalogue, name, Some(label), None, system) {
            return Some(trove);
        }
    }
    None
}

// The system's flavor, unless the specification has its own.
fn system_flavor<'a>(spec: &'a Spec, config: &'a Config) -> &'a Flavor
    ensures { result.now ≡ system_flavor spec.now config.now }
{
    match &spec.flavor {
        Some(flavor) => flavor,
        None => &config.flavor,
    }
}

// The trove that the specification means.
fn resolved<'a>(catalogue: &'a Catalogue, spec: &Spec, config: &Config) -> Option<&'a Trove>
    ensures { option_copied result ≡ resolution catalogue.now.troves spec.now config.now }
{
    let system = system_flavor(spec, config);
    match &spec.place {
        Place::Any => first_chosen(catalogue, &spec.name, system, config.labels.get()),
        Place::OnLabel(label) => chosen(catalogue, &spec.name, Some(label), None, system),
        Place::At(version) => chosen(catalogue, &spec.name, None, Some(version), system),
    }
}

// Whether the specification names no label and no version, and the configuration no label.
fn lacks_label(spec: &Spec, config: &Config) -> bool
    ensures { result ≡ lacks_label spec.now config.now }
{
    match spec.place {
        Place::Any => config.labels.get().is_empty(),
        _ => false,
    }
}

/// The id of the trove that the specification means. The candidates of a label are the troves of the name whose last label
/// it is and whose flavor fits the specification's flavor or, where it has none, the system's. The label is the
/// specification's, or the first of the configuration that has a candidate. The candidate that was committed last gives the
/// version; of those of that version the one with the highest score is meant, and of several the one whose flavor's text
/// comes first. A specification with a version takes the candidates of that version in the same way, whatever their label.
///
/// `NoLabel` exactly where neither the specification nor the configuration names a label, and the specification no version.
/// `MissingTrove`, with the text that is given, exactly where there is no candidate.
pub fn resolve(
    alloc: Global,
    catalogue: &Catalogue,
    spec: &Spec,
    text: &str,
    config: &Config,
) -> Result<TroveId, Fault>
    ensures value { IfOk result (λ id. option_map (λ trove. trove.id) (resolution catalogue.now.troves spec.now config.now) ≡ Some id) }
    ensures fault { IfErr result (IsUnresolved catalogue.now.troves spec.now text.now config.now) }
{
    if lacks_label(spec, config) {
        return Err(Fault::Refused(Refusal::NoLabel));
    }
    match resolved(catalogue, spec, config) {
        Some(trove) => Ok(trove.id().copy()?),
        None => Err(Fault::Refused(Refusal::MissingTrove {
            spec: Text::new(alloc, text)?,
        })),
    }
}

/// What is chosen among candidates is one of them, with the version of the last one; none of that version fits the system
/// better. Nothing is chosen only where there are none.
pub fn best_of_newest()
    ensures among { (system : Parts) (candidates : List TroveParts) (t : TroveParts) → chosen_of system candidates ≡ Some t → Contains candidates t }
    ensures newest { (system : Parts) (candidates : List TroveParts) (t last : TroveParts) → chosen_of system candidates ≡ Some t
        → last_or None candidates ≡ Some last → has_version last.id.version t ≡ true }
    ensures best { (system : Parts) (candidates : List TroveParts) (t : TroveParts) → chosen_of system candidates ≡ Some t
        → All (λ other. has_version t.id.version other ≡ true → is_better system other t ≡ false) candidates }
    ensures none { (system : Parts) (candidates : List TroveParts) → chosen_of system candidates ≡ None → candidates ≡ [] }
{}

/// What a specification means is one of the troves, and has the name of the specification.
pub fn meant_troves()
    ensures among { (troves : List TroveParts) (spec : Spec) (config : Config) (t : TroveParts) → resolution troves spec config ≡ Some t → Contains troves t }
    ensures name { (troves : List TroveParts) (spec : Spec) (config : Config) (t : TroveParts) → resolution troves spec config ≡ Some t → t.id.name ≡ spec.name }
{}
