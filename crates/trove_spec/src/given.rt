//! A specification as it was given, and the troves that it means.
ghost use Rattle.std.specs.Prelude.{IfOk};
ghost use Rattle.repo_index.specs.trove-stream.Installed.{IsRising};
ghost use Rattle.repo_index.specs.Catalogue.{AreCommitted};
ghost use Rattle.trove_spec.specs.AndThen.{EndsAs};
ghost use Rattle.trove_spec.specs.Meant.{Expands, ExpandsFrom, Means, Reaches};

use crate::config::Config;
use crate::expanding::{Troves, expand};
use crate::resolving::resolve;
use crate::spec::Spec;
use repo_index::Catalogue;
use repo_index::cny_base::{Fault, Text};
use repo_index::trove_parts::TroveId;
use std::alloc::Global;
use std::slice;

/// A specification with its text as it was given, which is told where it means no trove.
#[derive(Drop)]
pub struct GivenSpec {
    pub spec: Spec,
    pub text: Text,
}

/// The id of the trove that a specification means.
pub fn meant(
    alloc: Global,
    catalogue: &Catalogue,
    given: &GivenSpec,
    config: &Config,
) -> Result<TroveId, Fault>
    ensures { EndsAs (Means catalogue.now.troves config.now given.now) result }
{
    let id = resolve(alloc, catalogue, &given.spec, given.text.get(), config)?;
    Ok(id)
}

// The troves that a root reaches.
fn reached(alloc: Global, catalogue: &Catalogue, root: &TroveId) -> Result<Troves, Fault>
    ensures ends { EndsAs (Reaches catalogue.now.troves root.now) result }
    ensures rises { IfOk result IsRising }
    ensures committed { IfOk result (AreCommitted catalogue.now.troves) }
{
    let troves = expand(alloc, catalogue, slice::from_ref(root))?;
    Ok(troves)
}

/// The trove that a specification means, with all that it reaches.
pub fn expansion(
    alloc: Global,
    catalogue: &Catalogue,
    given: &GivenSpec,
    config: &Config,
) -> Result<Troves, Fault>
    ensures ends { EndsAs (Expands catalogue.now.troves config.now given.now) result }
    ensures rises { IfOk result IsRising }
    ensures committed { IfOk result (AreCommitted catalogue.now.troves) }
{
    let root = meant(alloc, catalogue, given, config)?;
    let troves = reached(alloc, catalogue, &root)?;
    Ok(troves)
}

/// The same of a specification that may be left out; then there are no troves.
pub fn expansion_from(
    alloc: Global,
    catalogue: &Catalogue,
    given: &Option<GivenSpec>,
    config: &Config,
) -> Result<Troves, Fault>
    ensures ends { EndsAs (ExpandsFrom catalogue.now.troves config.now given.now) result }
    ensures rises { IfOk result IsRising }
    ensures committed { IfOk result (AreCommitted catalogue.now.troves) }
{
    match given {
        None => Ok(Troves::new(Vec::new(alloc))),
        Some(given) => expansion(alloc, catalogue, given, config),
    }
}
