//! The relative trove that leads from one trove to another.
ghost use Rattle.std.specs.Prelude.{◌≡◌, ◌≢◌, IfOk};
ghost use Rattle.trove_stream.specs.declared.rel.RelParts.{RelParts};
ghost use Rattle.trove_stream.specs.Leads.{Leads};

use crate::difference::difference;
use crate::laws::one_relative;
use std::alloc::Global;
use trove_stream::cny_base::{Copies, OutOfMemory};
use trove_stream::{RelParts, RelTrove, Trove};

// The parts of the relative trove.
fn parts_between(alloc: Global, old: &Trove, fresh: &Trove) -> Result<RelParts, OutOfMemory>
    requires one_name { old.now.id.name ≡ fresh.now.id.name }
    requires two_ids { old.now.id ≢ fresh.now.id }
    ensures { IfOk result (λ rel. Leads rel old.now fresh.now) }
{
    let from = old.id().copy()?;
    let to = fresh.id().copy()?;
    let files = difference(alloc, old.files(), fresh.files())?;
    let refs = difference(alloc, old.refs(), fresh.refs())?;
    let required = difference(alloc, old.requires_(), fresh.requires_())?;
    let provided = difference(alloc, old.provides(), fresh.provides())?;
    Ok(RelParts {
        old: from,
        fresh: to,
        paths_gone: files.gone,
        files_set: files.set,
        refs_gone: refs.gone,
        refs_added: refs.set,
        requires_gone: required.gone,
        requires_added: required.set,
        provides_gone: provided.gone,
        provides_added: provided.set,
    })
}

/// The one relative trove that leads from the old trove to the new one, which have one name and two ids: `apply` of it to the
/// old trove gives the new one. One pass over each pair of lists.
pub fn relative(alloc: Global, old: &Trove, fresh: &Trove) -> Result<RelTrove, OutOfMemory>
    requires one_name { old.now.id.name ≡ fresh.now.id.name }
    requires two_ids { old.now.id ≢ fresh.now.id }
    ensures leads { IfOk result (λ rel. Leads rel old.now fresh.now) }
    // No other relative trove leads from the one to the other.
    ensures only { IfOk result (λ rel. (other : RelParts) → Leads other old.now fresh.now → rel ≡ other) }
{
    one_relative();
    let parts = parts_between(alloc, old, fresh)?;
    match RelTrove::make(parts) {
        Ok(rel) => Ok(rel),
        Err(_) => unreachable!(),
    }
}
