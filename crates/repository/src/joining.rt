//! The troves of a commit joined to the catalogue.
ghost use Rattle.std.specs.Prelude.{◌≡◌, ◌<◌, IfOk, OnOk};
ghost use Rattle.repo_load.specs.cny-base.declared.limits.TheConstants.{COMMITS_LIMIT};
ghost use Rattle.repo_load.specs.State.{AreNew};
ghost use Rattle.repo_load.specs.Steps.{catalogue_with};
ghost use Rattle.repository.specs.Steps as spec;

use repo_index::Catalogue;
use repo_load::cny_base::{Copies, Fault, ListOf, OutOfMemory};
use repo_load::trove_parts::TroveId;
use repo_load::trove_stream::Trove;
use std::alloc::Global;

/// A list of ids.
pub type TroveIds = ListOf<TroveId>;

/// The ids of these troves.
pub(crate) fn ids_of(alloc: Global, troves: &[Trove]) -> Result<TroveIds, OutOfMemory>
    ensures { IfOk result (λ ids. ids ≡ spec.ids_of troves.now) }
{
    let mut ids = Vec::new(alloc);
    for trove in troves {
        ids.push(trove.id().copy()?)?;
    }
    Ok(TroveIds::new(ids))
}

/// Adds a commit of these troves. On want of memory the catalogue has some of them.
pub(crate) fn join(
    alloc: Global,
    catalogue: &mut Catalogue,
    troves: &[Trove],
) -> Result<(), OutOfMemory>
    requires few { catalogue.old.commits < COMMITS_LIMIT }
    requires new_ids { AreNew catalogue.old.troves troves.now }
    ensures { OnOk result (catalogue.new ≡ catalogue_with troves.now catalogue.old) }
{
    for trove in troves {
        match catalogue.add(alloc, trove.copy()?) {
            Ok(()) => {}
            Err(Fault::Memory) => return Err(OutOfMemory),
            Err(Fault::Refused(_)) => unreachable!(),
        }
    }
    catalogue.count_commit();
    Ok(())
}
