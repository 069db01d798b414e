//! References of troves that are to be committed.
ghost use Rattle.std.specs.Prelude.{◌≡◌, ◌++◌, IfOk, is_some};
ghost use Rattle.repo_load.specs.cny-base.declared.refusal.Refusal.TheVariants as refusal;
ghost use Rattle.repo_load.specs.trove-parts.Id.{id_text_of};
ghost use Rattle.repo_index.specs.Catalogue.{found};
ghost use Rattle.repository.specs.Tests.{missing_ref, refs_of};
ghost use Rattle.repository.specs.Verdict.{IsVerdict};

use repo_index::Catalogue;
use repo_load::cny_base::{Fault, OutOfMemory, Refusal};
use repo_load::trove_parts::{TroveId, id_text};
use repo_load::trove_stream::Trove;
use std::alloc::Global;

/// Whether a trove of this id is among those that are committed or those that were added.
pub(crate) fn is_there(committed: &Catalogue, added: &Catalogue, id: &TroveId) -> bool
    ensures { result ≡ is_some (found id.now (committed.now.troves ++ added.now.troves)) }
{
    let old = committed.find(id).is_some();
    let new = added.find(id).is_some();
    old || new
}

// The refusal of a reference to an id of which no trove is there.
fn missing(alloc: Global, id: &TroveId) -> Result<Refusal, OutOfMemory>
    ensures { IfOk result (λ made. made ≡ refusal.MissingRef (id_text_of id.now)) }
{
    let name = id_text(alloc, id)?;
    Ok(Refusal::MissingRef { name })
}

// Whether a trove of each of these ids is there.
fn check_ids(
    alloc: Global,
    committed: &Catalogue,
    added: &Catalogue,
    ids: &[TroveId],
) -> Result<(), Fault>
    ensures { IsVerdict (missing_ref (committed.now.troves ++ added.now.troves) ids.now) result }
{
    for id in ids {
        if !is_there(committed, added, id) {
            let refusal = missing(alloc, id)?;
            return Err(Fault::Refused(refusal));
        }
    }
    Ok(())
}

// The same for the references of these troves.
fn check_troves(
    alloc: Global,
    committed: &Catalogue,
    added: &Catalogue,
    troves: &[Trove],
) -> Result<(), Fault>
    ensures { IsVerdict (missing_ref (committed.now.troves ++ added.now.troves) (refs_of troves.now)) result }
{
    for trove in troves {
        check_ids(alloc, committed, added, trove.refs())?;
    }
    Ok(())
}

/// Whether each reference of the added troves is the id of one that is committed or added. `MissingRef` names the first one
/// that isn't.
pub(crate) fn check_refs(
    alloc: Global,
    committed: &Catalogue,
    added: &Catalogue,
) -> Result<(), Fault>
    ensures { IsVerdict (missing_ref (committed.now.troves ++ added.now.troves) (refs_of added.now.troves)) result }
{
    check_troves(alloc, committed, added, added.troves())
}
