//! What is asked of another repository.
ghost use Rattle.std.specs.Prelude.{◌≡◌, All, IfErr, IfOk, Ok, map};
ghost use Rattle.change_set.specs.trove-parts.Id.{IsTroveId};
ghost use Rattle.change_set.specs.trove-stream.declared.parts.TroveParts.{TroveParts};
ghost use Rattle.repo_mirror.specs.Requests.{ids_bytes};
ghost use Rattle.repo_index.specs.Steps.{IsErrOrMemory};
ghost use Rattle.repo_mirror.specs.Asking.{asking, AreIdsOf, AsksSo};

use crate::request::{MISSING, REQUEST_END, REQUEST_MAGIC};
use cny_stream::put_item;
use repo_index::Catalogue;
use repo_index::cny_base::{Bytes, Copies, Fault, MESSAGE_LIMIT, OutOfMemory, Refusal, What};
use repo_index::trove_parts::{TroveId, put_id};
use repo_index::trove_stream::Trove;
use std::alloc::Global;

// The magic, the head of the request, and the end.
const FRAME_LEN: u64 = 18;

// The ids of these troves, in their order.
fn ids_of(alloc: Global, troves: &[Trove]) -> Result<Vec<TroveId>, OutOfMemory>
    ensures ids { IfOk result (λ ids. ids.items ≡ map (λ (t : TroveParts). t.id) troves.now) }
    ensures valid { IfOk result (λ ids. All IsTroveId ids.items) }
{
    let mut ids = Vec::new(alloc);
    for trove in troves {
        let id = trove.id().copy()?;
        id.is_valid();
        ids.push(id)?;
    }
    Ok(ids)
}

// The ids of these troves, strictly rising.
fn sorted_ids(alloc: Global, troves: &[Trove]) -> Result<Vec<TroveId>, OutOfMemory>
    ensures { IfOk result (λ ids. AreIdsOf troves.now ids.items) }
{
    let mut ids = ids_of(alloc, troves)?;
    ids.sort_unstable();
    ids.dedup();
    Ok(ids)
}

// The ids, one behind the other.
fn value_of(alloc: Global, ids: &[TroveId]) -> Result<Bytes, OutOfMemory>
    ensures { IfOk result (λ bytes. bytes ≡ ids_bytes ids.now) }
{
    let mut bytes = Bytes::new(alloc, b"")?;
    for id in ids {
        put_id(alloc, id, &mut bytes)?;
    }
    Ok(bytes)
}

// The stream of such a request.
fn stream_of(alloc: Global, ids: &[TroveId]) -> Result<Bytes, Fault>
    ensures value { IfOk result (λ bytes. asking ids.now ≡ Ok bytes) }
    ensures refused { IfErr result (IsErrOrMemory (asking ids.now)) }
{
    let value = value_of(alloc, ids)?;
    let Some(size) = FRAME_LEN.checked_add(value.get().len() as u64) else {
        return Err(Fault::Memory);
    };
    if size > MESSAGE_LIMIT as u64 {
        return Err(Fault::Refused(Refusal::TooLarge {
            what: What::Message,
            size,
        }));
    }
    let mut out = Bytes::new(alloc, REQUEST_MAGIC)?;
    put_item(&mut out, MISSING, value.get())?;
    put_item(&mut out, REQUEST_END, &[])?;
    Ok(out)
}

/// The stream of requests with the one request for the troves that have none of the ids of the catalogue's. `TooLarge` exactly where
/// it would have more than 268,435,456 bytes, with its length.
pub fn ask(alloc: Global, catalogue: &Catalogue) -> Result<Bytes, Fault>
    ensures { AsksSo catalogue.now.troves result }
{
    let ids = sorted_ids(alloc, catalogue.troves())?;
    stream_of(alloc, ids.as_slice())
}
