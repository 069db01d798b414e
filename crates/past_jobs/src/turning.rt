//! The trove before a job, by the one after it.
ghost use Rattle.std.specs.Prelude.{◌≡◌, ◌↔◌, IfOk, OnOk, IsErrOf, IsTrue, Some, Option};
ghost use Rattle.std.specs.Option.{option_copied};
ghost use Rattle.local_db.specs.trove-stream.Trove.{IsTrove};
ghost use Rattle.local_db.specs.trove-stream.declared.parts.TroveParts.{TroveParts};
ghost use Rattle.local_db.specs.Formats.{trove_text};
ghost use Rattle.local_db.specs.Record as record_;
ghost use Rattle.local_db.specs.RecordText.{delta_of};
ghost use Rattle.past_jobs.specs.Table as table;

use change_rel::apply;
use local_db::cny_base::{Bytes, Copies, Fault, OutOfMemory, TextFault};
use local_db::trove_parts::TroveId;
use local_db::trove_stream::{RelTrove, Trove, distinct_troves, encode, encode_full};
use local_db::{Delta, Format};
use std::alloc::Global;

// The stream of a trove in the format.
fn stream_of(alloc: Global, format: Format, trove: &Trove) -> Result<Bytes, OutOfMemory>
    ensures value { IfOk result (λ bytes. bytes ≡ trove_text format trove.now) }
    ensures trove { OnOk result (IsTrove trove.now) }
{
    let mut stream = Bytes::new(alloc, b"")?;
    match format {
        Format::One => encode(alloc, trove, &mut stream)?,
        Format::Two => encode_full(alloc, trove, &mut stream)?,
    }
    Ok(stream)
}

/// How many bytes the item of a trove has in a database of the format.
pub(crate) fn item_len(alloc: Global, format: Format, trove: &Trove) -> Result<usize, OutOfMemory>
    ensures value { IfOk result (λ len. len ≡ table.item_len format trove.now) }
    ensures trove { OnOk result (IsTrove trove.now) }
{
    let stream = stream_of(alloc, format, trove)?;
    Ok(5 + stream.get().len())
}

fn are_same(alloc: Global, one: &Trove, other: &Trove) -> Result<bool, OutOfMemory>
    ensures { IfOk result (λ same. IsTrue same ↔ (one.now ≡ other.now)) }
{
    distinct_troves();
    let stream = stream_of(alloc, Format::Two, one)?;
    let other_stream = stream_of(alloc, Format::Two, other)?;
    Ok(stream == other_stream)
}

// None of the name was there before the trove of this id came.
fn before_coming(id: &TroveId, after: Option<&Trove>) -> Result<Option<Trove>, TextFault>
    ensures value { IfOk result (record_.TakesBackAt (Some (record_.came id.now)) (option_copied after.entry)) }
    ensures bad { IsErrOf result TextFault.Bad → (before : Option TroveParts)
        → record_.TakesBackAt (Some (record_.came id.now)) (option_copied after.entry) before → ⊥ }
{
    let Some(trove) = after else {
        return Err(TextFault::Bad);
    };
    if !trove.id().is_same(id) {
        return Err(TextFault::Bad);
    }
    Ok(None)
}

// This trove was there: none of its name is now, or another one of the same id.
fn as_it_was(alloc: Global, was: &Trove, after: Option<&Trove>) -> Result<Option<Trove>, TextFault>
    ensures value { IfOk result (record_.TakesBackAt (Some (record_.was was.now)) (option_copied after.entry)) }
    ensures bad { IsErrOf result TextFault.Bad → (before : Option TroveParts)
        → record_.TakesBackAt (Some (record_.was was.now)) (option_copied after.entry) before → ⊥ }
{
    let Some(trove) = after else {
        return Ok(Some(was.copy()?));
    };
    if !trove.id().is_same(was.id()) {
        return Err(TextFault::Bad);
    }
    if are_same(alloc, trove, was)? {
        return Err(TextFault::Bad);
    }
    Ok(Some(was.copy()?))
}

// What the relative trove makes of the trove after the job.
fn turned_back(
    alloc: Global,
    rel: &RelTrove,
    after: Option<&Trove>,
) -> Result<Option<Trove>, TextFault>
    ensures value { IfOk result (record_.TakesBackAt (Some (record_.turned rel.now)) (option_copied after.entry)) }
    ensures bad { IsErrOf result TextFault.Bad → (before : Option TroveParts)
        → record_.TakesBackAt (Some (record_.turned rel.now)) (option_copied after.entry) before → ⊥ }
{
    let Some(trove) = after else {
        return Err(TextFault::Bad);
    };
    match apply(alloc, trove, rel) {
        Ok(before) => Ok(Some(before)),
        Err(Fault::Memory) => Err(TextFault::Memory),
        Err(Fault::Refused(_)) => Err(TextFault::Bad),
    }
}

/// The trove of a delta's name before the job, by the one after it. `Bad` where the delta doesn't lead from that to any.
pub(crate) fn before_of(
    alloc: Global,
    delta: &Delta,
    after: Option<&Trove>,
) -> Result<Option<Trove>, TextFault>
    ensures value { IfOk result (record_.TakesBackAt (Some (delta_of delta.now)) (option_copied after.entry)) }
    ensures bad { IsErrOf result TextFault.Bad → (before : Option TroveParts)
        → record_.TakesBackAt (Some (delta_of delta.now)) (option_copied after.entry) before → ⊥ }
{
    match delta {
        Delta::Came(id) => before_coming(id, after),
        Delta::Was(was) => as_it_was(alloc, was, after),
        Delta::Turned(rel) => turned_back(alloc, rel, after),
    }
}
