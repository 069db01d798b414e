//! The trove deltas of a record.
ghost use Rattle.std.specs.Prelude.{◌≡◌, ◌↔◌, ◌≤◌, ◌++◌, IsTrue, length, drop, IfOk, IfSome, IfNone, IsErrOf};
ghost use Rattle.std.specs.Int.{to_be_bytes, w32};
ghost use Rattle.cny_stream.specs.Item.{item_bytes};
ghost use Rattle.local_db.specs.trove-parts.declared.id.TroveId as declared_id;
ghost use Rattle.local_db.specs.trove-parts.Id.{IsTroveId, id_bytes};
ghost use Rattle.local_db.specs.trove-stream.declared.rel.RelParts.{RelParts};
ghost use Rattle.local_db.specs.trove-stream.Rel.{IsRel};
ghost use Rattle.local_db.specs.Formats.{CanTell, record_magic, rel_text};
ghost use Rattle.local_db.specs.declared.format.Format.TheVariants.{One};
ghost use Rattle.local_db.specs.declared.record.Delta as declared_delta;
ghost use Rattle.local_db.specs.declared.record.Record as declared_record;
ghost use Rattle.job_record.specs.Reading.{AreDeltasTo, IsDeltaAt, IsDeltaText, IsNoDeltaAt, IsNoEntriesText, IsUnordered};

use cny_stream::next_item;
use local_db::cny_base::TextFault;
use local_db::trove_parts::{TroveId, distinct_ids, next_id};
use local_db::trove_stream::{
    RelTrove, decode_rel, decode_rel_full, distinct_rels, distinct_troves,
};
use local_db::{Delta, Format, are_roots, read_trove};
use std::alloc::Global;

/// The tags of the items.
pub(crate) const CAME: u8 = 0x64;

pub(crate) const WAS: u8 = 0x65;

pub(crate) const TURNED: u8 = 0x66;

pub(crate) const ENTRY: u8 = 0x67;

pub(crate) const END: u8 = 0x6f;

// The id whose bytes these are, all of them.
fn id_of(alloc: Global, value: &[u8]) -> Result<TroveId, TextFault>
    ensures value { IfOk result (λ id. value.now ≡ id_bytes id) }
    ensures valid { IfOk result IsTroveId }
    ensures bad { IsErrOf result TextFault.Bad → (id : declared_id.TroveId) → IsTroveId id → value.now ≡ id_bytes id → ⊥ }
{
    let found = next_id(alloc, value, 0)?;
    if found.to != value.len() {
        return Err(TextFault::Bad);
    }
    Ok(found.id)
}

// Whether format 1 can tell the files that are set.
fn sets_roots(rel: &RelTrove) -> bool
    ensures { IsTrue result ↔ CanTell One rel.now.files_set }
{
    are_roots(rel.parts().files_set.get())
}

// The relative trove whose stream in this format the bytes are, all of them.
fn rel_of(alloc: Global, format: Format, value: &[u8]) -> Result<RelTrove, TextFault>
    ensures value { IfOk result (λ rel. value.now ≡ rel_text format rel) }
    ensures valid { IfOk result IsRel }
    ensures told { IfOk result (λ rel. CanTell format rel.files_set) }
    ensures bad { IsErrOf result TextFault.Bad
        → (rel : RelParts) → IsRel rel → CanTell format rel.files_set → value.now ≡ rel_text format rel → ⊥ }
{
    match format {
        Format::One => {
            let rel = decode_rel(alloc, value)?;
            if !sets_roots(&rel) {
                return Err(TextFault::Bad);
            }
            Ok(rel)
        }
        Format::Two => decode_rel_full(alloc, value),
    }
}

// The delta that an item with this tag and value spells.
fn delta_of(alloc: Global, format: Format, tag: u8, value: &[u8]) -> Result<Delta, TextFault>
    ensures value { IfOk result (IsDeltaText format tag value.now) }
    ensures bad { IsErrOf result TextFault.Bad → (u : declared_delta.Delta) → IsDeltaText format tag value.now u → ⊥ }
{
    match tag {
        CAME => Ok(Delta::Came(id_of(alloc, value)?)),
        WAS => Ok(Delta::Was(read_trove(alloc, format, value)?)),
        TURNED => Ok(Delta::Turned(rel_of(alloc, format, value)?)),
        _ => Err(TextFault::Bad),
    }
}

/// A delta, and where its item ends.
#[derive(Drop)]
struct DeltaTo {
    delta: Delta,
    to: usize,
}

// The delta whose item begins at `at`, and none where an entry's or the end begins there.
fn next_delta(
    alloc: Global,
    format: Format,
    bytes: &[u8],
    at: usize,
) -> Result<Option<DeltaTo>, TextFault>
    requires { at ≤ length bytes.now }
    ensures some { IfOk result (λ next. IfSome next (λ found. IsDeltaAt format bytes.now at found.delta found.to)) }
    ensures none { IfOk result (λ next. IfNone next (IsNoDeltaAt format bytes.now at)) }
    ensures no_delta { IsErrOf result TextFault.Bad → IsNoDeltaAt format bytes.now at }
    ensures no_entries { IsErrOf result TextFault.Bad → IsNoEntriesText bytes.now at }
{
    let Ok(item) = next_item(bytes, at, &[CAME, WAS, TURNED, ENTRY, END]) else {
        return Err(TextFault::Bad);
    };
    if item.tag == ENTRY || item.tag == END {
        return Ok(None);
    }
    let delta = delta_of(alloc, format, item.tag, &bytes[item.from..item.to])?;
    Ok(Some(DeltaTo { delta, to: item.to }))
}

/// Deltas, and where their items end.
#[derive(Drop)]
pub(crate) struct DeltasTo {
    pub(crate) deltas: Vec<Delta>,
    pub(crate) to: usize,
}

/// How many bytes the magic and the item of the number have.
pub(crate) const HEAD_LEN: usize = 17;

/// The deltas behind the number, up to the first entry or the end.
pub(crate) fn deltas_behind(
    alloc: Global,
    format: Format,
    bytes: &[u8],
    number: u32,
) -> Result<DeltasTo, TextFault>
    requires long { 17 ≤ length bytes.now }
    requires head { bytes.now ≡ record_magic format ++ (item_bytes 0x60 (to_be_bytes w32 number) ++ drop 17 bytes.now) }
    ensures value { IfOk result (λ found. AreDeltasTo format bytes.now number found.deltas.items found.to) }
    ensures ended { IfOk result (λ found. IsNoDeltaAt format bytes.now found.to) }
    ensures bad { IsErrOf result TextFault.Bad → (r : declared_record.Record) → r.number ≡ number → IsUnordered format r bytes.now → ⊥ }
{
    distinct_ids();
    distinct_troves();
    distinct_rels();
    let mut deltas = Vec::new(alloc);
    let mut at = HEAD_LEN;
    'items: loop {
        let Some(next) = next_delta(alloc, format, bytes, at)? else {
            return Ok(DeltasTo { deltas, to: at });
        };
        let DeltaTo { delta, to } = next;
        deltas.push(delta)?;
        at = to;
    }
}
