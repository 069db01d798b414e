//! The reply with the ids of a name.
ghost use Rattle.std.specs.Prelude.{◌≡◌, ◌+◌, ◌++◌, ◌≤◌, IfErr, IfOk, OnOk, length, map};
ghost use Rattle.repo_load.specs.cny-base.declared.limits.TheConstants.{MESSAGE_LIMIT};
ghost use Rattle.repo_load.specs.trove-parts.Id.{id_bytes};
ghost use Rattle.repo_mirror.specs.Requests.{ids_bytes};
ghost use Rattle.repo_index.specs.Places.{troves_at};
ghost use Rattle.repo_serve.specs.Reply.{id_of, ids_named, ids_reply, ids_value};
ghost use Rattle.repo_serve.specs.Room.{IsLongOrMemory};

use crate::room::{sum_of, with_reply};
use cny_stream::{close_item, open_item};
use repo_index::Catalogue;
use repo_load::cny_base::{Bytes, Fault, Name, OutOfMemory};
use repo_load::trove_parts::{TroveId, put_id};
use std::alloc::Global;

// The tag of a reply with ids.
const IDS: u8 = 0x80;

// The head of the item, and how many ids there are.
const HEAD_LEN: u64 = 9;

// How many ids there are, and how long their bytes are.
#[derive(Clone, Copy)]
struct Extent {
    number: u64,
    len: u64,
}

// The length of the bytes of an id.
fn id_len(alloc: Global, id: &TroveId) -> Result<u64, OutOfMemory>
    ensures value { IfOk result (λ len. len ≡ length (id_bytes id.now)) }
    ensures some { IfOk result (λ len. 1 ≤ len) }
{
    let mut bytes = Bytes::new(alloc, b"")?;
    put_id(alloc, id, &mut bytes)?;
    Ok(bytes.get().len() as u64)
}

// The same with one more id.
fn with_id(alloc: Global, extent: Extent, id: &TroveId) -> Result<Extent, OutOfMemory>
    requires { extent.number ≤ extent.len }
    ensures number { IfOk result (λ with. with.number ≡ extent.number + 1) }
    ensures len { IfOk result (λ with. with.len ≡ extent.len + length (id_bytes id.now)) }
    ensures some { IfOk result (λ with. with.number ≤ with.len) }
{
    let len = id_len(alloc, id)?;
    Ok(Extent {
        number: sum_of(extent.number, 1)?,
        len: sum_of(extent.len, len)?,
    })
}

// The extent of the ids of the troves at these places.
fn extent_of(alloc: Global, catalogue: &Catalogue, places: &[usize]) -> Result<Extent, OutOfMemory>
    ensures number { IfOk result (λ extent. extent.number ≡ length (map id_of (troves_at catalogue.now.troves places.now))) }
    ensures len { IfOk result (λ extent. extent.len ≡ length (ids_bytes (map id_of (troves_at catalogue.now.troves places.now)))) }
    ensures some { IfOk result (λ extent. extent.number ≤ extent.len) }
{
    let mut extent = Extent { number: 0, len: 0 };
    for place in places {
        if let Some(trove) = catalogue.trove_at(*place) {
            extent = with_id(alloc, extent, trove.id())?;
        }
    }
    Ok(extent)
}

// Appends the ids of the troves at these places.
fn put_ids(
    alloc: Global,
    out: &mut Bytes,
    catalogue: &Catalogue,
    places: &[usize],
) -> Result<(), OutOfMemory>
    ensures { OnOk result (out.new ≡ out.old ++ ids_bytes (map id_of (troves_at catalogue.now.troves places.now))) }
{
    for place in places {
        if let Some(trove) = catalogue.trove_at(*place) {
            put_id(alloc, trove.id(), out)?;
        }
    }
    Ok(())
}

// Appends their number, which has room in four bytes, and the ids.
fn put_value(
    alloc: Global,
    out: &mut Bytes,
    catalogue: &Catalogue,
    places: &[usize],
    number: u32,
) -> Result<(), OutOfMemory>
    requires { number ≡ length (map id_of (troves_at catalogue.now.troves places.now)) }
    ensures { OnOk result (out.new ≡ out.old ++ ids_value (map id_of (troves_at catalogue.now.troves places.now))) }
{
    out.push_slice(&number.to_be_bytes())?;
    put_ids(alloc, out, catalogue, places)
}

// Appends the item of the ids of the troves at these places, of which there are so many.
fn put_item_of(
    alloc: Global,
    out: &mut Bytes,
    catalogue: &Catalogue,
    places: &[usize],
    number: u32,
) -> Result<(), OutOfMemory>
    requires number { number ≡ length (map id_of (troves_at catalogue.now.troves places.now)) }
    requires room { length (ids_reply (map id_of (troves_at catalogue.now.troves places.now))) ≤ MESSAGE_LIMIT }
    ensures { OnOk result (out.new ≡ out.old ++ ids_reply (map id_of (troves_at catalogue.now.troves places.now))) }
{
    let begun = open_item(out, IDS)?;
    let put = put_value(alloc, out, catalogue, places, number);
    close_item(out, begun, put)
}

/// Appends the reply with the ids of a name, and tells how many bytes the stream of replies has with it and its end, which had so many.
/// `TooLarge` exactly where these are more than a message may have, and then it isn't made.
pub(crate) fn named(
    alloc: Global,
    catalogue: &Catalogue,
    name: &Name,
    sent: u64,
    out: &mut Bytes,
) -> Result<u64, Fault>
    ensures value { IfOk result (λ to. to ≡ sent + length (ids_reply (ids_named name.now catalogue.now.troves))) }
    ensures put { OnOk result (out.new ≡ out.old ++ ids_reply (ids_named name.now catalogue.now.troves)) }
    ensures room { IfOk result (λ to. to ≤ MESSAGE_LIMIT) }
    ensures refused { IfErr result (IsLongOrMemory (sent + length (ids_reply (ids_named name.now catalogue.now.troves)))) }
{
    let places = catalogue.by_name(name);
    let extent = extent_of(alloc, catalogue, places)?;
    let to = with_reply(sent, sum_of(HEAD_LEN, extent.len)?)?;
    put_item_of(alloc, out, catalogue, places, extent.number as u32)?;
    Ok(to)
}
