//! References to other troves, by their ids.
ghost use Rattle.std.specs.Prelude.{◌≡◌, ◌↔◌, ◌≤◌, ◌++◌, List, ℕ, IsTrue, All, length, drop, IfOk, OnOk, OnErr, IsErrOf};
ghost use Rattle.cny_stream.specs.Item.{item_bytes};
ghost use Rattle.trove_parts.specs.declared.id.TroveId.{TroveId};
ghost use Rattle.trove_parts.specs.Id.{IsTroveId, id_bytes};
ghost use Rattle.trove_parts.specs.Order.{id_cmp, id_total};
ghost use Rattle.trove_parts.specs.Items.{BeginsWithItems, AreItemsAt, IsWithin, IsValueAt};
ghost use Rattle.trove_parts.specs.Refs.{AreRefs, refs_bytes};

use crate::id::{TroveId, distinct_ids, short_ids};
use crate::items::{Element, are_listed, put_items, take_item, take_items};
use crate::stream::{IdAt, next_id, put_id};
use cny_stream::{Encoding, put_item};
use cny_version::cny_base::{Bytes, ListOf, OutOfMemory, TextFault};
use std::alloc::Global;

/// A list of ids.
pub type Refs = ListOf<TroveId>;

// The bytes of an id.
fn value_of(alloc: Global, id: &TroveId) -> Result<Bytes, OutOfMemory>
    ensures value { IfOk result (λ bytes. bytes ≡ id_bytes id.now) }
    ensures valid { OnOk result (IsTroveId id.now) }
{
    let mut bytes = Bytes::new(alloc, b"")?;
    put_id(alloc, id, &mut bytes)?;
    Ok(bytes)
}

impl Element for TroveId {
    ghost is_valid = { IsTroveId };

    ghost value = { λ _. id_bytes };

    ghost can_put = { λ _. Unit {0} };

    ghost compare = { id_cmp };

    fn read(alloc: Global, _encoding: Encoding, bytes: &[u8]) -> Result<Self, TextFault> {
        let found = next_id(alloc, bytes, 0)?;
        if found.to != bytes.len() {
            return Err(TextFault::Bad);
        }
        Ok(found.id)
    }

    fn put(
        &self,
        alloc: Global,
        _encoding: Encoding,
        tag: u8,
        out: &mut Bytes,
    ) -> Result<(), OutOfMemory> {
        short_ids();
        let value = value_of(alloc, self)?;
        put_item(out, tag, value.get())
    }

    // What the types of an id hold is all that is asked of it.
    fn is_good(&self) -> bool {
        let _name = self.name.text();
        let _version = self.version.text();
        let _flavor = self.flavor.text();
        true
    }

    fn is_below(&self, later: &Self) -> bool {
        self < later
    }

    fn values_fit() {
        short_ids();
    }

    fn values_differ() {
        distinct_ids();
    }

    ghost total = { id_total };
}

/// Whether the ids strictly rise by the name, then the text of the version, then that of the flavor. Takes no memory.
pub fn are_refs(refs: &[TroveId]) -> bool
    ensures { IsTrue result ↔ AreRefs refs.now }
{
    are_listed(refs)
}

/// Appends an item of this tag for each id; on want of memory `out` is as before.
pub fn put_refs(
    alloc: Global,
    out: &mut Bytes,
    tag: u8,
    refs: &[TroveId],
) -> Result<(), OutOfMemory>
    ensures ok { OnOk result (out.new ≡ out.old ++ refs_bytes tag refs.now) }
    ensures err { OnErr result (out.new ≡ out.old) }
    ensures valid { OnOk result (All IsTroveId refs.now) }
{
    put_items(alloc, Encoding::Compact, out, tag, refs)
}

/// Ids whose items stand in the bytes of a stream, and their end.
#[derive(Drop)]
pub struct RefsAt {
    pub refs: Refs,
    /// The place behind the last of their items.
    pub to: usize,
}

/// The ids of all items of this tag that begin at `at`, one behind the other, and their end. `Bad` only where an item
/// of this tag there isn't that of an id, where the ids don't strictly rise, or where there are more than the limit; want of
/// memory may be answered then instead. No id past the limit is read.
pub fn take_refs(
    alloc: Global,
    bytes: &[u8],
    at: usize,
    tag: u8,
    limit: Option<usize>,
) -> Result<RefsAt, TextFault>
    requires { at ≤ length bytes.now }
    ensures found { IfOk result (λ found. AreItemsAt id_bytes bytes.now at tag found.refs found.to) }
    ensures ok { IfOk result (λ found. AreRefs found.refs) }
    ensures few { IfOk result (λ found. IsWithin limit (length found.refs)) }
    ensures bad { IsErrOf result TextFault.Bad → (refs : List TroveId) (rest : List ℕ) → AreRefs refs → IsWithin limit (length refs)
        → BeginsWithItems id_bytes tag (drop at bytes.now) refs rest → ⊥ }
    // No other ids stand there, nor do their items end elsewhere.
    ensures only { IfOk result (λ found. (refs : List TroveId) (rest : List ℕ) → AreRefs refs
        → BeginsWithItems id_bytes tag (drop at bytes.now) refs rest → (found.refs ≡ refs) × (drop found.to bytes.now ≡ rest)) }
{
    let (items, to) = take_items::<TroveId>(alloc, Encoding::Compact, bytes, at, tag, limit)?;
    Ok(RefsAt {
        refs: Refs::new(items),
        to,
    })
}

/// Appends one item of this tag that holds an id; on want of memory `out` is as before.
pub fn put_id_item(alloc: Global, out: &mut Bytes, tag: u8, id: &TroveId) -> Result<(), OutOfMemory>
    ensures ok { OnOk result (out.new ≡ out.old ++ item_bytes tag (id_bytes id.now)) }
    ensures err { OnErr result (out.new ≡ out.old) }
    ensures valid { OnOk result (IsTroveId id.now) }
{
    id.put(alloc, Encoding::Compact, tag, out)
}

/// The id of the one item that begins at `at`, and the item's end. `Bad` only where no item of this tag that holds an
/// id begins there; want of memory may be answered then instead.
pub fn take_id_item(alloc: Global, bytes: &[u8], at: usize, tag: u8) -> Result<IdAt, TextFault>
    requires { at ≤ length bytes.now }
    ensures found { IfOk result (λ found. IsValueAt id_bytes bytes.now at tag found.id found.to) }
    ensures ok { IfOk result (λ found. IsTroveId found.id) }
    ensures bad { IsErrOf result TextFault.Bad → (id : TroveId) (rest : List ℕ) → IsTroveId id
        → drop at bytes.now ≡ item_bytes tag (id_bytes id) ++ rest → ⊥ }
    // No other id stands there, nor does its item end elsewhere.
    ensures only { IfOk result (λ found. (id : TroveId) (rest : List ℕ) → IsTroveId id
        → drop at bytes.now ≡ item_bytes tag (id_bytes id) ++ rest → (found.id ≡ id) × (drop found.to bytes.now ≡ rest)) }
{
    let (id, to) = take_item::<TroveId>(alloc, Encoding::Compact, bytes, at, tag)?;
    Ok(IdAt { id, to })
}
