//! The id of a trove, from the items with which its stream begins.
ghost use Rattle.std.specs.Prelude.{◌≡◌, ◌++◌, List, ℕ, drop, IfOk, IsErrOf, IfSome, IfNone};
ghost use Rattle.cny_stream.specs.Item.{FitsItem};
ghost use Rattle.trove_parts.specs.declared.id.TroveId.{TroveId};
ghost use Rattle.trove_parts.specs.Id.{IsTroveId};
ghost use Rattle.trove_stream.specs.Stream.{three_items, head_bytes, IsHeadOf};
ghost use Rattle.trove_stream.specs.Head.{AreHeadItems};

use crate::writing::{FLAVOR, NAME, VERSION};
use cny_stream::{Item, next_item};
use std::alloc::Global;
use trove_parts::cny_base::TextFault;
use trove_parts::{IdAt, id_of_bytes, short_ids};

/// Where the texts of an id stand.
#[derive(Clone, Copy)]
pub(crate) struct HeadItems {
    name: Item,
    version: Item,
    flavor: Item,
}

// The items of an id's texts at the front; none where there aren't three with their tags.
fn head_items(bytes: &[u8]) -> Option<HeadItems>
    ensures some { IfSome result (AreHeadItems bytes.now) }
    ensures none { IfNone result ((a b c rest : List ℕ) → FitsItem a → FitsItem b → FitsItem c
        → bytes.now ≡ three_items a b c ++ rest → ⊥) }
{
    let Ok(name) = next_item(bytes, 0, &[NAME]) else {
        return None;
    };
    let Ok(version) = next_item(bytes, name.to, &[VERSION]) else {
        return None;
    };
    let Ok(flavor) = next_item(bytes, version.to, &[FLAVOR]) else {
        return None;
    };
    Some(HeadItems {
        name,
        version,
        flavor,
    })
}

/// The id whose items the bytes begin with, and their end. `Bad` only where they begin with those of none.
pub(crate) fn take_head(alloc: Global, bytes: &[u8]) -> Result<IdAt, TextFault>
    ensures found { IfOk result (λ found. IsHeadOf bytes.now found.id found.to) }
    ensures bad { IsErrOf result TextFault.Bad → (id : TroveId) (rest : List ℕ) → IsTroveId id
        → bytes.now ≡ head_bytes id ++ rest → ⊥ }
    ensures only { IfOk result (λ found. (id : TroveId) (rest : List ℕ) → IsTroveId id
        → bytes.now ≡ head_bytes id ++ rest → (found.id ≡ id) × (drop found.to bytes.now ≡ rest)) }
{
    short_ids();
    let Some(items) = head_items(bytes) else {
        return Err(TextFault::Bad);
    };
    let id = id_of_bytes(
        alloc,
        &bytes[items.name.from..items.name.to],
        &bytes[items.version.from..items.version.to],
        &bytes[items.flavor.from..items.flavor.to],
    )?;
    Ok(IdAt {
        id,
        to: items.flavor.to,
    })
}
