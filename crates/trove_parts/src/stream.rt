//! Ids in streams.
ghost use Rattle.std.specs.Prelude.{◌≡◌, ◌++◌, ◌+◌, ◌≤◌, List, ℕ, drop, length, IfOk, OnOk, OnErr, IfSome, IfNone, IsErrOf, IsTrue};
ghost use Rattle.cny_version.specs.cny-base.Name.{is_name};
ghost use Rattle.cny_version.specs.cny-base.StrField.{FitsStr, str};
ghost use Rattle.cny_version.specs.Version.{IsVersionText};
ghost use Rattle.trove_parts.specs.declared.id.TroveId.{TroveId};
ghost use Rattle.trove_parts.specs.Id.{IsTroveId, id_bytes, IsIdAt};
ghost use Rattle.trove_parts.specs.Parts.{AreTextsOf, three_strs, AreStrsAt};

use crate::id::TroveId;
use crate::text::id_of_texts;
use cny_version::cny_base::{Bytes, OutOfMemory, Span, TextFault, next_str, put_str};
use std::alloc::Global;

/// An id that stands in the bytes of a stream, and its end.
#[derive(Drop)]
pub struct IdAt {
    pub id: TroveId,
    /// The place behind the last byte of the id.
    pub to: usize,
}

// Where the texts of an id's parts stand.
#[derive(Clone, Copy)]
struct PartSpans {
    name: Span,
    version: Span,
    flavor: Span,
}

// The bytes of an id.
fn bytes_of(alloc: Global, id: &TroveId) -> Result<Bytes, OutOfMemory>
    ensures value { IfOk result (λ bytes. bytes ≡ id_bytes id.now) }
    ensures id { OnOk result (IsTroveId id.now) }
{
    let mut bytes = Bytes::new(alloc, b"")?;
    put_str(&mut bytes, id.name.text().as_bytes())?;
    put_str(&mut bytes, id.version.text().as_bytes())?;
    put_str(&mut bytes, id.flavor.text().as_bytes())?;
    Ok(bytes)
}

/// Appends the bytes of an id; on want of memory `out` is as before.
pub fn put_id(alloc: Global, id: &TroveId, out: &mut Bytes) -> Result<(), OutOfMemory>
    ensures ok { OnOk result (out.new ≡ out.old ++ id_bytes id.now) }
    ensures err { OnErr result (out.new ≡ out.old) }
    ensures id { OnOk result (IsTroveId id.now) }
{
    let bytes = bytes_of(alloc, id)?;
    out.push_slice(bytes.get())?;
    Ok(())
}

// Where the values of the three fields stand that begin at `at`; none where the bytes end inside them.
fn part_spans(bytes: &[u8], at: usize) -> Option<PartSpans>
    requires { at ≤ length bytes.now }
    ensures some { IfSome result (AreStrsAt bytes.now at) }
    ensures none { IfNone result ((a b c rest : List ℕ) → FitsStr a → FitsStr b → FitsStr c
        → drop at bytes.now ≡ three_strs a b c ++ rest → ⊥) }
{
    let name = next_str(bytes, at)?;
    let version = next_str(bytes, name.to)?;
    let flavor = next_str(bytes, version.to)?;
    Some(PartSpans {
        name,
        version,
        flavor,
    })
}

/// The id whose parts have the texts of these bytes, as `id_of_texts`.
pub fn id_of_bytes(
    alloc: Global,
    name: &[u8],
    version: &[u8],
    flavor: &[u8],
) -> Result<TroveId, TextFault>
    ensures value { IfOk result (λ id. AreTextsOf id name.now version.now flavor.now) }
    ensures bad { IsErrOf result TextFault.Bad
        → (id : TroveId) → AreTextsOf id name.now version.now flavor.now → ⊥ }
    ensures early { (IsTrue (is_name name.now) → IsVersionText version.now → ⊥) → IsErrOf result TextFault.Bad }
    ensures only { IfOk result (λ read.
        (id : TroveId) → AreTextsOf id name.now version.now flavor.now → read ≡ id) }
{
    let Ok(name) = str::from_utf8(name) else {
        return Err(TextFault::Bad);
    };
    let Ok(version) = str::from_utf8(version) else {
        return Err(TextFault::Bad);
    };
    let Ok(flavor) = str::from_utf8(flavor) else {
        return Err(TextFault::Bad);
    };
    id_of_texts(alloc, name, version, flavor)
}

/// The id whose bytes begin at `at`, and its end. `Bad` only where none begins there; always where no three fields
/// begin there of which the first is a name and the second a version, while for a third one that is no flavor want of
/// memory may be answered instead.
pub fn next_id(alloc: Global, bytes: &[u8], at: usize) -> Result<IdAt, TextFault>
    requires { at ≤ length bytes.now }
    ensures found { IfOk result (λ found. IsIdAt bytes.now at found.id found.to) }
    ensures bad { IsErrOf result TextFault.Bad
        → (id : TroveId) (rest : List ℕ) → IsTroveId id → drop at bytes.now ≡ id_bytes id ++ rest → ⊥ }
    ensures early { ((name version flavor rest : List ℕ) → IsTrue (is_name name) → IsVersionText version → FitsStr flavor
        → drop at bytes.now ≡ three_strs name version flavor ++ rest → ⊥) → IsErrOf result TextFault.Bad }
    // No other id begins there, nor does it end elsewhere.
    ensures only { IfOk result (λ found. (id : TroveId) (rest : List ℕ) → IsTroveId id
        → drop at bytes.now ≡ id_bytes id ++ rest → (found.id ≡ id) × (drop found.to bytes.now ≡ rest)) }
{
    let Some(spans) = part_spans(bytes, at) else {
        return Err(TextFault::Bad);
    };
    let id = id_of_bytes(
        alloc,
        &bytes[spans.name.from..spans.name.to],
        &bytes[spans.version.from..spans.version.to],
        &bytes[spans.flavor.from..spans.flavor.to],
    )?;
    Ok(IdAt {
        id,
        to: spans.flavor.to,
    })
}
