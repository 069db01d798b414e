//! The trove that a stream spells.
ghost use Rattle.std.specs.Prelude.{◌≡◌, IfOk, IsErrOf};
ghost use Rattle.trove_stream.specs.declared.parts.TroveParts.{TroveParts};
ghost use Rattle.trove_stream.specs.Stream.{stream_bytes, trove_bytes, full_trove_bytes};
ghost use Rattle.trove_stream.specs.Trove.{HasLists, IsWithinLimits, IsTrove};

use crate::head::take_head;
use crate::parts::TroveParts;
use crate::trove::Trove;
use crate::writing::{FILE, PROVIDE, REF, REQUIRE};
use std::alloc::Global;
use trove_parts::cny_base::{DEPS_LIMIT, FILES_LIMIT, REFS_LIMIT, TextFault};
use trove_parts::cny_stream::Encoding;
use trove_parts::{take_deps, take_files, take_refs};

// The parts that the bytes spell, all of them. Of no list more elements are read than a trove has at most, so that bytes that
// are no trove's take no more memory than those of a trove.
fn parts_of(alloc: Global, encoding: Encoding, bytes: &[u8]) -> Result<TroveParts, TextFault>
    ensures value { IfOk result (λ parts. bytes.now ≡ stream_bytes encoding parts) }
    ensures ok { IfOk result HasLists }
    ensures bad { IsErrOf result TextFault.Bad
        → (parts : TroveParts) → HasLists parts → IsWithinLimits parts → bytes.now ≡ stream_bytes encoding parts → ⊥ }
    ensures only { IfOk result (λ read.
        (parts : TroveParts) → HasLists parts → bytes.now ≡ stream_bytes encoding parts → read ≡ parts) }
{
    let head = take_head(alloc, bytes)?;
    let files = take_files(alloc, encoding, bytes, head.to, FILE, Some(FILES_LIMIT))?;
    let refs = take_refs(alloc, bytes, files.to, REF, Some(REFS_LIMIT))?;
    let required = take_deps(alloc, bytes, refs.to, REQUIRE, Some(DEPS_LIMIT))?;
    let provided = take_deps(alloc, bytes, required.to, PROVIDE, Some(DEPS_LIMIT))?;
    if provided.to != bytes.len() {
        return Err(TextFault::Bad);
    }
    Ok(TroveParts {
        id: head.id,
        files: files.files,
        refs: refs.refs,
        requires_: required.deps,
        provides: provided.deps,
    })
}

// The trove that the bytes spell in this encoding, all of them.
fn decode_as(alloc: Global, encoding: Encoding, bytes: &[u8]) -> Result<Trove, TextFault>
    ensures value { IfOk result (λ trove. bytes.now ≡ stream_bytes encoding trove) }
    ensures ok { IfOk result IsTrove }
    ensures bad { IsErrOf result TextFault.Bad
        → (trove : TroveParts) → IsTrove trove → bytes.now ≡ stream_bytes encoding trove → ⊥ }
    ensures only { IfOk result (λ read.
        (trove : TroveParts) → IsTrove trove → bytes.now ≡ stream_bytes encoding trove → read ≡ trove) }
{
    let parts = parts_of(alloc, encoding, bytes)?;
    Trove::of_parts(parts)
}

/// The trove whose stream the bytes are in the compact encoding, all of them. `Bad` only where they are the stream of no
/// trove; want of memory may be answered then instead.
pub fn decode(alloc: Global, bytes: &[u8]) -> Result<Trove, TextFault>
    ensures value { IfOk result (λ trove. bytes.now ≡ trove_bytes trove) }
    ensures ok { IfOk result IsTrove }
    ensures bad { IsErrOf result TextFault.Bad
        → (trove : TroveParts) → IsTrove trove → bytes.now ≡ trove_bytes trove → ⊥ }
    // The bytes are the stream of no other trove.
    ensures only { IfOk result (λ read.
        (trove : TroveParts) → IsTrove trove → bytes.now ≡ trove_bytes trove → read ≡ trove) }
{
    decode_as(alloc, Encoding::Compact, bytes)
}

/// The trove whose stream the bytes are in the explicit encoding, all of them. `Bad` only where they are the stream of no
/// trove; want of memory may be answered then instead.
pub fn decode_full(alloc: Global, bytes: &[u8]) -> Result<Trove, TextFault>
    ensures value { IfOk result (λ trove. bytes.now ≡ full_trove_bytes trove) }
    ensures ok { IfOk result IsTrove }
    ensures bad { IsErrOf result TextFault.Bad
        → (trove : TroveParts) → IsTrove trove → bytes.now ≡ full_trove_bytes trove → ⊥ }
    // The bytes are the stream of no other trove.
    ensures only { IfOk result (λ read.
        (trove : TroveParts) → IsTrove trove → bytes.now ≡ full_trove_bytes trove → read ≡ trove) }
{
    decode_as(alloc, Encoding::Explicit, bytes)
}
