//! The commit that a file spells.
ghost use Rattle.std.specs.Prelude.{◌≡◌, ◌↔◌, ◌≤◌, true, IsTrue, length, drop, IfOk, IfSome, IfNone, IsErrOf};
ghost use Rattle.repo_index.specs.cny-base.Below.{begins_with};
ghost use Rattle.repo_load.specs.State.{Commit};
ghost use Rattle.repo_load.specs.Files.{end_bytes, magic, IsCommitStream};
ghost use Rattle.repo_load.specs.Reading.{AreTrovesOf, IsNoTroveAt, IsTroveAt};

use crate::state_laws::one_commit;
use crate::writing::{END, MAGIC, TROVE};
use cny_stream::{Item, next_item};
use repo_index::cny_base::{ListOf, TextFault};
use repo_index::trove_stream::{Trove, decode, distinct_troves};
use std::alloc::Global;

/// A list of troves.
pub type Troves = ListOf<Trove>;

/// A trove, and where its item ends.
#[derive(Drop)]
struct TroveTo {
    trove: Trove,
    to: usize,
}

// Whether this item, of the end's tag, is empty and the last one.
fn is_end(bytes: &[u8], item: Item) -> bool
    ensures { IsTrue result ↔ ((item.from ≡ item.to) × (item.to ≡ length bytes.now)) }
{
    let empty = item.from == item.to;
    empty && item.to == bytes.len()
}

// The trove whose item begins at `at`, and none where the bytes end with the end item, which begins there.
fn next_trove(alloc: Global, bytes: &[u8], at: usize) -> Result<Option<TroveTo>, TextFault>
    requires { at ≤ length bytes.now }
    ensures some { IfOk result (λ next. IfSome next (λ found. IsTroveAt bytes.now at found.trove found.to)) }
    ensures none { IfOk result (λ next. IfNone next (drop at bytes.now ≡ end_bytes)) }
    ensures no_trove { IsErrOf result TextFault.Bad → IsNoTroveAt bytes.now at }
    ensures no_end { IsErrOf result TextFault.Bad → drop at bytes.now ≡ end_bytes → ⊥ }
{
    let Ok(item) = next_item(bytes, at, &[TROVE, END]) else {
        return Err(TextFault::Bad);
    };
    if item.tag == TROVE {
        let trove = decode(alloc, &bytes[item.from..item.to])?;
        return Ok(Some(TroveTo { trove, to: item.to }));
    }
    if !is_end(bytes, item) {
        return Err(TextFault::Bad);
    }
    Ok(None)
}

// The troves of a stream that begins with the magic; there may be none.
fn troves_behind(alloc: Global, bytes: &[u8]) -> Result<Troves, TextFault>
    requires { begins_with magic bytes.now ≡ true }
    ensures value { IfOk result (AreTrovesOf bytes.now) }
    ensures bad { IsErrOf result TextFault.Bad → (troves : Commit) → IsCommitStream troves bytes.now → ⊥ }
{
    distinct_troves();
    let mut troves = Vec::new(alloc);
    let mut at = MAGIC.len();
    'items: loop {
        let Some(next) = next_trove(alloc, bytes, at)? else {
            return Ok(Troves::new(troves));
        };
        let TroveTo { trove, to } = next;
        troves.push(trove)?;
        at = to;
    }
}

/// The troves of the commit whose stream the bytes are, all of them. `Bad` only where they are the stream of no commit.
pub fn decode_commit(alloc: Global, bytes: &[u8]) -> Result<Troves, TextFault>
    ensures value { IfOk result (λ troves. IsCommitStream troves bytes.now) }
    ensures bad { IsErrOf result TextFault.Bad → (troves : Commit) → IsCommitStream troves bytes.now → ⊥ }
    // The bytes are the stream of no other commit.
    ensures only { IfOk result (λ read. (troves : Commit) → IsCommitStream troves bytes.now → read ≡ troves) }
{
    one_commit();
    distinct_troves();
    if !bytes.starts_with(MAGIC) {
        return Err(TextFault::Bad);
    }
    let troves = troves_behind(alloc, bytes)?;
    if troves.get().is_empty() {
        return Err(TextFault::Bad);
    }
    Ok(troves)
}
