//! The missing troves.
ghost use Rattle.std.specs.Prelude.{◌≡◌, ◌≢◌, ◌≤◌, length, take, IfOk, IfErr, OnOk};
ghost use Rattle.change_set.specs.trove-parts.Refs.{AreRefs};
ghost use Rattle.repo_index.specs.Catalogue.{AreCommitted};
ghost use Rattle.repo_mirror.specs.Lengths.{set_length};
ghost use Rattle.repo_mirror.specs.Missing.{commits_of, AreMissing, IsTooMuchOrMemory};

use crate::sent::{Mark, Sent};
use change_set::cny_base::{Fault, Refusal};
use change_set::trove_parts::TroveId;
use repo_index::Catalogue;
use repo_load::Troves;
use std::alloc::Global;

/// The most bytes of a change set that is sent: with the magic of a message before it, the head of its item, and the end of the
/// message behind it, it has just room in one.
pub const SENT_LIMIT: u64 = 268_435_438;

/// Troves that are sent, and how long the stream of their absolute change set is.
pub struct ToSend {
    pub troves: Troves,
    pub size: u64,
}

// Written by hand, so that to let the troves go is a single call wherever a function ends early.
impl Drop for ToSend {
    fn drop(self) {
        let ToSend {
            troves: _troves,
            size: _,
        } = self;
    }
}

/// The troves that have none of these ids, which strictly rise, of the longest first commits of which they may be sent at once:
/// they are at most 4,096, and the stream of their absolute change set has at most 268,435,438 bytes. `TooLarge` exactly where
/// those of the first commit that has any are more than that by themselves: with their number where that is above its limit,
/// else with the stream's length. No content is read.
///
/// The counts tell how many of the catalogue's troves each commit has, in the order of the commits.
pub fn missing(
    alloc: Global,
    catalogue: &Catalogue,
    counts: &[u64],
    ids: &[TroveId],
) -> Result<ToSend, Fault>
    requires { AreRefs ids.now }
    ensures troves { IfOk result (λ found. AreMissing ids.now (commits_of catalogue.now.troves counts.now) found.troves) }
    ensures size { IfOk result (λ found. found.size ≡ set_length found.troves) }
    // Whatever the counts are.
    ensures committed { IfOk result (λ found. AreCommitted catalogue.now.troves found.troves) }
    ensures refused { IfErr result (IsTooMuchOrMemory ids.now (commits_of catalogue.now.troves counts.now)) }
{
    let mut sent = Sent::new(alloc);
    let mut rest = catalogue.troves();
    let mut left = counts;
    'commits: while let Some((count, behind)) = left.split_first() {
        let (commit, after) = rest.split_at((*count as usize).min(rest.len()));
        let before = sent.mark();
        sent.push_missing(alloc, ids, commit)?;
        if let Some(refusal) = sent.too_much() {
            return up_to(sent, before, refusal);
        }
        rest = after;
        left = behind;
    }
    Ok(all_of(sent))
}

// The troves that were there at a mark, if there were any; else nothing can be sent.
fn up_to(sent: Sent, mark: Mark, refusal: Refusal) -> Result<ToSend, Fault>
    ensures troves { IfOk result (λ found. found.troves ≡ take mark.number sent.troves.items) }
    ensures size { IfOk result (λ found. found.size ≡ mark.size) }
    ensures some { OnOk result (mark.number ≢ 0) }
    ensures refused { IfErr result (λ why. (why ≡ Fault.Refused refusal) × (mark.number ≡ 0)) }
{
    if mark.number == 0 {
        return Err(Fault::Refused(refusal));
    }
    let mut troves = sent.into_troves();
    troves.truncate(mark.number);
    Ok(ToSend {
        troves: Troves::new(troves),
        size: mark.size,
    })
}

// All troves that were gathered.
fn all_of(sent: Sent) -> ToSend
    ensures troves { result.troves ≡ sent.troves.items }
    ensures size { result.size ≡ sent.size }
{
    let size = sent.size;
    ToSend {
        troves: Troves::new(sent.into_troves()),
        size,
    }
}
