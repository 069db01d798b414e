//! The change set that bytes spell.
ghost use Rattle.std.specs.Prelude.{◌≡◌, IfOk, IfErr, MatchResult};
ghost use Rattle.trove_stream.specs.cny-base.declared.refusal.Refusal.{Refusal};
ghost use Rattle.change_set.specs.declared.change.ChangeSet.{ChangeSet};
ghost use Rattle.change_set.specs.ChangeSet.{IsSetStream};
ghost use Rattle.change_set.specs.FirstFault.{IsFirstFault, IsFaultOf, IsRefusalOrMemory};

use crate::change::{CarriedList, ChangeSet, Parts};
use crate::contents::take_contents;
use crate::laws::{one_fault, unique_set};
use crate::parts::{check_magic, take_parts};
use std::alloc::Global;
use trove_stream::cny_base::Fault;

// The change set, or the first fault.
fn read_set(alloc: Global, bytes: &[u8]) -> Result<ChangeSet, Fault>
    ensures value { IfOk result (λ set. IsSetStream set bytes.now) }
    ensures refused { IfErr result (IsFaultOf bytes.now) }
{
    if let Err(refusal) = check_magic(bytes) {
        return Err(Fault::Refused(refusal));
    }
    let read = take_parts(alloc, bytes)?;
    let contents = take_contents(alloc, bytes, read.parts.as_slice(), read.at, read.next)?;
    Ok(ChangeSet {
        parts: Parts::new(read.parts),
        contents: CarriedList::new(contents),
    })
}

/// The change set whose stream the bytes are, all of them; otherwise the refusal of their first fault, with its kind and its
/// place. Takes time linear in their number, but for looking up each content's name.
pub fn decode(alloc: Global, bytes: &[u8]) -> Result<ChangeSet, Fault>
    // What is read is spelled so.
    ensures value { IfOk result (λ set. IsSetStream set bytes.now) }
    // What is spelled so is read, unless memory runs out.
    ensures only { (set : ChangeSet) → IsSetStream set bytes.now
        → MatchResult result (λ read. read ≡ set) (λ fault. fault ≡ Fault.Memory) }
    // A refusal is the first fault.
    ensures refused { IfErr result (IsFaultOf bytes.now) }
    // Where there is a fault, the first one is refused, unless memory runs out.
    ensures exact { (refusal : Refusal) → IsFirstFault bytes.now refusal
        → MatchResult result (λ read. ⊥) (IsRefusalOrMemory refusal) }
{
    one_fault();
    unique_set();
    let set = read_set(alloc, bytes)?;
    Ok(set)
}
