//! The reply that has a change set.
ghost use Rattle.std.specs.Prelude.{◌≡◌, ◌↔◌, ◌≤◌, ◌∷◌, [], ℕ, true, IsTrue, IsErrOf, IfOk, IfErr, OnOk, MatchResult, length, drop, slice_range};
ghost use Rattle.change_set.specs.cny-base.Below.{begins_with};
ghost use Rattle.cny_stream.specs.Item.{IsItemAt};
ghost use Rattle.change_set.specs.declared.change.ChangeSet.{ChangeSet};
ghost use Rattle.change_set.specs.declared.change.Part.{Part};
ghost use Rattle.repo_mirror.specs.Faults.{IsBadItem, IsMalformed, IsPlaceOrMemory, LacksItem, LacksMagic};
ghost use Rattle.repo_mirror.specs.Replies.{reply_end, reply_magic, IsAbsoluteStream, IsNoEnd, IsReplyFault, IsSetItem, IsSetReply, IsWhole};

use crate::message_laws::one_reply;
use change_set::cny_base::{Fault, Refusal, TextFault};
use change_set::{ChangeSet, Part, decode, one_fault, unique_set};
use cny_stream::{Item, next_item};
use std::alloc::Global;

/// `CNYRP01` and a line feed.
const MAGIC: &[u8] = b"CNYRP01\n";

/// The tag of a reply with a change set.
const SET: u8 = 0x84;

/// The tag of the end item.
const END: u8 = 0x8f;

// The place of the fault where the bytes don't begin with the magic.
fn check_magic(bytes: &[u8]) -> Result<(), usize>
    ensures ok { OnOk result (begins_with reply_magic bytes.now ≡ true) }
    ensures lacks { IfErr result (LacksMagic reply_magic bytes.now) }
{
    if bytes.starts_with(MAGIC) {
        return Ok(());
    }
    let len = bytes.len();
    Err(if len < MAGIC.len() { len } else { 0 })
}

// Whether the trove is a whole one.
fn is_whole(part: &Part) -> bool
    ensures { IsTrue result ↔ IsWhole part.now }
{
    match part {
        Part::Whole(_) => true,
        Part::Relative(_) => false,
    }
}

// The change set of these bytes, of whole troves alone.
fn absolute_set(alloc: Global, bytes: &[u8]) -> Result<ChangeSet, TextFault>
    ensures value { IfOk result (λ set. IsAbsoluteStream set bytes.now) }
    ensures bad { IsErrOf result TextFault.Bad → (set : ChangeSet) → IsAbsoluteStream set bytes.now → ⊥ }
{
    one_fault();
    unique_set();
    let set = match decode(alloc, bytes) {
        Ok(set) => set,
        Err(Fault::Refused(_)) => return Err(TextFault::Bad),
        Err(Fault::Memory) => return Err(TextFault::Memory),
    };
    if !set.parts.get().iter().all(|part| is_whole(part)) {
        return Err(TextFault::Bad);
    }
    Ok(set)
}

// The refusal of a fault at a place.
fn malformed(at: usize) -> Fault
    ensures { result ≡ Fault.Refused (Refusal.Malformed at) }
{
    Fault::Refused(Refusal::Malformed { at: at as u64 })
}

// The item with this tag that begins at `at`.
fn item_at(bytes: &[u8], at: usize, tag: u8) -> Result<Item, Fault>
    requires { at ≤ length bytes.now }
    ensures found { IfOk result (λ item. (item.tag ≡ tag) × IsItemAt bytes.now at tag item.from item.to) }
    ensures refused { IfErr result (IsMalformed (LacksItem (tag ∷ []) at bytes.now)) }
{
    match next_item(bytes, at, &[tag]) {
        Ok(item) => Ok(item),
        Err(place) => Err(malformed(place)),
    }
}

// The change set that is the value of an item.
fn set_in(alloc: Global, bytes: &[u8], at: usize, item: Item) -> Result<ChangeSet, Fault>
    requires { IsItemAt bytes.now at 0x84 item.from item.to }
    ensures value { IfOk result (λ set. IsAbsoluteStream set (slice_range bytes.now item.from item.to)) }
    ensures refused { IfErr result (IsMalformed (IsBadItem IsSetItem (0x84 ∷ []) at bytes.now)) }
{
    match absolute_set(alloc, &bytes[item.from..item.to]) {
        Ok(set) => Ok(set),
        Err(TextFault::Bad) => Err(malformed(at)),
        Err(TextFault::Memory) => Err(Fault::Memory),
    }
}

// Whether the end item begins at `at`, and nothing stands behind it.
fn check_end(bytes: &[u8], at: usize) -> Result<(), Fault>
    requires { at ≤ length bytes.now }
    ensures ok { OnOk result (drop at bytes.now ≡ reply_end) }
    ensures refused { IfErr result (IsMalformed (IsNoEnd bytes.now at)) }
{
    let item = item_at(bytes, at, END)?;
    if item.from != item.to {
        return Err(malformed(at));
    }
    if item.to != bytes.len() {
        return Err(malformed(item.to));
    }
    Ok(())
}

// The change set of such a reply.
fn read_reply(alloc: Global, bytes: &[u8]) -> Result<ChangeSet, Fault>
    ensures value { IfOk result (λ set. IsSetReply set bytes.now) }
    ensures refused { IfErr result (IsMalformed (IsReplyFault bytes.now)) }
{
    if let Err(place) = check_magic(bytes) {
        return Err(malformed(place));
    }
    let item = item_at(bytes, MAGIC.len(), SET)?;
    let set = set_in(alloc, bytes, MAGIC.len(), item)?;
    check_end(bytes, item.to)?;
    Ok(set)
}

/// The change set of a stream of replies with exactly one reply, which has a change set of whole troves alone. `Malformed` exactly
/// for any other bytes, with the place of their first fault; a fault in the change set lies at the first byte of its item.
pub fn take(alloc: Global, bytes: &[u8]) -> Result<ChangeSet, Fault>
    ensures value { IfOk result (λ set. IsSetReply set bytes.now) }
    // What is spelled so is taken, unless memory runs out.
    ensures only { (set : ChangeSet) → IsSetReply set bytes.now → MatchResult result (λ taken. taken ≡ set) (λ fault. fault ≡ Fault.Memory) }
    ensures refused { IfErr result (IsMalformed (IsReplyFault bytes.now)) }
    // Where there is a fault, the first one is refused, unless memory runs out.
    ensures exact { (place : ℕ) → IsReplyFault bytes.now place → MatchResult result (λ taken. ⊥) (IsPlaceOrMemory place) }
{
    one_reply();
    let set = read_reply(alloc, bytes)?;
    Ok(set)
}
