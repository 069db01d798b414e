//! The items of a change set.
ghost use Rattle.std.specs.Prelude.{◌≡◌, ◌≤◌, ◌+◌, ◌++◌, ℕ, List, IsTrue, true, false, length, drop, IfOk, IfErr, OnErr, MatchOption};
ghost use Rattle.cny_stream.specs.Item.{FitsItem, IsItemAt, is_expected, item_bytes};
ghost use Rattle.change_set.specs.FirstFault.{fault_of, is_oversized, stated_length};
ghost use Rattle.change_set.specs.Reading.{IsSmall};

use cny_stream::{Item, next_item};
use trove_stream::cny_base::{CONTENT_ITEM_LIMIT, Refusal, What};

/// The tag of a trove's item.
pub const TROVE: u8 = 0x10;

/// The tag of a relative trove's item.
pub const RELATIVE: u8 = 0x11;

/// The tag of a content's item.
pub const CONTENT: u8 = 0x12;

/// The tag of the item at the end.
pub const END: u8 = 0x1f;

/// What may follow parts, while there are fewer than the limit.
pub const PART_TAGS: &[u8] = &[TROVE, RELATIVE, CONTENT, END];

/// What may follow the last part or a content.
pub const CONTENT_TAGS: &[u8] = &[CONTENT, END];

// The length of the content item at the front, where its head tells one over the limit.
fn oversized(bytes: &[u8]) -> Option<u32>
    ensures { MatchOption result (is_oversized bytes.now ≡ false) (λ len. (is_oversized bytes.now ≡ true) × (len ≡ stated_length bytes.now)) }
{
    if bytes.len() < 5 {
        return None;
    }
    let (head, _) = bytes.split_at(5);
    let len = u32::from_be_bytes([head[1], head[2], head[3], head[4]]);
    let is_content = head[0] == CONTENT;
    if is_content && len > CONTENT_ITEM_LIMIT {
        Some(len)
    } else {
        None
    }
}

/// The next item, at `at`, with one of these tags, among which is a content's. Otherwise the refusal of what stands there.
pub(crate) fn next_of(bytes: &[u8], at: usize, tags: &[u8]) -> Result<Item, Refusal>
    requires within { at ≤ length bytes.now }
    requires content { IsTrue (is_expected tags.now 0x12) }
    ensures found { IfOk result (λ item. IsItemAt bytes.now at item.tag item.from item.to) }
    ensures expected { IfOk result (λ item. IsTrue (is_expected tags.now item.tag)) }
    ensures small { IfOk result (λ item. item.tag ≡ 0x12 → item.to ≤ item.from + CONTENT_ITEM_LIMIT) }
    ensures refused { IfErr result (λ refusal. refusal ≡ fault_of tags.now (length bytes.now) (drop at bytes.now)) }
    // No item with one of these tags is there, but a content that is too large.
    ensures none { OnErr result ((tag : ℕ) (value rest : List ℕ) → IsTrue (is_expected tags.now tag) → FitsItem value → IsSmall tag value
        → drop at bytes.now ≡ item_bytes tag value ++ rest → ⊥) }
{
    let rest = &bytes[at..];
    if let Some(len) = oversized(rest) {
        return Err(Refusal::TooLarge {
            what: What::Content,
            size: u64::from(len - 20),
        });
    }
    match next_item(bytes, at, tags) {
        Ok(item) => Ok(item),
        Err(place) => Err(Refusal::Malformed { at: place as u64 }),
    }
}
