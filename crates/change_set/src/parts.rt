//! The parts of a change set, read from its stream.
ghost use Rattle.std.specs.Prelude.{◌≡◌, ◌⊎◌, ◌≤◌, ◌+◌, true, length, IsTrue, IfOk, IfErr, OnOk, IsErrOf};
ghost use Rattle.trove_stream.specs.cny-base.Below.{begins_with};
ghost use Rattle.trove_stream.specs.cny-base.declared.limits.TheConstants.{CONTENT_ITEM_LIMIT};
ghost use Rattle.cny_stream.specs.Item.{IsItemAt, is_expected};
ghost use Rattle.change_set.specs.declared.change.Part.{Part};
ghost use Rattle.change_set.specs.ChangeSet.{magic};
ghost use Rattle.change_set.specs.FirstFault.{IsItemOf, IsFaultOf, LacksMagic};
ghost use Rattle.change_set.specs.Reading.{ArePartsTo, IsNextAt, tags_behind};

use crate::change::Part;
use crate::items::{CONTENT_TAGS, PART_TAGS, RELATIVE, TROVE, next_of};
use cny_stream::Item;
use std::alloc::Global;
use trove_stream::cny_base::{Fault, PARTS_LIMIT, Refusal, TextFault};
use trove_stream::decode_rel;

/// `CNYCS01` and a line feed.
pub(crate) const MAGIC: &[u8] = b"CNYCS01\n";

/// The parts of a change set, and the first other item, which begins at `at`.
#[derive(Drop)]
pub(crate) struct PartsTo {
    pub parts: Vec<Part>,
    pub at: usize,
    pub next: Item,
}

/// The part whose item has this tag, that of a trove or of a relative trove, and this value. `Bad` only where it is no
/// part's; want of memory may be answered then instead.
pub fn part_of(alloc: Global, tag: u8, value: &[u8]) -> Result<Part, TextFault>
    requires { (tag ≡ 0x10) ⊎ (tag ≡ 0x11) }
    ensures found { IfOk result (λ part. IsItemOf part (record { tag = tag; value = value.now })) }
    ensures bad { IsErrOf result TextFault.Bad → (part : Part) → IsItemOf part (record { tag = tag; value = value.now }) → ⊥ }
{
    if tag == TROVE {
        Ok(Part::Whole(trove_stream::decode(alloc, value)?))
    } else {
        Ok(Part::Relative(decode_rel(alloc, value)?))
    }
}

/// The refusal of bytes that don't begin with the magic.
pub(crate) fn check_magic(bytes: &[u8]) -> Result<(), Refusal>
    ensures ok { OnOk result (begins_with magic bytes.now ≡ true) }
    ensures refused { IfErr result (LacksMagic bytes.now) }
{
    if bytes.starts_with(MAGIC) {
        return Ok(());
    }
    let len = bytes.len();
    let at = if len < MAGIC.len() { len } else { 0 };
    Err(Refusal::Malformed { at: at as u64 })
}

// The next item behind these parts, or the fault of what stands there.
fn next_behind(bytes: &[u8], at: usize, parts: &[Part]) -> Result<Item, Fault>
    requires { ArePartsTo bytes.now parts.now at }
    ensures found { IfOk result (λ item. IsItemAt bytes.now at item.tag item.from item.to) }
    ensures expected { IfOk result (λ item. IsTrue (is_expected (tags_behind (length parts.now)) item.tag)) }
    ensures small { IfOk result (λ item. item.tag ≡ 0x12 → item.to ≤ item.from + CONTENT_ITEM_LIMIT) }
    ensures refused { IfErr result (IsFaultOf bytes.now) }
{
    match next_of(bytes, at, tags_behind(parts.len())) {
        Ok(item) => Ok(item),
        Err(refusal) => Err(Fault::Refused(refusal)),
    }
}

// The tags that are expected behind so many parts.
fn tags_behind(parts: usize) -> &'static [u8]
    ensures { result.now ≡ tags_behind parts }
{
    if parts < PARTS_LIMIT {
        PART_TAGS
    } else {
        CONTENT_TAGS
    }
}

// Appends the part whose item begins at `at`, behind these parts.
fn push_part(
    alloc: Global,
    bytes: &[u8],
    at: usize,
    item: Item,
    parts: &mut Vec<Part>,
) -> Result<(), Fault>
    requires parts { ArePartsTo bytes.now parts.old.items at }
    requires item { IsItemAt bytes.now at item.tag item.from item.to }
    requires tagged { (item.tag ≡ 0x10) ⊎ (item.tag ≡ 0x11) }
    requires expected { IsTrue (is_expected (tags_behind (length parts.old.items)) item.tag) }
    ensures more { OnOk result (ArePartsTo bytes.now parts.new.items item.to) }
    ensures refused { IfErr result (IsFaultOf bytes.now) }
{
    match part_of(alloc, item.tag, &bytes[item.from..item.to]) {
        Ok(part) => {
            parts.push(part)?;
            Ok(())
        }
        Err(TextFault::Bad) => Err(Fault::Refused(Refusal::Malformed { at: at as u64 })),
        Err(TextFault::Memory) => Err(Fault::Memory),
    }
}

/// The parts behind the magic, up to the first other item.
pub(crate) fn take_parts(alloc: Global, bytes: &[u8]) -> Result<PartsTo, Fault>
    requires { begins_with magic bytes.now ≡ true }
    ensures found { IfOk result (λ read. ArePartsTo bytes.now read.parts.items read.at) }
    ensures next { IfOk result (λ read. IsNextAt bytes.now read.at read.next) }
    ensures refused { IfErr result (IsFaultOf bytes.now) }
{
    let mut parts = Vec::new(alloc);
    let mut at = MAGIC.len();
    'items: loop {
        let next = next_behind(bytes, at, &parts)?;
        if next.tag != TROVE && next.tag != RELATIVE {
            return Ok(PartsTo { parts, at, next });
        }
        push_part(alloc, bytes, at, next, &mut parts)?;
        at = next.to;
    }
}
