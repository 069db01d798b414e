//! The stream of a change set.
ghost use Rattle.std.specs.Prelude.{◌≡◌, ◌+◌, ◌≤◌, ◌++◌, length, flat_map, All, IfOk, IfErr, OnOk, None};
ghost use Rattle.cny_stream.specs.Item.{FitsItem};
ghost use Rattle.change_set.specs.ChangeSet.{IsPart, FitsPart, part_tag, part_value, part_bytes, content_value, content_bytes, change_bytes, HasContents, IsSetStream};
ghost use Rattle.change_set.specs.TooLarge.{too_large, IsTooLargeOrMemory};

use crate::change::{Carried, ChangeSet, Part};
use crate::items::{CONTENT, END, RELATIVE, TROVE};
use crate::parts::MAGIC;
use cny_stream::{close_item, open_item, put_item};
use std::alloc::Global;
use trove_stream::cny_base::{
    Bytes, CHANGE_SET_LIMIT, Fault, OutOfMemory, PARTS_LIMIT, Refusal, What,
};
use trove_stream::encode_rel;

// What an item has before its value: its tag, and the value's length in four bytes.
const HEAD_LEN: u64 = 5;

/// The stream of a change set. `TooLarge` exactly where it has more than 4,096 parts, with their number, or otherwise where its
/// stream is longer than 268,435,456 bytes, with its length.
pub fn encode(alloc: Global, change: &ChangeSet) -> Result<Bytes, Fault>
    requires { HasContents change.now }
    ensures value { IfOk result (λ bytes. IsSetStream change.now bytes) }
    ensures small { OnOk result (too_large change.now ≡ None) }
    ensures refused { IfErr result (IsTooLargeOrMemory change.now) }
{
    let number = change.parts.get().len();
    if number > PARTS_LIMIT {
        return Err(Fault::Refused(Refusal::TooLarge {
            what: What::ChangeSet,
            size: number as u64,
        }));
    }
    let size = size_of(alloc, change)?;
    if size > CHANGE_SET_LIMIT as u64 {
        return Err(Fault::Refused(Refusal::TooLarge {
            what: What::ChangeSet,
            size,
        }));
    }
    Ok(bytes_of(alloc, change)?)
}

// The bytes of a change set, each of whose items fits since all of them do.
fn bytes_of(alloc: Global, change: &ChangeSet) -> Result<Bytes, OutOfMemory>
    requires { length (change_bytes change.now) ≤ CHANGE_SET_LIMIT }
    ensures value { IfOk result (λ bytes. bytes ≡ change_bytes change.now) }
    ensures parts { OnOk result (All IsPart change.now.parts) }
    ensures fits { OnOk result (All FitsPart change.now.parts) }
{
    let mut out = Bytes::new(alloc, MAGIC)?;
    put_parts(alloc, &mut out, change.parts.get())?;
    put_contents(&mut out, change.contents.get())?;
    put_item(&mut out, END, &[])?;
    Ok(out)
}

// Appends the items of parts.
fn put_parts(alloc: Global, out: &mut Bytes, parts: &[Part]) -> Result<(), OutOfMemory>
    requires { length (flat_map part_bytes parts.now) ≤ CHANGE_SET_LIMIT }
    ensures value { OnOk result (out.new ≡ out.old ++ flat_map part_bytes parts.now) }
    ensures parts { OnOk result (All IsPart parts.now) }
    ensures fits { OnOk result (All FitsPart parts.now) }
{
    for part in parts {
        put_part(alloc, out, part)?;
    }
    Ok(())
}

// Appends the item of a part, whose stream has room in one. The stream is written in place.
fn put_part(alloc: Global, out: &mut Bytes, part: &Part) -> Result<(), OutOfMemory>
    requires { FitsPart part.now }
    ensures value { OnOk result (out.new ≡ out.old ++ part_bytes part.now) }
    ensures part { OnOk result (IsPart part.now) }
{
    let begun = open_item(out, tag_of(part))?;
    let put = put_stream(alloc, out, part);
    close_item(out, begun, put)
}

// Appends the stream of a part.
fn put_stream(alloc: Global, out: &mut Bytes, part: &Part) -> Result<(), OutOfMemory>
    ensures value { OnOk result (out.new ≡ out.old ++ part_value part.now) }
    ensures part { OnOk result (IsPart part.now) }
{
    match part {
        Part::Whole(trove) => trove_stream::encode(alloc, trove, out),
        Part::Relative(rel) => encode_rel(alloc, rel, out),
    }
}

// Appends the items of contents.
fn put_contents(out: &mut Bytes, contents: &[Carried]) -> Result<(), OutOfMemory>
    requires { length (flat_map content_bytes contents.now) ≤ CHANGE_SET_LIMIT }
    ensures { OnOk result (out.new ≡ out.old ++ flat_map content_bytes contents.now) }
{
    for content in contents {
        put_content(out, content)?;
    }
    Ok(())
}

// Appends the item of a content, which has room in one.
fn put_content(out: &mut Bytes, content: &Carried) -> Result<(), OutOfMemory>
    requires { FitsItem (content_value content.now) }
    ensures { OnOk result (out.new ≡ out.old ++ content_bytes content.now) }
{
    let begun = open_item(out, CONTENT)?;
    let put = put_named(out, content);
    close_item(out, begun, put)
}

// Appends the name of a content, and its bytes.
fn put_named(out: &mut Bytes, content: &Carried) -> Result<(), OutOfMemory>
    ensures { OnOk result (out.new ≡ out.old ++ content_value content.now) }
{
    out.push_slice(&content.name)?;
    out.push_slice(content.bytes.get())?;
    Ok(())
}

fn tag_of(part: &Part) -> u8
    ensures { result ≡ part_tag part.now }
{
    match part {
        Part::Whole(_) => TROVE,
        Part::Relative(_) => RELATIVE,
    }
}

// The stream of a part.
fn value_of(alloc: Global, part: &Part) -> Result<Bytes, OutOfMemory>
    ensures { IfOk result (λ bytes. bytes ≡ part_value part.now) }
{
    let mut bytes = Bytes::new(alloc, b"")?;
    put_stream(alloc, &mut bytes, part)?;
    Ok(bytes)
}

// The length of the stream of a change set.
fn size_of(alloc: Global, change: &ChangeSet) -> Result<u64, OutOfMemory>
    ensures { IfOk result (λ size. size ≡ length (change_bytes change.now)) }
{
    let parts = parts_size(alloc, change.parts.get())?;
    let contents = contents_size(change.contents.get())?;
    let size = sum_of(MAGIC.len() as u64, sum_of(parts, contents)?)?;
    sum_of(size, HEAD_LEN)
}

// The sum. Where it has no room the answer is want of memory, since no machine holds so many bytes.
fn sum_of(one: u64, other: u64) -> Result<u64, OutOfMemory>
    ensures { IfOk result (λ sum. sum ≡ one + other) }
{
    one.checked_add(other).ok_or(OutOfMemory)
}

// The length of the items of parts.
fn parts_size(alloc: Global, parts: &[Part]) -> Result<u64, OutOfMemory>
    ensures { IfOk result (λ size. size ≡ length (flat_map part_bytes parts.now)) }
{
    let mut size = 0;
    for part in parts {
        let value = value_of(alloc, part)?;
        size = with_item(size, value.get().len())?;
    }
    Ok(size)
}

// The length of the items of contents.
fn contents_size(contents: &[Carried]) -> Result<u64, OutOfMemory>
    ensures { IfOk result (λ size. size ≡ length (flat_map content_bytes contents.now)) }
{
    let mut size = 0;
    for content in contents {
        let with_name = with_item(size, content.name.as_slice().len())?;
        size = sum_of(with_name, content.bytes.get().len() as u64)?;
    }
    Ok(size)
}

// The length with an item more, whose value is so long.
fn with_item(size: u64, len: usize) -> Result<u64, OutOfMemory>
    ensures { IfOk result (λ sum. sum ≡ size + (5 + len)) }
{
    let with_head = sum_of(size, HEAD_LEN)?;
    sum_of(with_head, len as u64)
}
