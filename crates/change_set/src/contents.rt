//! The contents of a change set, read from its stream.
ghost use Rattle.std.specs.Prelude.{◌↔◌, ◌≤◌, List, IsTrue, IfOk, IfErr, OnOk, IsErrOf, length, slice_range};
ghost use Rattle.change_set.specs.declared.change.Part.{Part};
ghost use Rattle.change_set.specs.declared.change.Carried.{Carried};
ghost use Rattle.change_set.specs.ChangeSet.{IsSetStream};
ghost use Rattle.change_set.specs.Contents.{IfRefused, IsNoContent, IsNoNext, IsEndAt, IsNoEnd};
ghost use Rattle.change_set.specs.FirstFault.{ComesAfter, IsFaultOf};
ghost use Rattle.change_set.specs.Index.{IsIndexOf};
ghost use Rattle.change_set.specs.Reading.{ArePartsTo, IsNextAt, IsNextOf, last_name};

use crate::change::{Carried, Part};
use crate::items::{CONTENT, CONTENT_TAGS, next_of};
use crate::recorded::Index;
use cny_stream::Item;
use sha1::Sha1;
use std::alloc::Global;
use trove_stream::cny_base::{Bytes, Fault, Refusal, TextFault};
use trove_stream::{distinct_rels, distinct_troves};

// Whether the name comes after that of the last content.
fn comes_after(contents: &[Carried], name: &[u8; 20]) -> bool
    ensures { IsTrue result ↔ ComesAfter (last_name contents.now) name.now }
{
    let Some(last) = contents.last() else {
        return true;
    };
    last.name < *name
}

// The content with this value, behind these contents, if the index has its name and its size.
fn content_of(
    alloc: Global,
    index: &Index,
    contents: &[Carried],
    value: &[u8],
) -> Result<Carried, TextFault>
    ensures found { (parts : List Part) → IsIndexOf parts index.now → IfOk result (IsNextOf parts (last_name contents.now) value.now) }
    ensures bad { IsErrOf result TextFault.Bad → (parts : List Part) → IsIndexOf parts index.now → (content : Carried)
        → IsNextOf parts (last_name contents.now) value.now content → ⊥ }
{
    if value.len() < 20 {
        return Err(TextFault::Bad);
    }
    let (front, bytes) = value.split_at(20);
    let name = Sha1::digest(bytes);
    if front != name.as_slice() {
        return Err(TextFault::Bad);
    }
    if !index.has(&name, bytes.len()) {
        return Err(TextFault::Bad);
    }
    if !comes_after(contents, &name) {
        return Err(TextFault::Bad);
    }
    let bytes = Bytes::new(alloc, bytes)?;
    Ok(Carried { name, bytes })
}

// The content whose item begins at `at`, behind these contents.
fn content_at(
    alloc: Global,
    index: &Index,
    contents: &[Carried],
    bytes: &[u8],
    at: usize,
    item: Item,
) -> Result<Carried, Fault>
    requires order { item.from ≤ item.to }
    requires within { item.to ≤ length bytes.now }
    ensures found { (parts : List Part) → IsIndexOf parts index.now
        → IfOk result (IsNextOf parts (last_name contents.now) (slice_range bytes.now item.from item.to)) }
    ensures refused { IfErr result (IfRefused (IsNoContent index.now (last_name contents.now) (slice_range bytes.now item.from item.to) at)) }
{
    match content_of(alloc, index, contents, &bytes[item.from..item.to]) {
        Ok(content) => Ok(content),
        Err(TextFault::Bad) => Err(Fault::Refused(Refusal::Malformed { at: at as u64 })),
        Err(TextFault::Memory) => Err(Fault::Memory),
    }
}

// The item at `at`, of a content or the end.
fn next_at(bytes: &[u8], at: usize) -> Result<Item, Fault>
    requires { at ≤ length bytes.now }
    ensures found { IfOk result (IsNextAt bytes.now at) }
    ensures refused { IfErr result (IfRefused (IsNoNext bytes.now at)) }
{
    match next_of(bytes, at, CONTENT_TAGS) {
        Ok(item) => Ok(item),
        Err(refusal) => Err(Fault::Refused(refusal)),
    }
}

// Whether the item at `at` is empty and the bytes end with it.
fn end_at(bytes: &[u8], at: usize, item: Item) -> Result<(), Fault>
    ensures found { OnOk result (IsEndAt bytes.now item) }
    ensures refused { IfErr result (IfRefused (IsNoEnd bytes.now at item)) }
{
    if item.from != item.to {
        return Err(Fault::Refused(Refusal::Malformed { at: at as u64 }));
    }
    if item.to != bytes.len() {
        return Err(Fault::Refused(Refusal::Malformed { at: item.to as u64 }));
    }
    Ok(())
}

/// The contents of a change set of these parts, up to its end, from the first item behind the parts on.
pub(crate) fn take_contents(
    alloc: Global,
    bytes: &[u8],
    parts: &[Part],
    at: usize,
    first: Item,
) -> Result<Vec<Carried>, Fault>
    requires parts { ArePartsTo bytes.now parts.now at }
    requires first { IsNextAt bytes.now at first }
    ensures value { IfOk result (λ contents. IsSetStream (record { parts = parts.now; contents = contents.items }) bytes.now) }
    ensures refused { IfErr result (IsFaultOf bytes.now) }
{
    // A file record of an item with the stream of a part is one of that part.
    distinct_troves();
    distinct_rels();
    let index = Index::of(alloc, parts)?;
    let mut contents = Vec::new(alloc);
    let (mut at, mut item) = (at, first);
    'contents: while item.tag == CONTENT {
        let content = content_at(alloc, &index, contents.as_slice(), bytes, at, item)?;
        contents.push(content)?;
        at = item.to;
        item = next_at(bytes, at)?;
    }
    end_at(bytes, at, item)?;
    Ok(contents)
}
