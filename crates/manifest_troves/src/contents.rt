//! The contents that a manifest carries.
ghost use Rattle.std.specs.Prelude.{◌≡◌, [], map, None, All, Contains, IfOk, OnOk, IfErr};
ghost use Rattle.std.specs.List.{fold};
ghost use Rattle.std.specs.List.Sorted.{IsStrictlySortedBy};
ghost use Rattle.change_set.specs.ChangeSet.{content_cmp};
ghost use Rattle.manifest_troves.specs.Contents as spec;
ghost use Rattle.manifest_troves.specs.Contents.{carried_of};
ghost use Rattle.manifest_troves.specs.Kept.{differing, IsDifference, collision_from, IsCollisionFrom};

use change_set::cny_base::{Bytes, Fault, OutOfMemory, Refusal};
use change_set::{Carried, CarriedList};
use std::alloc::Global;
use std::collections::BTreeMap;

// The first place at which they differ, or the shorter length.
fn first_difference(bytes: &[u8], other: &[u8]) -> usize
    ensures { result ≡ spec.first_difference bytes.now other.now }
{
    let len = bytes.len().min(other.len());
    for at in 0..len {
        if bytes[at] != other[at] {
            return at;
        }
    }
    len
}

// Puts a content where none of its name is, or an equal one. The refusal where another is.
fn put_content(kept: &mut BTreeMap<[u8; 20], Bytes>, content: Carried) -> Result<(), Fault>
    ensures ok { OnOk result (kept.new.entries ≡ spec.put_content kept.old.entries content) }
    ensures apart { OnOk result (differing kept.old.entries content ≡ None) }
    ensures refused { IfErr result (IsDifference kept.old.entries content) }
{
    if let Some(other) = kept.get(&content.name) {
        if *other != content.bytes {
            let at = first_difference(other.get(), content.bytes.get()) as u64;
            let name = content.name;
            return Err(Fault::Refused(Refusal::Collision { name, at }));
        }
    }
    let (name, bytes) = content.into_parts();
    kept.insert(name, bytes)?;
    Ok(())
}

// The contents as a list.
fn listed(alloc: Global, kept: BTreeMap<[u8; 20], Bytes>) -> Result<Vec<Carried>, OutOfMemory>
    ensures { IfOk result (λ made. made.items ≡ map carried_of kept.entries) }
{
    let mut made = Vec::new(alloc);
    for (name, bytes) in kept {
        made.push(Carried { name, bytes })?;
    }
    Ok(made)
}

// The contents, each name once.
fn kept_contents(alloc: Global, contents: Vec<Carried>) -> Result<BTreeMap<[u8; 20], Bytes>, Fault>
    ensures ok { IfOk result (λ kept. kept.entries ≡ fold spec.put_content [] contents.items) }
    ensures none { OnOk result (collision_from [] contents.items ≡ None) }
    ensures refused { IfErr result (IsCollisionFrom [] contents.items) }
{
    let mut kept = BTreeMap::new(alloc);
    for content in contents {
        put_content(&mut kept, content)?;
    }
    Ok(kept)
}

/// The contents, each name once, in the order of the names; the refusal of the first that differs from an earlier one of its
/// name.
pub fn contents_of(alloc: Global, contents: Vec<Carried>) -> Result<CarriedList, Fault>
    ensures value { IfOk result (λ made. made ≡ spec.contents_of contents.items) }
    ensures apart { OnOk result (spec.first_collision contents.items ≡ None) }
    ensures refused { IfErr result (spec.IsCollisionOf contents.items) }
    // Their names strictly rise.
    ensures rising { IfOk result (IsStrictlySortedBy content_cmp) }
    // Each is one of those that were given.
    ensures given { IfOk result (All (Contains contents.items)) }
{
    let kept = kept_contents(alloc, contents)?;
    Ok(CarriedList::new(listed(alloc, kept)?))
}
