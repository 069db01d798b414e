//! The parts of a dependency's text.
ghost use Rattle.std.specs.Prelude.{◌≡◌, ◌↔◌, ◌++◌, true, false, List, ℕ, Option, Some, None, IfSome, IfOk, IsSomeAnd, IsErrOf, IsTrue, map, codes};
ghost use Rattle.std.specs.Cmp.Lexicographic.{slice_cmp};
ghost use Rattle.std.specs.List.{list_all, slice_split};
ghost use Rattle.std.specs.List.Sorted.{IsStrictlySortedBy};
ghost use Rattle.std.specs.Option.{option_map};
ghost use Rattle.std.specs.Ordering.{nat_cmp};
ghost use Rattle.cny_dep.specs.Dep.{class_text};
ghost use Rattle.cny_dep.specs.Part.{is_part_byte, is_flag};
ghost use Rattle.cny_dep.specs.Listing as spec;
ghost use Rattle.cny_dep.specs.Listing.{group_text, IsListing, Lists};

use crate::class::Class;
use crate::flag::Flag;
use cny_base::TextFault;
use std::alloc::{AllocError, Global};

/// The class that begins the text, and what stands behind the colon and the space.
pub(crate) fn class_and_rest(text: &str) -> Option<(Class, &str)>
    ensures found { IfSome result (λ found. text.now ≡ class_text found.0 ++ (codes ": " ++ found.1.now)) }
    ensures only { (class : Class) (rest : List ℕ) → text.now ≡ class_text class ++ (codes ": " ++ rest)
        → IsSomeAnd result (λ found. (found.0 ≡ class) × (found.1.now ≡ rest)) }
{
    let (word, rest) = text.split_once(':')?;
    let class = Class::of_word(word)?;
    let rest = rest.strip_prefix(' ')?;
    Some((class, rest))
}

/// The name at the front, and what stands in parentheses behind it, if anything does.
pub(crate) fn name_and_group(text: &str) -> Option<(&str, Option<&str>)>
    ensures found { IfSome result (λ found. text.now ≡ found.0.now ++ group_text (option_map (λ group. group.now) found.1)) }
    ensures only { (name : List ℕ) (group : Option (List ℕ)) → list_all is_part_byte name ≡ true → text.now ≡ name ++ group_text group
        → IsSomeAnd result (λ found. (found.0.now ≡ name) × (option_map (λ inner. inner.now) found.1 ≡ group)) }
{
    match text.split_once('(') {
        None => Some((text, None)),
        Some((name, rest)) => {
            let group = rest.strip_suffix(')')?;
            Some((name, Some(group)))
        }
    }
}

fn is_separator(byte: u8) -> bool
    ensures { result ≡ spec.is_separator byte }
{
    byte == b' ' || byte == b','
}

// What stands between the separators.
fn parts_of(alloc: Global, group: &[u8]) -> Result<Vec<&[u8]>, AllocError>
    ensures { IfOk result (λ parts. map (λ part. part.now) parts.items ≡ slice_split spec.is_separator group.now) }
{
    group.split(|byte| is_separator(*byte)).collect(alloc)
}

// The flags that the parts are, in their order. `Bad` exactly where one of them isn't a flag.
fn flags_of(alloc: Global, parts: &[&[u8]]) -> Result<Vec<Flag>, TextFault>
    ensures value { IfOk result (λ flags. flags.items ≡ map (λ part. part.now) parts.now) }
    ensures ok { IfOk result (λ flags. IsTrue (list_all is_flag flags.items)) }
    ensures bad { IsErrOf result TextFault.Bad → list_all is_flag (map (λ part. part.now) parts.now) ≡ false }
{
    let mut flags = Vec::new(alloc);
    for part in parts {
        flags.push(Flag::read(alloc, part)?)?;
    }
    Ok(flags)
}

// Whether each flag is above the one before it.
fn are_rising(flags: &[Flag]) -> bool
    ensures { IsTrue result ↔ IsStrictlySortedBy (slice_cmp nat_cmp) flags.now }
{
    flags.is_sorted_by(|earlier, later| earlier < later)
}

// The flags that stand in a group, in rising order. `Bad` where the group lists no such flags.
fn flags_in(alloc: Global, group: &[u8]) -> Result<Vec<Flag>, TextFault>
    ensures found { IfOk result (λ flags. IsListing group.now flags.items) }
    ensures bad { IsErrOf result TextFault.Bad → (flags : List (List ℕ)) → IsListing group.now flags → ⊥ }
{
    let parts = parts_of(alloc, group)?;
    if parts.len() > 64 {
        return Err(TextFault::Bad);
    }
    let mut flags = flags_of(alloc, parts.as_slice())?;
    flags.sort()?;
    if !are_rising(flags.as_slice()) {
        return Err(TextFault::Bad);
    }
    Ok(flags)
}

/// The flags that are listed behind a name, in rising order. `Bad` where no such flags are.
pub(crate) fn listed_flags(alloc: Global, group: Option<&str>) -> Result<Vec<Flag>, TextFault>
    ensures found { IfOk result (λ flags. Lists (option_map (λ inner. inner.now) group.entry) flags.items) }
    ensures bad { IsErrOf result TextFault.Bad → (flags : List (List ℕ)) → Lists (option_map (λ inner. inner.now) group.entry) flags → ⊥ }
{
    match group {
        None => Ok(Vec::new(alloc)),
        Some(inner) => flags_in(alloc, inner.as_bytes()),
    }
}
