//! What is told of new troves beside old ones.
ghost use Rattle.std.specs.Prelude.{◌≡◌, ◌++◌, [], All, IfOk, IfSome, OnOk, Option};
ghost use Rattle.std.specs.List.{cons_option};
ghost use Rattle.std.specs.Option.{option_copied};
ghost use Rattle.change_set.specs.declared.change.Part.{Part};
ghost use Rattle.change_set.specs.ChangeSet.{IsPart};
ghost use Rattle.repo_load.specs.trove-stream.Installed.{trove_of, IsRising};
ghost use Rattle.repository.specs.Between.{old_trove_of, ArePartsBetween, IsPartOf};

use change_rel::relative;
use change_set::{Part, Parts};
use repo_load::cny_base::{Copies, Name, OutOfMemory};
use repo_load::trove_stream::Trove;
use std::alloc::Global;

/// The trove of this name, among troves whose names strictly rise.
pub(crate) fn trove_named<'a>(troves: &'a [Trove], name: &Name) -> Option<&'a Trove>
    requires { IsRising troves.now }
    ensures value { option_copied result ≡ trove_of name.now troves.now }
    ensures named { IfSome result (λ trove. trove.now.id.name ≡ name.now) }
{
    match troves.binary_search_by(|trove| trove.id().name.cmp(name)) {
        Ok(place) => Some(&troves[place]),
        Err(_) => None,
    }
}

// What is told of a new trove beside the old one of its name, if there is one.
fn part_of(alloc: Global, old: Option<&Trove>, fresh: &Trove) -> Result<Option<Part>, OutOfMemory>
    requires { IfSome old (λ trove. trove.now.id.name ≡ fresh.now.id.name) }
    ensures { IfOk result (IsPartOf (option_copied old.entry) fresh.now) }
{
    let Some(trove) = old else {
        return Ok(Some(Part::Whole(fresh.copy()?)));
    };
    if trove.id().is_same(fresh.id()) {
        return Ok(None);
    }
    Ok(Some(Part::Relative(relative(alloc, trove, fresh)?)))
}

// Appends what is told of a new trove.
fn push_part(
    alloc: Global,
    parts: &mut Vec<Part>,
    old: &[Trove],
    fresh: &Trove,
) -> Result<(), OutOfMemory>
    requires { IsRising old.now }
    ensures pushed { OnOk result ((part : Option Part) × IsPartOf (old_trove_of old.now fresh.now) fresh.now part
        × (parts.new.items ≡ parts.old.items ++ cons_option part [])) }
    ensures valid { OnOk result (All IsPart parts.old.items → All IsPart parts.new.items) }
{
    let trove = trove_named(old, &fresh.id().name);
    let Some(part) = part_of(alloc, trove, fresh)? else {
        return Ok(());
    };
    parts.push(part)?;
    Ok(())
}

/// What is told of each of the new troves, in their order, beside old ones whose names strictly rise.
pub(crate) fn parts_between(
    alloc: Global,
    old: &[Trove],
    fresh: &[Trove],
) -> Result<Parts, OutOfMemory>
    requires { IsRising old.now }
    ensures parts { IfOk result (ArePartsBetween old.now fresh.now) }
    ensures valid { IfOk result (All IsPart) }
{
    let mut parts = Vec::new(alloc);
    for trove in fresh {
        push_part(alloc, &mut parts, old, trove)?;
    }
    Ok(Parts::new(parts))
}
