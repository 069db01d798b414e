//! The names of the contents that are sent.
ghost use Rattle.std.specs.Prelude.{◌≡◌, ◌↔◌, ◌⊎◌, ◌++◌, IfOk, OnOk, Contains, List, ℕ};
ghost use Rattle.change_rel.specs.Sending.{AreSent, SendsName};
ghost use Rattle.repo_load.specs.trove-stream.Installed.{IsRising};
ghost use Rattle.repository.specs.Between.{old_files, SendsContent};
ghost use Rattle.repository.specs.BetweenSteps.{AreNames};

use crate::between_parts::trove_named;
use change_rel::{ContentNames, to_send};
use repo_load::cny_base::OutOfMemory;
use repo_load::trove_stream::Trove;
use std::alloc::Global;

// Appends names.
fn push_all(names: &mut Vec<[u8; 20]>, more: &[[u8; 20]]) -> Result<(), OutOfMemory>
    ensures { OnOk result (names.new.items ≡ names.old.items ++ more.now) }
{
    for name in more {
        names.push(*name)?;
    }
    Ok(())
}

// The names of the contents that are sent of a new trove.
fn names_of(alloc: Global, old: &[Trove], fresh: &Trove) -> Result<ContentNames, OutOfMemory>
    requires { IsRising old.now }
    ensures { IfOk result (AreSent (old_files old.now fresh.now) fresh.now.files) }
{
    match trove_named(old, &fresh.id().name) {
        Some(trove) => to_send(alloc, Some(trove), fresh),
        None => to_send(alloc, None, fresh),
    }
}

// Appends them.
fn push_names(
    alloc: Global,
    names: &mut Vec<[u8; 20]>,
    old: &[Trove],
    fresh: &Trove,
) -> Result<(), OutOfMemory>
    requires { IsRising old.now }
    ensures { OnOk result ((name : List ℕ) → Contains names.new.items name
        ↔ (Contains names.old.items name ⊎ SendsName (old_files old.now fresh.now) fresh.now.files name)) }
{
    let sent = names_of(alloc, old, fresh)?;
    push_all(names, sent.get())?;
    Ok(())
}

// The names of the contents that are sent, in the order of the troves.
fn all_names(alloc: Global, old: &[Trove], fresh: &[Trove]) -> Result<Vec<[u8; 20]>, OutOfMemory>
    requires { IsRising old.now }
    ensures { IfOk result (λ names. (name : List ℕ) → Contains names.items name ↔ SendsContent old.now fresh.now name) }
{
    let mut names = Vec::new(alloc);
    for trove in fresh {
        push_names(alloc, &mut names, old, trove)?;
    }
    Ok(names)
}

/// The names of the contents that are sent, each once, strictly rising.
pub(crate) fn names_between(
    alloc: Global,
    old: &[Trove],
    fresh: &[Trove],
) -> Result<ContentNames, OutOfMemory>
    requires { IsRising old.now }
    ensures { IfOk result (AreNames old.now fresh.now) }
{
    let mut names = all_names(alloc, old, fresh)?;
    names.sort_unstable();
    names.dedup();
    Ok(ContentNames::new(names))
}
