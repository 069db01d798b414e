//! The changes that entries with their contents tell.
ghost use Rattle.std.specs.Prelude.{◌≡◌, false, map, All, IfOk};
ghost use Rattle.job_targets.specs.Old.{is_staged};
ghost use Rattle.rollback_stack.specs.Entries.{entry_of, told_of};

use job_targets::cny_base::{Copies, OutOfMemory};
use job_targets::{Entry, mark_of};
use local_db::PathChange;
use std::alloc::Global;

fn change_of(entry: &Entry) -> Result<PathChange, OutOfMemory>
    ensures { IfOk result (λ change. change ≡ told_of entry.now) }
{
    let path = entry.path.copy()?;
    let before = mark_of(&entry.was)?;
    let after = entry.mark.copy()?;
    Ok(PathChange::new(path, before, after))
}

/// The changes that the entries tell.
pub fn changes_of(alloc: Global, entries: &[Entry]) -> Result<Vec<PathChange>, OutOfMemory>
    ensures value { IfOk result (λ changes. changes.items ≡ map told_of entries.now) }
    // Where the bytes of all files are given: the fingerprints of the nodes.
    ensures given { All (λ e. is_staged e.was ≡ false) entries.now → IfOk result (λ changes. changes.items ≡ map entry_of entries.now) }
{
    let changes = told_changes(alloc, entries)?;
    Ok(changes)
}

fn told_changes(alloc: Global, entries: &[Entry]) -> Result<Vec<PathChange>, OutOfMemory>
    ensures { IfOk result (λ changes. changes.items ≡ map told_of entries.now) }
{
    let mut changes = Vec::new(alloc);
    for entry in entries {
        changes.push(change_of(entry)?)?;
    }
    Ok(changes)
}
