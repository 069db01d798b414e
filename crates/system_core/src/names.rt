//! The names whose trove changes from one list to another.
ghost use Rattle.std.specs.Prelude.{◌≡◌, IfOk};
ghost use Rattle.local_db.specs.Installed.{IsInstalled};
ghost use Rattle.rollback_stack.specs.job-record.Changed.{AreChangedNames};
ghost use Rattle.update_job.specs.Changes as change_spec;
ghost use Rattle.update_job.specs.Changes.{AreChanges};
ghost use Rattle.system_core.specs.Changing as spec;

use rollback_stack::cny_base::{Copies, Name, OutOfMemory};
use rollback_stack::trove_stream::{Installed, distinct_troves};
use std::alloc::Global;
use update_job::Change;

fn name_of(change: &Change) -> &Name
    ensures { result.now ≡ change_spec.name_of change.now }
{
    match change {
        Change::Installed(id) => &id.name,
        Change::Updated(id) => &id.name,
        Change::Erased(id) => &id.name,
    }
}

/// The names of the troves that change.
pub(crate) fn names_of(alloc: Global, changes: &[Change]) -> Result<Vec<Name>, OutOfMemory>
    ensures { IfOk result (λ names. names.items ≡ spec.names_changed changes.now) }
{
    let mut names = Vec::new(alloc);
    for change in changes {
        names.push(name_of(change).copy()?)?;
    }
    Ok(names)
}

/// The names whose trove changes, by the changes that lead from the one list to the other: just those of which the lists don't have the
/// same trove, in their order.
pub fn changed_names(
    alloc: Global,
    before: &Installed,
    after: &Installed,
    changes: &[Change],
) -> Result<Vec<Name>, OutOfMemory>
    requires before { IsInstalled before.now }
    requires after { IsInstalled after.now }
    requires changes { AreChanges before.now after.now changes.now }
    ensures { IfOk result (λ names. AreChangedNames before.now after.now names.items) }
{
    // Troves that are equal by their texts are one trove.
    distinct_troves();
    let names = names_of(alloc, changes)?;
    Ok(names)
}
