//! The test of the list after a job for closure.
ghost use Rattle.std.specs.Prelude.{◌≡◌, ◌++◌, All, IfErr, IfOk, OnOk};
ghost use Rattle.std.specs.Option.{option_copied, option_to_list};
ghost use Rattle.dep_closure.specs.Closed.{IsClosed, IsUnmetOrMemory};
ghost use Rattle.rollback_stack.specs.trove-stream.Trove.{IsTrove};
ghost use Rattle.update_job.specs.Changes.{AreChanges};
ghost use Rattle.system_core.specs.Changing as spec;

use crate::listed::troves_keep_rules;
use crate::names::names_of;
use dep_closure::{Closure, one_changed_list};
use rollback_stack::cny_base::{Copies, Fault, Name, OutOfMemory};
use rollback_stack::trove_stream::{Installed, Trove, distinct_troves};
use std::alloc::Global;
use update_job::Change;

// Appends a copy of the trove, if there is one.
fn push_copy(troves: &mut Vec<Trove>, found: Option<&Trove>) -> Result<(), OutOfMemory>
    ensures { OnOk result (troves.new.items ≡ troves.old.items ++ option_to_list (option_copied found.entry)) }
{
    if let Some(trove) = found {
        troves.push(trove.copy()?)?;
    }
    Ok(())
}

// Copies of the troves that the list has of these names, in their order.
fn troves_of(alloc: Global, list: &Installed, names: &[Name]) -> Result<Vec<Trove>, OutOfMemory>
    ensures { IfOk result (λ troves. troves.items ≡ spec.troves_named list.now names.now) }
{
    let mut troves = Vec::new(alloc);
    for name in names {
        push_copy(&mut troves, list.get(name))?;
    }
    Ok(troves)
}

/// Tests that the list is closed, from the list before it and its changes: what they take away and what they bring is tested
/// against the closure of the list before. `Unmet` exactly where a requirement of the list isn't met, with the name of the first
/// trove that has such a requirement and the text of its first one.
pub(crate) fn test_closure(
    alloc: Global,
    before: &Installed,
    list: &Installed,
    changes: &[Change],
) -> Result<(), Fault>
    requires { AreChanges before.now list.now changes.now }
    ensures ok { OnOk result (IsClosed list.now) }
    ensures fault { IfErr result (IsUnmetOrMemory list.now) }
    ensures troves { All IsTrove list.now }
{
    // Troves of one name that don't differ are equal, so that the changes lead to the one list.
    distinct_troves();
    one_changed_list();
    troves_keep_rules(before.troves());
    troves_keep_rules(list.troves());
    let gone = names_of(alloc, changes)?;
    let come = troves_of(alloc, list, gone.as_slice())?;
    let mut closure = Closure::of(alloc, before.troves())?;
    closure.change(alloc, gone.as_slice(), come.as_slice())
}
