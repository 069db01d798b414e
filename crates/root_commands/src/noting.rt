//! What is told of the jobs of the stack, by the ids that are noted of each.
ghost use Rattle.std.specs.Prelude.{◌≡◌, List, ℕ, IfOk, OnOk};
ghost use Rattle.std.specs.BTreeMap.{values, IsOrdered};
ghost use Rattle.std.specs.Cmp.Lexicographic.{slice_cmp};
ghost use Rattle.std.specs.Option.{option_copied};
ghost use Rattle.std.specs.Ordering.{nat_cmp};
ghost use Rattle.update_job.specs.Changes.{noted};
ghost use Rattle.root_commands.specs.Noting.{change_by_id, id_if, turned, HasTurned, LeadsThere, IsJobNoted, AreJobsNoted};

use cli_call::cny_base::{Copies, Name, OutOfMemory};
use cli_call::trove_parts::TroveId;
use cny_report::Note;
use rollback_stack::NotedJob;
use std::alloc::Global;
use std::collections::BTreeMap;
use update_job::{Change, Changes};

// Changes by the names of their troves.
type Noted = BTreeMap<Name, Change>;

// The change that an id of a trove before the job, or of one that came, makes of what is noted of its name, if it makes one.
fn change_of(came: bool, old: Option<&Change>, id: &TroveId) -> Result<Option<Change>, OutOfMemory>
    ensures { IfOk result (λ change. change ≡ change_by_id came id.now (option_copied old.entry)) }
{
    let copy = id.copy()?;
    match old {
        None => {
            if came {
                Ok(Some(Change::Installed(copy)))
            } else {
                Ok(Some(Change::Erased(copy)))
            }
        }
        Some(Change::Erased(_was)) => {
            if came {
                Ok(Some(Change::Updated(copy)))
            } else {
                Ok(None)
            }
        }
        Some(Change::Installed(_id)) => Ok(None),
        Some(Change::Updated(_id)) => Ok(None),
    }
}

fn note(changes: &mut Noted, came: bool, id: &TroveId) -> Result<(), OutOfMemory>
    requires { IsOrdered (slice_cmp nat_cmp) changes.old }
    ensures noted { OnOk result ((name : List ℕ) → noted changes.new name ≡ turned came (id_if id.now name) (noted changes.old name)) }
    ensures ordered { IsOrdered (slice_cmp nat_cmp) changes.new }
{
    match change_of(came, changes.get(&id.name), id)? {
        Some(change) => {
            let name = id.name.copy()?;
            changes.insert(name, change)?;
            Ok(())
        }
        None => Ok(()),
    }
}

fn note_all(changes: &mut Noted, came: bool, ids: &[TroveId]) -> Result<(), OutOfMemory>
    requires { IsOrdered (slice_cmp nat_cmp) changes.old }
    ensures noted { OnOk result (HasTurned came ids.now changes.old changes.new) }
    ensures ordered { IsOrdered (slice_cmp nat_cmp) changes.new }
{
    for id in ids {
        note(changes, came, id)?;
    }
    Ok(())
}

// The changes in the order of their names.
fn in_order(alloc: Global, changes: Noted) -> Result<Vec<Change>, OutOfMemory>
    ensures { IfOk result (λ list. list.items ≡ values changes) }
{
    let mut list = Vec::new(alloc);
    for change in changes.into_values() {
        list.push(change)?;
    }
    Ok(list)
}

// What a job changed of the installed list, by the ids of the troves of this list before it and after it that it changed.
fn changes_of(alloc: Global, before: &[TroveId], after: &[TroveId]) -> Result<Changes, OutOfMemory>
    ensures { IfOk result (LeadsThere before.now after.now) }
{
    let mut changes = BTreeMap::new(alloc);
    note_all(&mut changes, false, before)?;
    note_all(&mut changes, true, after)?;
    let list = in_order(alloc, changes)?;
    Ok(Changes::new(list))
}

fn noted_job(alloc: Global, job: &NotedJob) -> Result<Note, OutOfMemory>
    ensures { IfOk result (IsJobNoted job.now) }
{
    let changes = changes_of(alloc, job.before.get(), job.after.get())?;
    Ok(Note {
        number: job.number,
        changes,
        paths: job.paths,
    })
}

/// What is told of jobs, by the ids that are noted of each.
pub(crate) fn noted_jobs(alloc: Global, jobs: &[NotedJob]) -> Result<Vec<Note>, OutOfMemory>
    ensures { IfOk result (λ notes. AreJobsNoted jobs.now notes.items) }
{
    let mut notes = Vec::new(alloc);
    for job in jobs {
        let note = noted_job(alloc, job)?;
        notes.push(note)?;
    }
    Ok(notes)
}
