//! The trove deltas of a job's record.
ghost use Rattle.std.specs.Prelude.{◌≡◌, ◌≢◌, Some, map, IfOk};
ghost use Rattle.local_db.specs.trove-stream.Installed.{trove_of};
ghost use Rattle.local_db.specs.RecordText.{delta_of};
ghost use Rattle.local_db.specs.Record.{TakesBack};
ghost use Rattle.job_record.specs.Changed.{AreChangedNames, IsChangedAt, IsDeltaOf};

use change_rel::relative;
use local_db::Delta;
use local_db::cny_base::{Copies, Name, OutOfMemory};
use local_db::trove_stream::{Installed, Trove};
use std::alloc::Global;

// The delta from the trove after a job to another one of its name before it.
fn delta_between(alloc: Global, after: &Trove, before: &Trove) -> Result<Delta, OutOfMemory>
    requires one_name { after.now.id.name ≡ before.now.id.name }
    requires differ { after.now ≢ before.now }
    ensures { IfOk result (IsDeltaOf after.now.id.name (Some after.now) (Some before.now)) }
{
    if after.id().is_same(before.id()) {
        let was = before.copy()?;
        return Ok(Delta::Was(was));
    }
    let rel = relative(alloc, after, before)?;
    Ok(Delta::Turned(rel))
}

// The delta of a name whose trove the job changed, by the lists after and before it.
fn delta_at(
    alloc: Global,
    name: &Name,
    after: &Installed,
    before: &Installed,
) -> Result<Delta, OutOfMemory>
    requires { IsChangedAt name.now after.now before.now }
    ensures { IfOk result (IsDeltaOf name.now (trove_of name.now after.now) (trove_of name.now before.now)) }
{
    let Some(now) = after.get(name) else {
        let Some(was) = before.get(name) else {
            unreachable!()
        };
        let trove = was.copy()?;
        return Ok(Delta::Was(trove));
    };
    let Some(was) = before.get(name) else {
        let id = now.id().copy()?;
        return Ok(Delta::Came(id));
    };
    let delta = delta_between(alloc, now, was)?;
    Ok(delta)
}

/// A delta for each name whose trove the job changed, in the order of the names.
pub(crate) fn deltas_of(
    alloc: Global,
    names: &[Name],
    after: &Installed,
    before: &Installed,
) -> Result<Vec<Delta>, OutOfMemory>
    requires { AreChangedNames before.now after.now names.now }
    ensures { IfOk result (λ deltas. TakesBack (map delta_of deltas.items) after.now before.now) }
{
    let mut deltas = Vec::new(alloc);
    for name in names {
        let delta = delta_at(alloc, name, after, before)?;
        deltas.push(delta)?;
    }
    Ok(deltas)
}
