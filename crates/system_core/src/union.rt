//! One write set of a job's targets, its record and its database.
ghost use Rattle.std.specs.Prelude.{◌≡◌, ◌<◌, ◌++◌, ◌∷◌, [], All, IfOk};
ghost use Rattle.rollback_stack.specs.journal-log.declared.put.Put as declared;
ghost use Rattle.local_db.specs.Steps.{IsUnion};
ghost use Rattle.local_db.specs.SystemState.{IsFree};
ghost use Rattle.rollback_stack.specs.Pushing.{IsRecordWrite};
ghost use Rattle.system_core.specs.JobWriting.{database_write};

use crate::inserting::with_put;
use local_db::database_path;
use rollback_stack::cny_base::{Bytes, Mode, OutOfMemory};
use rollback_stack::journal_log::{Put, Puts, Want};
use rollback_stack::tree_disk::byte_ranges;
use std::alloc::Global;

// The write of the database with these bytes, with mode 0644.
fn database_put(alloc: Global, bytes: Bytes) -> Result<Put, OutOfMemory>
    ensures { IfOk result (λ put. put ≡ database_write bytes) }
{
    let path = database_path(alloc)?;
    let Some(mode) = Mode::new(0o644) else {
        unreachable!()
    };
    let want = Want::File { mode, bytes };
    Ok(Put { path, want })
}

/// One write set of the targets of a job, the write of its record, and that of the database with these bytes.
pub(crate) fn all_writes(
    alloc: Global,
    targets: Puts,
    pushed: Puts,
    bytes: Bytes,
) -> Result<Puts, OutOfMemory>
    requires free { All (λ (p : declared.Put). IsFree p.path) targets }
    requires pushed { IsRecordWrite pushed }
    ensures { IfOk result (λ all. IsUnion all targets (pushed ++ database_write bytes ∷ [])) }
{
    let mut items = pushed.into_vec();
    let Some(own) = items.pop() else {
        unreachable!()
    };
    let database = database_put(alloc, bytes)?;
    let some = with_put(targets, database)?;
    let all = with_put(some, own)?;
    Ok(all)
}
