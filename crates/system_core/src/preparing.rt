//! The tests of a rollback, which only read, and what it is about to write.
ghost use Rattle.std.specs.Prelude.{◌≤◌, IfErr, IfOk, OnOk};
ghost use Rattle.rollback_stack.specs.cny-base.Count.{Rose};
ghost use Rattle.local_db.specs.declared.format.Format.TheVariants.{Two};
ghost use Rattle.local_db.specs.Stores.{IsDatabase};
ghost use Rattle.rollback_stack.specs.tree-disk.Disk.{Reads};
ghost use Rattle.rollback_stack.specs.Inverse.{IsBackStop, IsOnStack};
ghost use Rattle.system_core.specs.Several.{IsStepTo};

use crate::inserting::{database_put, with_put};
use local_db::Db;
use rollback_stack::cny_base::Stop;
use rollback_stack::tree_disk::TreeDisk;
use rollback_stack::{Back, inverse_to};
use std::alloc::Global;

/// All writes that take the jobs of the database from the newest down to this number back, that of the database among them, and the
/// database afterwards: `StackEmpty` exactly where there is no job, `NoJob` where there is none of this number; then the stops of the
/// jobs, the newest first.
pub(crate) fn prepare_to<D: TreeDisk>(
    alloc: Global,
    disk: &mut D,
    db: &Db,
    number: u32,
) -> Result<Back, Stop>
    requires { IsDatabase Two db.now.installed db.now.oldest db.now.newest }
    ensures value { Reads D.disk disk.old disk.new (IfOk result (IsStepTo (D.disk.reads disk.old) db.now number)) }
    // On every disk, also where it tells nothing.
    ensures job { OnOk result (IsOnStack db.now number) }
    ensures database { IfOk result (λ step. IsDatabase Two step.db.installed step.db.oldest step.db.newest) }
    ensures stops { IfErr result (IsBackStop D.disk.tells (D.disk.reads disk.old) db.now number (Rose (D.disk.faults disk.old) (D.disk.faults disk.new))) }
    ensures later { D.disk.faults disk.old ≤ D.disk.faults disk.new }
{
    let back = inverse_to(alloc, disk, db, number)?;
    let Back { puts, db: left } = back;
    let write = database_put(alloc, &left)?;
    let puts = with_put(puts, write)?;
    Ok(Back { puts, db: left })
}
