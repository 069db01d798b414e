//! A root at rest, brought to format 2, and its database loaded.
ghost use Rattle.std.specs.Prelude.{◌≤◌, IfErr, IsTrue};
ghost use Rattle.system_core.specs.Migrating.{IsMigratingStop, Loads, Migrates};
ghost use Rattle.system_core.specs.Opening.{IsSettledRoot};

use crate::root_writing::write_all;
use local_db::{Db, load};
use rollback_stack::cny_base::Stop;
use rollback_stack::journal_log::put_ranges;
use rollback_stack::migrated;
use rollback_stack::tree_disk::TreeDisk;
use std::alloc::Global;

// Writes the database and the records of a root of format 1 once more, in format 2, at once. A root of format 2 is only read.
fn migrate<T: TreeDisk>(alloc: Global, root: &mut T) -> Result<(), Stop>
    requires { IsTrue T.disk.tells → IsSettledRoot T.disk root.old }
    ensures migrates { IsTrue T.disk.tells → Migrates T.disk root.old root.new result }
    ensures stops { IfErr result (IsMigratingStop T.disk root.old root.new) }
    ensures later { T.disk.faults root.old ≤ T.disk.faults root.new }
{
    let found = migrated(alloc, root)?;
    let Some(puts) = found else {
        return Ok(());
    };
    put_ranges(puts.get());
    write_all(alloc, root, &puts)
}

/// Brings a root at rest to format 2, and loads its database.
pub(crate) fn load_migrated<T: TreeDisk>(alloc: Global, root: &mut T) -> Result<Db, Stop>
    requires { IsTrue T.disk.tells → IsSettledRoot T.disk root.old }
    ensures { Loads T.disk root.old root.new result }
{
    migrate(alloc, root)?;
    load(alloc, root)
}
