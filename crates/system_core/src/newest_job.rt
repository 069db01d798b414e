//! The newest job taken back.
ghost use Rattle.std.specs.Prelude.{◌≡◌, ◌≤◌, ◌∷◌, List, IfErr, IfOk, IsTrue, OnErr, OnOk};
ghost use Rattle.rollback_stack.specs.cny-base.Count.{Rose};
ghost use Rattle.local_db.specs.declared.format.Format.TheVariants.{Two};
ghost use Rattle.local_db.specs.SystemState.{StackItem, SystemState, newest};
ghost use Rattle.local_db.specs.Stores.{IsDatabase, StoresIn};
ghost use Rattle.system_core.specs.FixedDirs.{fixed_dirs};
ghost use Rattle.system_core.specs.Rollback.{HasRollbackCause, MayRollBack};
ghost use Rattle.system_core.specs.Restoring.{IsUnedited, Restores};
ghost use Rattle.system_core.specs.Several.{HasTakenBackTo, IsRefusalKind, RollsBackTo, StopsTo, counted};

use crate::several_jobs::rollback_to;
use local_db::{Db, distinct_databases};
use rollback_stack::cny_base::Stop;
use rollback_stack::tree_disk::TreeDisk;
use std::alloc::Global;

/// Takes the newest job of the root back, and answers its number: `rollback_to` of that number, in what it answers, reads and writes,
/// and in which order. So the saved contents are read once the job can be taken back, and those alone that are to stand again.
///
/// On every disk `Failed` comes only where the root's count of faults rose, `StackEmpty` only where there is no job, and no refusal
/// but that, `Edited` and `Parent`.
pub fn rollback<T: TreeDisk>(alloc: Global, root: &mut T, db: &mut Db) -> Result<u32, Stop>
    requires db { IsDatabase Two db.old.installed db.old.oldest db.old.newest }
    requires ready { IsTrue T.disk.tells → MayRollBack T.disk db.old root.old }
    ensures number { IfOk result (λ number. number ≡ db.old.newest) }
    // By each system that the root stores: one job is taken back.
    ensures rolls { IsTrue T.disk.tells → (s : SystemState) → StoresIn Two (T.disk.reads root.old) s
        → RollsBackTo T.disk s (newest s.stack) db.new root.old root.new (counted result) }
    // After a job at whose paths nothing was edited since.
    ensures restores { IsTrue T.disk.tells → (s : SystemState) (o : StackItem) (olds : List StackItem) → StoresIn Two (T.disk.reads root.old) s
        → s.stack ≡ o ∷ olds → IsUnedited o s.tree → Restores o s.tree db.new (T.disk.reads root.new) result }
    // What was done, also on a root that stores no system.
    ensures done { IsTrue T.disk.tells → OnOk result (HasTakenBackTo T.disk db.old db.new db.old.newest root.old root.new 1) }
    // Where a stop changes nothing, also on a root that stores no system.
    ensures stops { IsTrue T.disk.tells → IfErr result (StopsTo T.disk db.old db.old.newest root.old root.new) }
    // After Ok a further rollback may begin with this database, and a job where the fixed directories stood, also on a root that stores no system.
    ensures again { IsTrue T.disk.tells → OnOk result (MayRollBack T.disk db.new root.new) }
    ensures fixed { IsTrue T.disk.tells → OnOk result (fixed_dirs (T.disk.reads root.new) ≡ fixed_dirs (T.disk.reads root.old)) }
    // On every disk.
    ensures rules { IsDatabase Two db.new.installed db.new.oldest db.new.newest }
    ensures causes { IfErr result (HasRollbackCause (IsRefusalKind db.old) (Rose (T.disk.faults root.old) (T.disk.faults root.new))) }
    ensures kept { OnErr result (db.new ≡ db.old) }
    ensures later { T.disk.faults root.old ≤ T.disk.faults root.new }
{
    // A tree holds one database.
    distinct_databases();
    let number = db.newest;
    rollback_to(alloc, root, db, number)?;
    Ok(number)
}
