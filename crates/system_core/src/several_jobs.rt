//! All jobs from the newest down to one of a number, taken back at once.
ghost use Rattle.std.specs.Prelude.{◌≡◌, ◌≤◌, IfErr, IfOk, IsTrue, OnErr, OnOk};
ghost use Rattle.rollback_stack.specs.cny-base.Count.{Rose};
ghost use Rattle.local_db.specs.declared.format.Format.TheVariants.{Two};
ghost use Rattle.local_db.specs.SystemState.{SystemState};
ghost use Rattle.local_db.specs.Stores.{IsDatabase, StoresIn};
ghost use Rattle.system_core.specs.FixedDirs.{fixed_dirs};
ghost use Rattle.system_core.specs.Rollback.{HasRollbackCause, MayRollBack};
ghost use Rattle.system_core.specs.RestoringAll.{AreUnedited, RestoresTo};
ghost use Rattle.system_core.specs.Several.{HasJob, HasTakenBackTo, IsRefusalKindTo, RollsBackTo, StopsTo};

use crate::preparing::prepare_to;
use crate::root_writing::write_all;
use local_db::{Db, distinct_databases};
use rollback_stack::cny_base::Stop;
use rollback_stack::one_record;
use rollback_stack::tree_disk::TreeDisk;
use std::alloc::Global;

/// Takes all jobs of the root from the newest down to the one of this number back, as if one after the other, and answers how many
/// they are. The database is that of the root before and, after Ok, afterwards.
///
/// `StackEmpty` only where the database has no job; `NoJob` only where it has jobs and none of this number. Where the disk tells its
/// tree: `Edited` and `Parent` only for the first job, the newest first, that can't be taken back once the newer ones are: `Edited` for
/// the first path of it, in their order, that was changed since, or at which the job made a directory into which something else was put;
/// `Parent` where there is no such path, for the first path of the result whose parent isn't a directory. `Damaged` only for the first
/// record of the jobs that is, once the newer jobs can be taken back, or, once all can, for the first content that is to stand again, in
/// the order of their paths. After a refusal and a damaged file the disk is as it was: all tests come before the one write set, and
/// where one of them fails nothing is written, whatever is answered.
///
/// There too, at every moment a crash leaves a tree that recovers to the system before or to the one with all these jobs taken back,
/// and after Ok to that after alone. On every disk `Failed` comes only where the root's count of faults rose, and no refusal but
/// these four.
pub fn rollback_to<T: TreeDisk>(
    alloc: Global,
    root: &mut T,
    db: &mut Db,
    number: u32,
) -> Result<u32, Stop>
    requires db { IsDatabase Two db.old.installed db.old.oldest db.old.newest }
    requires ready { IsTrue T.disk.tells → MayRollBack T.disk db.old root.old }
    // By each system that the root stores.
    ensures rolls { IsTrue T.disk.tells → (s : SystemState) → StoresIn Two (T.disk.reads root.old) s → RollsBackTo T.disk s number db.new root.old root.new result }
    // Where nothing at the paths of the jobs was edited since.
    ensures restores { IsTrue T.disk.tells → (s : SystemState) → StoresIn Two (T.disk.reads root.old) s
        → HasJob s.stack number → AreUnedited s number → RestoresTo s number db.new (T.disk.reads root.new) result }
    // What was done, also on a root that stores no system.
    ensures done { IsTrue T.disk.tells → IfOk result (HasTakenBackTo T.disk db.old db.new number root.old root.new) }
    // Where a stop changes nothing, also on a root that stores no system.
    ensures stops { IsTrue T.disk.tells → IfErr result (StopsTo T.disk db.old number root.old root.new) }
    // After Ok a further rollback may begin with this database, and a job where the fixed directories stood, also on a root that stores no system.
    ensures again { IsTrue T.disk.tells → OnOk result (MayRollBack T.disk db.new root.new) }
    ensures fixed { IsTrue T.disk.tells → OnOk result (fixed_dirs (T.disk.reads root.new) ≡ fixed_dirs (T.disk.reads root.old)) }
    // On every disk.
    ensures rules { IsDatabase Two db.new.installed db.new.oldest db.new.newest }
    ensures causes { IfErr result (HasRollbackCause (IsRefusalKindTo db.old number) (Rose (T.disk.faults root.old) (T.disk.faults root.new))) }
    ensures kept { OnErr result (db.new ≡ db.old) }
    ensures later { T.disk.faults root.old ≤ T.disk.faults root.new }
{
    // A tree holds one database, and of each number one record.
    distinct_databases();
    one_record();
    let step = prepare_to(alloc, root, db, number)?;
    write_all(alloc, root, &step.puts)?;
    let count = db.newest - number + 1;
    *db = step.db;
    Ok(count)
}
