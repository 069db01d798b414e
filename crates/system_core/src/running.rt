//! A job with a given list after it.
ghost use Rattle.std.specs.Prelude.{◌≡◌, ◌≤◌, IfErr, IsTrue, OnErr, OnOk};
ghost use Rattle.rollback_stack.specs.cny-base.Count.{Rose};
ghost use Rattle.rollback_stack.specs.content-store.Contents.{KeepsContents};
ghost use Rattle.local_db.specs.declared.format.Format.TheVariants.{Two};
ghost use Rattle.local_db.specs.SystemState.{SystemState};
ghost use Rattle.local_db.specs.Stores.{IsDatabase, StoresIn};
ghost use Rattle.system_core.specs.Answers.{AnswersCall, StepMoves};
ghost use Rattle.system_core.specs.FixedDirs.{fixed_dirs};
ghost use Rattle.system_core.specs.Job.{sources_of};
ghost use Rattle.system_core.specs.Lists.{AllPathsAllowed, to_list};
ghost use Rattle.system_core.specs.RootReady.{MayBeginJob};
ghost use Rattle.system_core.specs.Steps.{StepEnds, HasStepCause};

use crate::done::Done;
use crate::job_writing::write_targets;
use crate::testing::tested;
use job_targets::{Carries, Targets};
use local_db::{Db, distinct_databases};
use rollback_stack::cny_base::{Options, Stop};
use rollback_stack::content_store::Contents;
use rollback_stack::tree_disk::TreeDisk;
use rollback_stack::trove_stream::Installed;
use std::alloc::Global;
use update_job::changed;

/// The job with this list after it: its tests only read, and one write set takes the root to the system after it.
pub(crate) fn job<T: TreeDisk, C: Contents, I: Carries>(
    alloc: Global,
    root: &mut T,
    db: &mut Db,
    list: Installed,
    carried: &I,
    far: &mut C,
    options: &Options,
) -> Result<Done, Stop>
    requires db { IsDatabase Two db.old.installed db.old.oldest db.old.newest }
    requires allowed { AllPathsAllowed list }
    requires sound { I.sound carried.now }
    requires stand { IsTrue T.disk.tells → I.stand carried.now (T.disk.reads root.old) }
    requires ready { IsTrue T.disk.tells → MayBeginJob T.disk db.old root.old }
    ensures ends { IsTrue T.disk.tells → (s : SystemState) → StoresIn Two (T.disk.reads root.old) s
        → StepEnds T.disk (sources_of (I.listed carried.now (T.disk.reads root.old)) (C.contents.answers far.old) options.now) (to_list list) s root.old root.new db.new result }
    // After Ok a further job may begin, with this database, also where the root stores no system.
    ensures again { IsTrue T.disk.tells → OnOk result (MayBeginJob T.disk db.new root.new) }
    ensures fixed { IsTrue T.disk.tells → OnOk result (fixed_dirs (T.disk.reads root.new) ≡ fixed_dirs (T.disk.reads root.old)) }
    // However it ends, a crash leaves the tree and the database before the job, or those after it.
    ensures moments { IsTrue T.disk.tells → StepMoves T.disk (sources_of (I.listed carried.now (T.disk.reads root.old)) (C.contents.answers far.old) options.now) (to_list list) db.old root.old root.new }
    // On every disk, also where it tells nothing.
    ensures answers { AnswersCall T.disk (sources_of (I.listed carried.now (T.disk.reads root.old)) (C.contents.answers far.old) options.now) (to_list list) db.old root.old root.new db.new result }
    ensures rules { IsDatabase Two db.new.installed db.new.oldest db.new.newest }
    ensures kept { OnErr result (db.new ≡ db.old) }
    ensures causes { IfErr result (HasStepCause C.contents far.old far.new (Rose (T.disk.faults root.old) (T.disk.faults root.new))) }
    ensures searches { KeepsContents C.contents far.old far.new }
    ensures later { T.disk.faults root.old ≤ T.disk.faults root.new }
{
    // A tree holds one database.
    distinct_databases();
    let changes = changed(alloc, &db.installed, &list)?;
    let made = tested(
        alloc,
        root,
        &db.installed,
        &list,
        changes.get(),
        carried,
        far,
        options,
    )?;
    let Targets { puts, entries } = made;
    let number = write_targets(alloc, root, db, list, changes.get(), puts, entries)?;
    Ok(Done { changes, number })
}
