//! The calls that make a job.
ghost use Rattle.std.specs.Prelude.{◌≡◌, ◌≤◌, [], All, IfErr, IsTrue, OnErr, OnOk};
ghost use Rattle.std.specs.List.Sorted.{IsStrictlySortedBy};
ghost use Rattle.sha1.specs.Sha1.{sha1};
ghost use Rattle.rollback_stack.specs.cny-base.Count.{Rose};
ghost use Rattle.rollback_stack.specs.change-set.declared.change.Carried as carried_content;
ghost use Rattle.rollback_stack.specs.change-set.ChangeSet.{content_cmp};
ghost use Rattle.rollback_stack.specs.content-store.Contents.{KeepsContents};
ghost use Rattle.job_targets.specs.change-pull.Incoming.{StandNumbered};
ghost use Rattle.job_targets.specs.CarryingLaws.{listed_in};
ghost use Rattle.rollback_stack.specs.cny-base.Reserved.{private_directory};
ghost use Rattle.rollback_stack.specs.journal-log.Own.{staged};
ghost use Rattle.local_db.specs.declared.format.Format.TheVariants.{Two};
ghost use Rattle.local_db.specs.SystemState.{SystemState};
ghost use Rattle.local_db.specs.Stores.{IsDatabase, StoresIn};
ghost use Rattle.system_core.specs.Answers.{AnswersCall, StepMoves};
ghost use Rattle.system_core.specs.FixedDirs.{fixed_dirs};
ghost use Rattle.system_core.specs.Job.{no_answers, sources_of};
ghost use Rattle.system_core.specs.Lists.{AllPathsAllowed, to_erased, to_list, to_updated};
ghost use Rattle.system_core.specs.RootReady.{MayBeginJob};
ghost use Rattle.system_core.specs.Steps.{StepEnds, HasStepCause, HasOwnCause, IsErasureStop};

use crate::done::Done;
use crate::running::job;
use job_targets::InMemory;
use job_targets::change_pull::StagedList;
use local_db::{Db, distinct_databases};
use rollback_stack::change_set::Carried;
use rollback_stack::cny_base::{Name, Options, Stop};
use rollback_stack::content_store::{Contents, NoContents};
use rollback_stack::tree_disk::TreeDisk;
use rollback_stack::trove_stream::{Installed, Trove};
use std::alloc::Global;
use update_job::{erased, updated};

/// Installs these troves, each in place of what its name reaches by references, and answers what changed of the installed list,
/// with the number of the job. Where neither the tree nor the list changes, there is no job and no number.
///
/// The tests, in this order: `Exists` for the second trove of a name that isn't the first again. `Unmet` for the first requirement
/// that the list after the job doesn't meet. `Owned` for the first path that two of its troves have and that isn't a directory in
/// both; `Unowned` or `Edited` for the first path at which the conflict table refuses; `Parent` for the first path of the result
/// whose parent isn't a directory. `MissingContent` for the first file whose content is neither carried nor found nor what stands
/// there. `TooLarge` for the first file above the limit that is to be replaced; `Collision` where two old contents have one SHA-1.
/// `TooLarge` where the database after the job is too large, or where there is no further number. A refused call changes nothing.
///
/// The database is that of the root before and, after Ok, afterwards. No trove records a path that no trove may record; the carried
/// contents have their SHA-1 as their names, which rise. At every moment a crash leaves a tree that recovers to the system before or
/// to the one after, and after Ok to that after alone. `Failed` comes only where the root's count of faults rose, `FarFailed` only
/// where that of the contents did, and `FarDamaged` only where one of the contents is damaged.
pub fn update<T: TreeDisk, C: Contents>(
    alloc: Global,
    root: &mut T,
    db: &mut Db,
    come: &[Trove],
    carried: &[Carried],
    far: &mut C,
    options: &Options,
) -> Result<Done, Stop>
    requires db { IsDatabase Two db.old.installed db.old.oldest db.old.newest }
    requires allowed { AllPathsAllowed come.now }
    requires hash { All (λ (content : carried_content.Carried). content.name ≡ sha1 content.bytes) carried.now }
    requires rising { IsStrictlySortedBy content_cmp carried.now }
    requires ready { IsTrue T.disk.tells → MayBeginJob T.disk db.old root.old }
    // By each system that the root stores.
    ensures ends { IsTrue T.disk.tells → (s : SystemState) → StoresIn Two (T.disk.reads root.old) s
        → StepEnds T.disk (sources_of carried.now (C.contents.answers far.old) options.now) (to_updated s.installed come.now) s root.old root.new db.new result }
    // After Ok a further job may begin, with this database, also where the root stores no system.
    ensures again { IsTrue T.disk.tells → OnOk result (MayBeginJob T.disk db.new root.new) }
    ensures fixed { IsTrue T.disk.tells → OnOk result (fixed_dirs (T.disk.reads root.new) ≡ fixed_dirs (T.disk.reads root.old)) }
    // However it ends, a crash leaves the tree and the database before the job, or those after it.
    ensures moments { IsTrue T.disk.tells → StepMoves T.disk (sources_of carried.now (C.contents.answers far.old) options.now) (to_updated db.old.installed come.now) db.old root.old root.new }
    // On every disk, also where it tells nothing.
    ensures answers { AnswersCall T.disk (sources_of carried.now (C.contents.answers far.old) options.now) (to_updated db.old.installed come.now) db.old root.old root.new db.new result }
    ensures rules { IsDatabase Two db.new.installed db.new.oldest db.new.newest }
    ensures kept { OnErr result (db.new ≡ db.old) }
    ensures causes { IfErr result (HasStepCause C.contents far.old far.new (Rose (T.disk.faults root.old) (T.disk.faults root.new))) }
    ensures searches { KeepsContents C.contents far.old far.new }
    ensures later { T.disk.faults root.old ≤ T.disk.faults root.new }
{
    // A tree holds one database.
    distinct_databases();
    let list = updated(alloc, &db.installed, come)?;
    let contents = InMemory { contents: carried };
    let done = job(alloc, root, db, list, &contents, far, options)?;
    Ok(done)
}

/// Installs these troves as `update` does, with contents that were staged in the journal's directory in place of carried ones. None of
/// them is read: what is written names them.
///
/// The conditions are those of `update`, of the contents that the staged files have; and where the root tells its tree, the file of the
/// K-th one, from 0, stands there under the number K, with the size that is told. What is left of them there counts for nothing.
/// `stage` and a pull on its path count among the calls that wrote since.
pub fn update_staged<T: TreeDisk, C: Contents>(
    alloc: Global,
    root: &mut T,
    db: &mut Db,
    come: &[Trove],
    contents: &StagedList,
    far: &mut C,
    options: &Options,
) -> Result<Done, Stop>
    requires db { IsDatabase Two db.old.installed db.old.oldest db.old.newest }
    requires allowed { AllPathsAllowed come.now }
    requires staged { IsTrue T.disk.tells → StandNumbered (staged private_directory) contents.now (T.disk.reads root.old) }
    requires ready { IsTrue T.disk.tells → MayBeginJob T.disk db.old root.old }
    // By each system that the root stores.
    ensures ends { IsTrue T.disk.tells → (s : SystemState) → StoresIn Two (T.disk.reads root.old) s
        → StepEnds T.disk (sources_of (listed_in (T.disk.reads root.old) contents.now) (C.contents.answers far.old) options.now) (to_updated s.installed come.now) s root.old root.new db.new result }
    ensures again { IsTrue T.disk.tells → OnOk result (MayBeginJob T.disk db.new root.new) }
    ensures fixed { IsTrue T.disk.tells → OnOk result (fixed_dirs (T.disk.reads root.new) ≡ fixed_dirs (T.disk.reads root.old)) }
    ensures moments { IsTrue T.disk.tells → StepMoves T.disk (sources_of (listed_in (T.disk.reads root.old) contents.now) (C.contents.answers far.old) options.now) (to_updated db.old.installed come.now) db.old root.old root.new }
    // On every disk, also where it tells nothing.
    ensures answers { AnswersCall T.disk (sources_of (listed_in (T.disk.reads root.old) contents.now) (C.contents.answers far.old) options.now) (to_updated db.old.installed come.now) db.old root.old root.new db.new result }
    ensures rules { IsDatabase Two db.new.installed db.new.oldest db.new.newest }
    ensures kept { OnErr result (db.new ≡ db.old) }
    ensures causes { IfErr result (HasStepCause C.contents far.old far.new (Rose (T.disk.faults root.old) (T.disk.faults root.new))) }
    ensures searches { KeepsContents C.contents far.old far.new }
    ensures later { T.disk.faults root.old ≤ T.disk.faults root.new }
{
    // A tree holds one database.
    distinct_databases();
    let list = updated(alloc, &db.installed, come)?;
    let done = job(alloc, root, db, list, contents, far, options)?;
    Ok(done)
}

/// Takes the troves of these names away, with what they reach by references and no other installed trove keeps.
///
/// `NotInstalled` for the first of the names that isn't installed. Then the tests of an update in their order, after `Exists`, but
/// for `Owned`, `Unowned` and `MissingContent`: an erasure writes no file. All else is as for an update.
pub fn erase<T: TreeDisk>(
    alloc: Global,
    root: &mut T,
    db: &mut Db,
    names: &[Name],
    options: &Options,
) -> Result<Done, Stop>
    requires db { IsDatabase Two db.old.installed db.old.oldest db.old.newest }
    requires ready { IsTrue T.disk.tells → MayBeginJob T.disk db.old root.old }
    ensures ends { IsTrue T.disk.tells → (s : SystemState) → StoresIn Two (T.disk.reads root.old) s
        → StepEnds T.disk (sources_of [] no_answers options.now) (to_erased s.installed names.now) s root.old root.new db.new result }
    // What an erasure may be refused by.
    ensures refusals { IsTrue T.disk.tells → (s : SystemState) → StoresIn Two (T.disk.reads root.old) s → IfErr result IsErasureStop }
    // After Ok a further job may begin, with this database, also where the root stores no system.
    ensures again { IsTrue T.disk.tells → OnOk result (MayBeginJob T.disk db.new root.new) }
    ensures fixed { IsTrue T.disk.tells → OnOk result (fixed_dirs (T.disk.reads root.new) ≡ fixed_dirs (T.disk.reads root.old)) }
    // However it ends, a crash leaves the tree and the database before the job, or those after it.
    ensures moments { IsTrue T.disk.tells → StepMoves T.disk (sources_of [] no_answers options.now) (to_erased db.old.installed names.now) db.old root.old root.new }
    // On every disk, also where it tells nothing.
    ensures answers { AnswersCall T.disk (sources_of [] no_answers options.now) (to_erased db.old.installed names.now) db.old root.old root.new db.new result }
    ensures rules { IsDatabase Two db.new.installed db.new.oldest db.new.newest }
    ensures kept { OnErr result (db.new ≡ db.old) }
    ensures causes { IfErr result (HasOwnCause (Rose (T.disk.faults root.old) (T.disk.faults root.new))) }
    ensures later { T.disk.faults root.old ≤ T.disk.faults root.new }
{
    // A tree holds one database.
    distinct_databases();
    let list = erased(alloc, &db.installed, names)?;
    let mut far = NoContents;
    let contents = InMemory { contents: &[] };
    let done = job(alloc, root, db, list, &contents, &mut far, options)?;
    Ok(done)
}

/// The job with this list after it, whatever leads to it, without carried contents. No trove of the list records a path that no
/// trove may record.
///
/// The tests of an update in their order, after `Exists`. All else is as for an update.
pub fn adopt<T: TreeDisk, C: Contents>(
    alloc: Global,
    root: &mut T,
    db: &mut Db,
    list: Installed,
    far: &mut C,
    options: &Options,
) -> Result<Done, Stop>
    requires db { IsDatabase Two db.old.installed db.old.oldest db.old.newest }
    requires allowed { AllPathsAllowed list }
    requires ready { IsTrue T.disk.tells → MayBeginJob T.disk db.old root.old }
    ensures ends { IsTrue T.disk.tells → (s : SystemState) → StoresIn Two (T.disk.reads root.old) s
        → StepEnds T.disk (sources_of [] (C.contents.answers far.old) options.now) (to_list list) s root.old root.new db.new result }
    // After Ok a further job may begin, with this database, also where the root stores no system.
    ensures again { IsTrue T.disk.tells → OnOk result (MayBeginJob T.disk db.new root.new) }
    ensures fixed { IsTrue T.disk.tells → OnOk result (fixed_dirs (T.disk.reads root.new) ≡ fixed_dirs (T.disk.reads root.old)) }
    // However it ends, a crash leaves the tree and the database before the job, or those after it.
    ensures moments { IsTrue T.disk.tells → StepMoves T.disk (sources_of [] (C.contents.answers far.old) options.now) (to_list list) db.old root.old root.new }
    // On every disk, also where it tells nothing.
    ensures answers { AnswersCall T.disk (sources_of [] (C.contents.answers far.old) options.now) (to_list list) db.old root.old root.new db.new result }
    ensures rules { IsDatabase Two db.new.installed db.new.oldest db.new.newest }
    ensures kept { OnErr result (db.new ≡ db.old) }
    ensures causes { IfErr result (HasStepCause C.contents far.old far.new (Rose (T.disk.faults root.old) (T.disk.faults root.new))) }
    ensures searches { KeepsContents C.contents far.old far.new }
    ensures later { T.disk.faults root.old ≤ T.disk.faults root.new }
{
    let contents = InMemory { contents: &[] };
    let done = job(alloc, root, db, list, &contents, far, options)?;
    Ok(done)
}
