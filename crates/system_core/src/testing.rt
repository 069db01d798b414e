//! The tests of a job, which only read.
ghost use Rattle.std.specs.Prelude.{◌≡◌, All, IfErr, IfOk, IsTrue, OnOk};
ghost use Rattle.dep_closure.specs.Closed.{IsClosed};
ghost use Rattle.rollback_stack.specs.trove-stream.Installed.{IsRising};
ghost use Rattle.job_targets.specs.Carrying.{whole_of};
ghost use Rattle.job_targets.specs.Gathering.{Gathers};
ghost use Rattle.system_core.specs.JobWriting.{AreRecordedTargets, AreTargetsOf};
ghost use Rattle.rollback_stack.specs.trove-stream.Trove.{IsTrove};
ghost use Rattle.local_db.specs.Installed.{IsInstalled};
ghost use Rattle.local_db.specs.SystemState.{IsFree};
ghost use Rattle.rollback_stack.specs.journal-log.declared.put.Put as declared;
ghost use Rattle.update_job.specs.Changes.{AreChanges};
ghost use Rattle.system_core.specs.Answers.{IsJobTestStop, PassesListTests};
ghost use Rattle.system_core.specs.Job.{IsTestedWhole, IsTestRefusal, sources_of};
ghost use Rattle.system_core.specs.StagedWrites.{Means};
ghost use Rattle.system_core.specs.Lists.{AllPathsAllowed};

use crate::closure::test_closure;
use crate::listed::troves_keep_rules;
use crate::something::check_something;
use conflict_plan::plan;
use job_targets::{Carries, Targets, planned_is_seen, targets_by};
use rollback_stack::cny_base::{Options, Stop};
use rollback_stack::content_store::Contents;
use rollback_stack::tree_disk::TreeDisk;
use rollback_stack::trove_stream::{Installed, Trove};
use std::alloc::Global;
use update_job::Change;

// The same, of lists as slices, once the new one, in the order of its names, is closed.
fn tests_of<T: TreeDisk, C: Contents, I: Carries>(
    alloc: Global,
    root: &mut T,
    before: &[Trove],
    list: &[Trove],
    carried: &I,
    far: &mut C,
    options: &Options,
) -> Result<Targets, Stop>
    requires before { IsInstalled before.now }
    requires in_order { IsRising list.now }
    requires closed { IsClosed list.now }
    requires allowed { AllPathsAllowed list.now }
    requires sound { I.sound carried.now }
    requires stand { IsTrue T.disk.tells → I.stand carried.now (T.disk.reads root.old) }
    ensures gathers { Gathers T.disk C.contents
        (IsTestedWhole (sources_of (I.listed carried.now (T.disk.reads root.old)) (C.contents.answers far.old) options.now) before.now list.now)
        (IsTestRefusal (sources_of (I.listed carried.now (T.disk.reads root.old)) (C.contents.answers far.old) options.now) before.now list.now)
        root.old root.new far.old far.new result }
    ensures over { IsTrue T.disk.tells → IfOk result (λ made. AreTargetsOf (T.disk.reads root.old) (whole_of (T.disk.reads root.new) made.puts) made.entries) }
    ensures means { IsTrue T.disk.tells → IfOk result (λ made. Means (T.disk.reads root.new) made.puts (whole_of (T.disk.reads root.new) made.puts)) }
    ensures targets { IfOk result (λ made. AreRecordedTargets (whole_of (T.disk.reads root.new) made.puts) made.entries) }
    ensures free { IfOk result (λ made. All (λ (p : declared.Put). IsFree p.path) made.puts) }
    ensures list { OnOk result (IsInstalled list.now) }
    ensures passes { OnOk result (PassesListTests list.now) }
    ensures stops { IfErr result (IsJobTestStop list.now) }
    ensures troves { All IsTrove list.now }
{
    planned_is_seen();
    troves_keep_rules(list);
    let planned = plan(alloc, root, before, list, options)?;
    let made = targets_by(alloc, root, planned.get(), carried, far)?;
    check_something(alloc, made.entries.get())?;
    Ok(made)
}

/// The writes of a job that leads from the one list to the other by these changes, and what stood at its paths, once the tests of
/// the list and of the tree have passed, in their order: `Unmet` for the first requirement that the new list doesn't meet; `Owned`,
/// `Unowned`, `Edited` and `Parent` by its plan; `MissingContent`, `TooLarge` and `Collision` by what is to be written and replaced.
pub(crate) fn tested<T: TreeDisk, C: Contents, I: Carries>(
    alloc: Global,
    root: &mut T,
    before: &Installed,
    list: &Installed,
    changes: &[Change],
    carried: &I,
    far: &mut C,
    options: &Options,
) -> Result<Targets, Stop>
    requires before { IsInstalled before.now }
    requires changes { AreChanges before.now list.now changes.now }
    requires allowed { AllPathsAllowed list.now }
    requires sound { I.sound carried.now }
    requires stand { IsTrue T.disk.tells → I.stand carried.now (T.disk.reads root.old) }
    ensures gathers { Gathers T.disk C.contents
        (IsTestedWhole (sources_of (I.listed carried.now (T.disk.reads root.old)) (C.contents.answers far.old) options.now) before.now list.now)
        (IsTestRefusal (sources_of (I.listed carried.now (T.disk.reads root.old)) (C.contents.answers far.old) options.now) before.now list.now)
        root.old root.new far.old far.new result }
    ensures over { IsTrue T.disk.tells → IfOk result (λ made. AreTargetsOf (T.disk.reads root.old) (whole_of (T.disk.reads root.new) made.puts) made.entries) }
    ensures means { IsTrue T.disk.tells → IfOk result (λ made. Means (T.disk.reads root.new) made.puts (whole_of (T.disk.reads root.new) made.puts)) }
    // On every disk, also where it tells nothing.
    ensures targets { IfOk result (λ made. AreRecordedTargets (whole_of (T.disk.reads root.new) made.puts) made.entries) }
    ensures free { IfOk result (λ made. All (λ (p : declared.Put). IsFree p.path) made.puts) }
    ensures list { OnOk result (IsInstalled list.now) }
    ensures passes { OnOk result (PassesListTests list.now) }
    ensures stops { IfErr result (IsJobTestStop list.now) }
    ensures troves { All IsTrove list.now }
{
    test_closure(alloc, before, list, changes)?;
    tests_of(
        alloc,
        root,
        before.troves(),
        list.troves(),
        carried,
        far,
        options,
    )
}
