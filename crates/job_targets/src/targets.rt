//! The write set of a plan, and what stood at its paths.
ghost use Rattle.std.specs.Prelude.{◌≡◌, IfErr, IfOk, IsTrue, All};
ghost use Rattle.std.specs.List.Sorted.{IsStrictlySortedBy};
ghost use Rattle.sha1.specs.Sha1.{sha1};
ghost use Rattle.change_set.specs.declared.change.Carried as carried_content;
ghost use Rattle.change_set.specs.ChangeSet.{content_cmp};
ghost use Rattle.conflict_plan.specs.Orphans.{IsSeenPlan};
ghost use Rattle.conflict_plan.specs.Plan.{planned_cmp};
ghost use Rattle.job_targets.specs.Gathering.{Gathers};
ghost use Rattle.job_targets.specs.Outcome.{AreChanges, AreGiven, AreHeld, AreOver, AreSavable, AreTargets, FitPlan, IsFirstRefusal, IsTargetStop};
ghost use Rattle.job_targets.specs.Carrying.{AreStagedTargets, FitWants, whole_of, whole_targets};
ghost use Rattle.job_targets.specs.Targets.{IsChange};

use crate::agreeing::stashable;
use crate::carried::{Carries, InMemory};
use crate::entries::entries_of;
use crate::entry::Entries;
use crate::puts::puts_of;
use crate::sizes::check_sizes;
use change_set::Carried;
use conflict_plan::Planned;
use content_store::Contents;
use local_db::cny_base::{Copies, OutOfMemory, Stop};
use local_db::journal_log::{Puts, put_ranges};
use local_db::tree_disk::TreeDisk;
use std::alloc::Global;

/// What a job is to make of its paths, and what stood there.
#[derive(Drop)]
pub struct Targets {
    /// The write of each planned path.
    pub puts: Puts,
    /// What stands at each of these paths, and the fingerprint of what is to stand.
    pub entries: Entries,
}

impl Copies for Targets {
    fn copy(&self) -> Result<Self, OutOfMemory> {
        Ok(Targets {
            puts: self.puts.copy()?,
            entries: self.entries.copy()?,
        })
    }
}

// The three tests in their order. The clauses speak of the writes that have the bytes of the staged files that they name.
fn make_targets<T: TreeDisk, C: Contents, I: Carries>(
    alloc: Global,
    root: &mut T,
    planned: &[Planned],
    carried: &I,
    far: &mut C,
) -> Result<Targets, Stop>
    requires sound { I.sound carried.now }
    requires stand { IsTrue T.disk.tells → I.stand carried.now (T.disk.reads root.old) }
    requires seen { IsTrue T.disk.tells → All (IsSeenPlan (T.disk.reads root.old)) planned.now }
    requires in_order { IsStrictlySortedBy planned_cmp planned.now }
    ensures gathers { Gathers T.disk C.contents (λ tree. AreStagedTargets (I.listed carried.now tree) (C.contents.answers far.old) planned.now tree)
        (λ tree. IsFirstRefusal (I.listed carried.now tree) (C.contents.answers far.old) planned.now tree)
        root.old root.new far.old far.new result }
    ensures fits { IfOk result (FitWants (I.gives carried.now) planned.now) }
    ensures held { IfOk result (λ made. AreHeld made.puts) }
    ensures stops { IfErr result IsTargetStop }
{
    let puts = puts_of(alloc, root, far, carried, planned)?;
    put_ranges(puts.get());
    check_sizes(planned)?;
    let entries = entries_of(alloc, root, planned)?;
    stashable(alloc, entries.get())?;
    Ok(Targets { puts, entries })
}

/// The write set of a plan, and what stands at its paths. It only reads, however it ends; of the root only files that are to be
/// replaced are read, and those of which the mode alone changes, where their content is found nowhere else.
///
/// The tests, in this order: `MissingContent` for the first path at which a file is to stand whose content is found neither among
/// the carried ones, nor in the contents, nor as the bytes of the file that stands there, each with the recorded size and SHA-1; the
/// first of the three that has one gives the bytes, and the next isn't asked. `TooLarge` with the size of the first file of more
/// than 16,777,216 bytes that is to be replaced or removed. `Collision` for the first path whose old bytes have the SHA-1 of other old bytes of
/// an earlier path, with the first place at which they differ.
///
/// The plan is one over the root, its paths rise, and the carried contents have their SHA-1 as their names, which rise. `Failed`
/// comes only where the root's count of faults rose, `FarFailed` only where that of the contents did, and `FarDamaged` names a path
/// that fails a cross-check of the contents. Where the root tells nothing, another file may be read than the plan saw: no content
/// then counts as found whose SHA-1 is another one, and a file that grew above the limit is too large, with the least size that it
/// can have.
pub fn targets_of<T: TreeDisk, C: Contents>(
    alloc: Global,
    root: &mut T,
    planned: &[Planned],
    carried: &[Carried],
    far: &mut C,
) -> Result<Targets, Stop>
    requires hash { All (λ (content : carried_content.Carried). content.name ≡ sha1 content.bytes) carried.now }
    requires rising { IsStrictlySortedBy content_cmp carried.now }
    requires seen { IsTrue T.disk.tells → All (IsSeenPlan (T.disk.reads root.old)) planned.now }
    requires in_order { IsStrictlySortedBy planned_cmp planned.now }
    ensures gathers { Gathers T.disk C.contents (AreTargets carried.now (C.contents.answers far.old) planned.now)
        (IsFirstRefusal carried.now (C.contents.answers far.old) planned.now)
        root.old root.new far.old far.new result }
    ensures over { IsTrue T.disk.tells → IfOk result (AreOver (T.disk.reads root.old)) }
    ensures changes { IsTrue T.disk.tells → All IsChange planned.now
        → IfOk result (λ made. AreChanges (T.disk.reads root.old) made.puts) }
    // On every disk, also where it tells nothing.
    ensures fits { IfOk result (FitPlan planned.now) }
    ensures puts { IfOk result (λ made. AreGiven made.puts) }
    ensures entries { IfOk result (λ made. AreSavable made.entries) }
    ensures stops { IfErr result IsTargetStop }
{
    let contents = InMemory { contents: carried };
    make_targets(alloc, root, planned, &contents, far)
}

/// The same with contents that are carried in memory or in files of the journal's directory: a write may name such a file. The clauses
/// speak of the writes that have its bytes.
pub fn targets_by<T: TreeDisk, C: Contents, I: Carries>(
    alloc: Global,
    root: &mut T,
    planned: &[Planned],
    carried: &I,
    far: &mut C,
) -> Result<Targets, Stop>
    requires sound { I.sound carried.now }
    requires stand { IsTrue T.disk.tells → I.stand carried.now (T.disk.reads root.old) }
    requires seen { IsTrue T.disk.tells → All (IsSeenPlan (T.disk.reads root.old)) planned.now }
    requires in_order { IsStrictlySortedBy planned_cmp planned.now }
    ensures gathers { Gathers T.disk C.contents (λ tree. AreStagedTargets (I.listed carried.now tree) (C.contents.answers far.old) planned.now tree)
        (λ tree. IsFirstRefusal (I.listed carried.now tree) (C.contents.answers far.old) planned.now tree)
        root.old root.new far.old far.new result }
    ensures over { IsTrue T.disk.tells → IfOk result (λ made. AreOver (T.disk.reads root.old) (whole_targets (T.disk.reads root.old) made)) }
    ensures changes { IsTrue T.disk.tells → All IsChange planned.now
        → IfOk result (λ made. AreChanges (T.disk.reads root.old) (whole_of (T.disk.reads root.old) made.puts)) }
    ensures whole { IsTrue T.disk.tells → IfOk result (λ made. FitPlan planned.now (whole_targets (T.disk.reads root.old) made)) }
    ensures puts { IsTrue T.disk.tells → IfOk result (λ made. AreGiven (whole_of (T.disk.reads root.old) made.puts)) }
    // On every disk, also where it tells nothing.
    ensures fits { IfOk result (FitWants (I.gives carried.now) planned.now) }
    ensures entries { IfOk result (λ made. AreSavable made.entries) }
    ensures stops { IfErr result IsTargetStop }
{
    make_targets(alloc, root, planned, carried, far)
}
