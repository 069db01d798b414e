//! The write set of a plan.
ghost use Rattle.std.specs.Prelude.{◌≡◌, IfErr, IfOk, IsTrue, Some, All};
ghost use Rattle.std.specs.List.Sorted.{IsStrictlySortedBy};
ghost use Rattle.conflict_plan.specs.Orphans.{IsSeenPlan};
ghost use Rattle.conflict_plan.specs.Plan.{mark_of_want, planned_cmp};
ghost use Rattle.tree_scan.specs.declared.mark.Mark.TheVariants as mark;
ghost use Rattle.tree_scan.specs.Marks.{fingerprint_of_record};
ghost use Rattle.job_targets.specs.Carrying.{AreStagedPuts, AreWholePuts, HasWant, HaveWants, IsElsewhereFile, IsWantOf, IsWholeFile, IsWholePut, IsWholeTarget};
ghost use Rattle.job_targets.specs.Contents.{FindsElsewhere};
ghost use Rattle.job_targets.specs.Gathering.{Gathers};
ghost use Rattle.job_targets.specs.Old.{HasMark};
ghost use Rattle.job_targets.specs.Outcome.{IsFirstUnfound, IsMissing, IsMissingStop, IsUnfound, IsUnfoundElsewhere};

use crate::carried::Carries;
use crate::content::content_elsewhere;
use conflict_plan::Planned;
use content_store::Contents;
use local_db::cny_base::{Copies, Mode, Refusal, Stop};
use local_db::cny_stream::FileRec;
use local_db::journal_log::{Put, Puts, Want};
use local_db::tree_disk::TreeDisk;
use std::alloc::Global;

// A file of this mode, with the content that is found, which isn't carried. `MissingContent` where none is.
fn elsewhere_want<T: TreeDisk, C: Contents>(
    alloc: Global,
    root: &mut T,
    far: &mut C,
    planned: &Planned,
    mode: Mode,
    size: u32,
    name: &[u8; 20],
) -> Result<Want, Stop>
    requires { IsTrue T.disk.tells → IsSeenPlan (T.disk.reads root.old) planned.now }
    ensures gathers { Gathers T.disk C.contents (λ tree want. IsElsewhereFile (C.contents.answers far.old) tree planned.now mode size name.now want)
        (λ tree. IsUnfoundElsewhere (C.contents.answers far.old) tree planned.now size name.now)
        root.old root.new far.old far.new result }
    ensures marked { IfOk result (HasMark (mark.File mode size name.now)) }
    ensures stops { IfErr result IsMissingStop }
{
    let found = content_elsewhere(alloc, root, far, planned, size, name)?;
    match found {
        Some(bytes) => Ok(Want::File { mode, bytes }),
        None => Err(Stop::Refused(Refusal::MissingContent { name: *name })),
    }
}

// A file of this mode, with the content that is carried, and else the one that is found. `MissingContent` where none is.
fn file_want<T: TreeDisk, C: Contents, I: Carries>(
    alloc: Global,
    root: &mut T,
    far: &mut C,
    carried: &I,
    planned: &Planned,
    mode: Mode,
    size: u32,
    name: &[u8; 20],
) -> Result<Want, Stop>
    requires sound { I.sound carried.now }
    requires stand { IsTrue T.disk.tells → I.stand carried.now (T.disk.reads root.old) }
    requires seen { IsTrue T.disk.tells → IsSeenPlan (T.disk.reads root.old) planned.now }
    ensures gathers { Gathers T.disk C.contents (λ tree want. IsWholeFile (I.listed carried.now tree) (C.contents.answers far.old) tree planned.now mode size name.now want)
        (λ tree. IsUnfound (I.listed carried.now tree) (C.contents.answers far.old) tree planned.now size name.now)
        root.old root.new far.old far.new result }
    ensures marked { IfOk result (IsWantOf (I.gives carried.now) (mark.File mode size name.now)) }
    ensures stops { IfErr result IsMissingStop }
{
    if let Some(want) = carried.file(alloc, mode, size, name)? {
        return Ok(want);
    }
    elsewhere_want(alloc, root, far, planned, mode, size, name)
}

// What is to stand at a planned path, by its record.
fn recorded_want<T: TreeDisk, C: Contents, I: Carries>(
    alloc: Global,
    root: &mut T,
    far: &mut C,
    carried: &I,
    planned: &Planned,
    rec: &FileRec,
) -> Result<Want, Stop>
    requires sound { I.sound carried.now }
    requires stand { IsTrue T.disk.tells → I.stand carried.now (T.disk.reads root.old) }
    requires seen { IsTrue T.disk.tells → IsSeenPlan (T.disk.reads root.old) planned.now }
    ensures gathers { Gathers T.disk C.contents (λ tree want. IsWholeTarget (I.listed carried.now tree) (C.contents.answers far.old) tree planned.now (Some rec.now) want)
        (λ tree. IsMissing (I.listed carried.now tree) (C.contents.answers far.old) tree planned.now (Some rec.now))
        root.old root.new far.old far.new result }
    ensures marked { IfOk result (IsWantOf (I.gives carried.now) (fingerprint_of_record rec.now)) }
    ensures stops { IfErr result IsMissingStop }
{
    match rec {
        FileRec::Dir { mode, .. } => Ok(Want::Dir { mode: *mode }),
        FileRec::File {
            mode,
            size,
            name,
            ..
        } => file_want(alloc, root, far, carried, planned, *mode, *size, name),
        FileRec::Link { target } => Ok(Want::Link {
            target: target.copy()?,
        }),
    }
}

// What is to stand at a planned path.
fn planned_want<T: TreeDisk, C: Contents, I: Carries>(
    alloc: Global,
    root: &mut T,
    far: &mut C,
    carried: &I,
    planned: &Planned,
) -> Result<Want, Stop>
    requires sound { I.sound carried.now }
    requires stand { IsTrue T.disk.tells → I.stand carried.now (T.disk.reads root.old) }
    requires seen { IsTrue T.disk.tells → IsSeenPlan (T.disk.reads root.old) planned.now }
    ensures gathers { Gathers T.disk C.contents (λ tree want. IsWholeTarget (I.listed carried.now tree) (C.contents.answers far.old) tree planned.now planned.now.want want)
        (λ tree. IsMissing (I.listed carried.now tree) (C.contents.answers far.old) tree planned.now planned.now.want)
        root.old root.new far.old far.new result }
    ensures marked { IfOk result (IsWantOf (I.gives carried.now) (mark_of_want planned.now.want)) }
    ensures stops { IfErr result IsMissingStop }
{
    let Some(rec) = &planned.want else {
        return Ok(Want::Nothing);
    };
    recorded_want(alloc, root, far, carried, planned, rec)
}

// The write of a planned path.
fn planned_put<T: TreeDisk, C: Contents, I: Carries>(
    alloc: Global,
    root: &mut T,
    far: &mut C,
    carried: &I,
    planned: &Planned,
) -> Result<Put, Stop>
    requires sound { I.sound carried.now }
    requires stand { IsTrue T.disk.tells → I.stand carried.now (T.disk.reads root.old) }
    requires seen { IsTrue T.disk.tells → IsSeenPlan (T.disk.reads root.old) planned.now }
    ensures gathers { Gathers T.disk C.contents (λ tree. IsWholePut (I.listed carried.now tree) (C.contents.answers far.old) tree planned.now)
        (λ tree. IsMissing (I.listed carried.now tree) (C.contents.answers far.old) tree planned.now planned.now.want)
        root.old root.new far.old far.new result }
    ensures has { IfOk result (HasWant (I.gives carried.now) planned.now) }
    ensures stops { IfErr result IsMissingStop }
{
    let want = planned_want(alloc, root, far, carried, planned)?;
    let path = planned.path.copy()?;
    Ok(Put { path, want })
}

// The writes of the planned paths, in their order.
fn put_list<T: TreeDisk, C: Contents, I: Carries>(
    alloc: Global,
    root: &mut T,
    far: &mut C,
    carried: &I,
    planned: &[Planned],
) -> Result<Vec<Put>, Stop>
    requires sound { I.sound carried.now }
    requires stand { IsTrue T.disk.tells → I.stand carried.now (T.disk.reads root.old) }
    requires seen { IsTrue T.disk.tells → All (IsSeenPlan (T.disk.reads root.old)) planned.now }
    ensures gathers { Gathers T.disk C.contents (λ tree puts. AreWholePuts (I.listed carried.now tree) (C.contents.answers far.old) tree planned.now puts.items)
        (λ tree. IsFirstUnfound (I.listed carried.now tree) (C.contents.answers far.old) tree planned.now)
        root.old root.new far.old far.new result }
    ensures have { IfOk result (λ puts. HaveWants (I.gives carried.now) planned.now puts.items) }
    ensures stops { IfErr result IsMissingStop }
{
    let mut puts = Vec::new(alloc);
    for one in planned {
        let put = planned_put(alloc, root, far, carried, one)?;
        puts.push(put)?;
    }
    Ok(puts)
}

/// The write set of the planned paths, which rise. `MissingContent` exactly for the first path at which a file is to stand whose
/// content isn't found.
pub(crate) fn puts_of<T: TreeDisk, C: Contents, I: Carries>(
    alloc: Global,
    root: &mut T,
    far: &mut C,
    carried: &I,
    planned: &[Planned],
) -> Result<Puts, Stop>
    requires sound { I.sound carried.now }
    requires stand { IsTrue T.disk.tells → I.stand carried.now (T.disk.reads root.old) }
    requires seen { IsTrue T.disk.tells → All (IsSeenPlan (T.disk.reads root.old)) planned.now }
    requires in_order { IsStrictlySortedBy planned_cmp planned.now }
    ensures gathers { Gathers T.disk C.contents (λ tree. AreStagedPuts (I.listed carried.now tree) (C.contents.answers far.old) tree planned.now)
        (λ tree. IsFirstUnfound (I.listed carried.now tree) (C.contents.answers far.old) tree planned.now)
        root.old root.new far.old far.new result }
    ensures have { IfOk result (HaveWants (I.gives carried.now) planned.now) }
    ensures stops { IfErr result IsMissingStop }
{
    let puts = put_list(alloc, root, far, carried, planned)?;
    match Puts::new(puts) {
        Some(puts) => Ok(puts),
        None => unreachable!(),
    }
}
