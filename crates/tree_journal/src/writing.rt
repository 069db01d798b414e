//! A write set, applied as a whole: all writes and syncs in their order (`apply_in_order`), whose end (`replay`) is that of a
//! recovery too.
ghost use Rattle.std.specs.Prelude.{◌≡◌, ◌≤◌, IfErr, IsErrOf, IsTrue, OnErr, OnOk, length};
ghost use Rattle.journal_log.specs.cny-base.Count.{Rose};
ghost use Rattle.journal_log.specs.cny-base.Path.{is_path};
ghost use Rattle.journal_log.specs.cny-base.declared.stop.Stop.TheVariants as stop;
ghost use Rattle.journal_log.specs.tree-disk.Confined.{Among, Confined, IsSynced, LeavesOnly};
ghost use Rattle.journal_log.specs.tree-disk.Steps.{IsDiskStop, Makes};
ghost use Rattle.journal_log.specs.tree-disk.Unfailed.{UnlessFailed};
ghost use Rattle.journal_log.specs.Own.{gate, log};
ghost use Rattle.journal_log.specs.Rules.{AreLogged};
ghost use Rattle.tree_journal.specs.Apply.{goal, Applies, CanApply, HoldsStaged, IsAtRest, IsBeforeOrAfter, IsOneOf, is_own_or_target};
ghost use Rattle.tree_journal.specs.Recovery.{RecoversTo};
ghost use Rattle.tree_journal.specs.Staging.{outcome};
ghost use Rattle.tree_journal.specs.Steps.{is_replay_name, replayed, IsCommitted, IsLogOf};
ghost use Rattle.tree_journal.specs.Visible.{IsVisible};

use crate::directory::make_dir;
use crate::flag::{own_path, write_own_file};
use crate::passes::put_targets;
use crate::staging::stage;
use journal_log::cny_base::{Path, Stop};
use journal_log::tree_disk::{TreeDisk, steps};
use journal_log::{Put, Puts, encode_log, numbered};
use std::alloc::Global;

/// Puts all targets of a write set at once: a crash at any moment leaves a disk that recovers to the tree before, or to
/// the tree with all targets. The base is the journal's private directory; it is made where it isn't one.
///
/// The base has at most 1,011 bytes. Where the disk tells its tree, its parent is a directory, the commit flag isn't set
/// and its name isn't unsynced, no write is at `/`, at the base or at another of the journal's own names, the file of
/// each staged write stands in `p` below the base with its size and SHA-1, and with the base made a directory all writes
/// can be put and give a well-formed tree.
///
/// The files of staged writes stay, and so do the bytes of all others, under numbers of their own, until the next call
/// clears them.
///
/// `Failed` comes only where the disk's count of faults rose, and want of memory also where the write set is too large
/// for a log: a value, or the number of writes, has no room in 32 bits. After both the disk recovers to the tree before
/// or after.
pub fn apply<D: TreeDisk>(alloc: Global, disk: &mut D, base: &Path, puts: &Puts) -> Result<(), Stop>
    requires short { length base.now ≤ 1011 }
    requires told { IsTrue D.disk.tells → CanApply D.disk base.now puts.now disk.old }
    // At every moment, also inside each call of the disk and where a call fails, a crash leaves a tree that recovers to
    // some crash image at entry, or to the tree with all targets.
    ensures any_moment { IsTrue D.disk.tells → LeavesOnly D.disk disk.old disk.new
        (IsBeforeOrAfter D.disk base.now puts.now disk.old) }
    // After Ok the targets stand, the commit flag isn't set, and a crash leaves what the disk reads.
    ensures applied { IsTrue D.disk.tells → OnOk result (IsAtRest D.disk base.now (goal base.now puts.now (D.disk.reads disk.old)) disk.new) }
    // After an error the disk, as it reads, recovers to the tree before or to the tree with all targets.
    ensures stopped { IsTrue D.disk.tells → OnErr result (IsOneOf base.now puts.now (D.disk.reads disk.old) (D.disk.reads disk.new)) }
    // After Ok nothing is left of earlier changes below the directory of staged bytes.
    ensures cleared { IsTrue D.disk.tells → OnOk result (HoldsStaged base.now puts.now (D.disk.reads disk.new)) }
    // However it ends, no name changed or became unsynced but the journal's own and the targets.
    ensures confined { IsTrue D.disk.tells → Confined D.disk (Among (is_own_or_target base.now puts.now)) disk.old disk.new }
    // Where no call of the disk failed, readers see at each name but the journal's own, at every moment, the node before,
    // the node after, or nothing where just one of the two is a directory.
    ensures visible { IsTrue D.disk.tells → UnlessFailed D.disk disk.old disk.new
        (IsVisible base.now (D.disk.reads disk.old) (goal base.now puts.now (D.disk.reads disk.old))) }
    ensures later { D.disk.faults disk.old ≤ D.disk.faults disk.new }
    ensures failed { IsErrOf result stop.Failed → Rose (D.disk.faults disk.old) (D.disk.faults disk.new) }
    ensures stops { IfErr result IsDiskStop }
{
    apply_staged(alloc, disk, base, puts)
}

// The same promises, as one record.
fn apply_staged<D: TreeDisk>(
    alloc: Global,
    disk: &mut D,
    base: &Path,
    puts: &Puts,
) -> Result<(), Stop>
    requires short { length base.now ≤ 1011 }
    requires told { IsTrue D.disk.tells → CanApply D.disk base.now puts.now disk.old }
    ensures { Applies D.disk base.now puts.now disk.old disk.new result }
{
    let gate_path = own_path(alloc, base, "gate")?;
    let log_path = own_path(alloc, base, "log")?;
    let numbered = numbered(alloc, puts)?;
    let log = encode_log(alloc, &numbered)?;
    apply_in_order(
        alloc,
        disk,
        base,
        &gate_path,
        &log_path,
        puts,
        numbered.get(),
        log.get(),
    )
}

// All writes and syncs of `apply`, in their order. Until the flag is written a crash leaves a tree that recovers to that
// before, and once it is synced one that recovers to that with all targets. The first sync is there since a name that is
// unsynced may lie below a base that has to be made: a crash could then leave anything at it.
fn apply_in_order<D: TreeDisk>(
    alloc: Global,
    disk: &mut D,
    base: &Path,
    gate_path: &Path,
    log_path: &Path,
    puts: &Puts,
    numbered: &[Put],
    bytes: &[u8],
) -> Result<(), Stop>
    requires base { IsTrue (is_path base.now) }
    requires short { length base.now ≤ 1011 }
    requires gate { gate_path.now ≡ gate base.now }
    requires gate_path { IsTrue (is_path gate_path.now) }
    requires log { log_path.now ≡ log base.now }
    requires log_path { IsTrue (is_path log_path.now) }
    requires written { IsLogOf base.now puts.now numbered.now bytes.now }
    requires told { IsTrue D.disk.tells → CanApply D.disk base.now puts.now disk.old }
    ensures { Applies D.disk base.now puts.now disk.old disk.new result }
{
    steps::sync(alloc, disk)?;
    make_dir(alloc, disk, base)?;
    stage(alloc, disk, base, puts, numbered)?;
    write_own_file(alloc, disk, log_path, bytes)?;
    steps::sync(alloc, disk)?;
    write_own_file(alloc, disk, gate_path, b"O")?;
    steps::sync(alloc, disk)?;
    // The targets, a sync, the flag's removal, a sync: a recovery ends so too.
    replay(alloc, disk, base, gate_path, numbered)
}

/// The end of an application, and of a recovery behind a commit flag that is set: puts all targets of the log, and takes the
/// flag away.
pub fn replay<D: TreeDisk>(
    alloc: Global,
    disk: &mut D,
    base: &Path,
    gate_path: &Path,
    puts: &[Put],
) -> Result<(), Stop>
    requires base { IsTrue (is_path base.now) }
    requires gate { gate_path.now ≡ gate base.now }
    requires gate_path { IsTrue (is_path gate_path.now) }
    requires logged { AreLogged base.now puts.now }
    requires told { IsTrue D.disk.tells → IsCommitted D.disk base.now puts.now disk.old }
    ensures makes { Makes D.disk (is_replay_name base.now puts.now) (λ tree. replayed base.now puts.now tree) disk.old disk.new result }
    ensures any_moment { IsTrue D.disk.tells → LeavesOnly D.disk disk.old disk.new
        (λ image. RecoversTo base.now image (outcome base.now puts.now (D.disk.reads disk.old))) }
    ensures synced { IsTrue D.disk.tells → OnOk result (IsSynced D.disk disk.new) }
    ensures seen { IsTrue D.disk.tells → UnlessFailed D.disk disk.old disk.new
        (IsVisible base.now (D.disk.reads disk.old) (outcome base.now puts.now (D.disk.reads disk.old))) }
{
    put_targets(alloc, disk, base, puts)?;
    steps::sync(alloc, disk)?;
    steps::remove(alloc, disk, gate_path)?;
    steps::sync(alloc, disk)
}
