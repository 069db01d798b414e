//! Recovery: what a crash left of an applied write set is brought to its end.
ghost use Rattle.std.specs.Prelude.{◌≡◌, ◌≤◌, false, true, length, IfErr, IfNone, IfOk, IfSome, IsTrue, OnOk, Some};
ghost use Rattle.journal_log.specs.cny-base.Path.{is_path, join};
ghost use Rattle.journal_log.specs.cny-base.declared.stop.Stop.TheVariants as stop;
ghost use Rattle.journal_log.specs.tree-disk.Confined.{Among, Confined, IsSynced, LeavesOnly};
ghost use Rattle.journal_log.specs.tree-disk.Disk.{HasRead};
ghost use Rattle.journal_log.specs.tree-disk.Steps.{no_name};
ghost use Rattle.journal_log.specs.tree-disk.Tree.{Tree};
ghost use Rattle.journal_log.specs.tree-disk.Unfailed.{UnlessFailed};
ghost use Rattle.journal_log.specs.Own.{gate, log, staged};
ghost use Rattle.journal_log.specs.WriteSet.{IsLoggable};
ghost use Rattle.tree_journal.specs.Found.{Finds, FindsLog, FindsReplayable, StopsSo};
ghost use Rattle.tree_journal.specs.Recovering.{IsVisibleIn, Recovers, Replays};
ghost use Rattle.tree_journal.specs.Recovery.{is_committed, HasPutLog, HasReplayable, IsRecovered, RecoversAsThen, RecoversTo};

use crate::blocked::first_blocked;
use crate::flag::own_path;
use crate::found::{is_flag_set, read_log};
use crate::unstaged::first_unstaged;
use crate::writing::replay;
use journal_log::Puts;
use journal_log::cny_base::{Path, Refusal, Stop, Text, TextFault};
use journal_log::tree_disk::{TreeDisk, steps};
use std::alloc::Global;

/// Brings to its end what a crash or a fault left of an applied write set, and answers whether its commit flag was set.
/// The base is the journal's private directory. It may itself be cut off at any moment.
///
/// It first looks at the journal's names and then syncs, so that on a disk that syncs only what it was asked about a
/// killed process's changes are kept too; it decides on what it reads after that. Each target is written again, also one
/// that stands already.
///
/// After `Ok(false)` nothing was changed: the flag wasn't set, as where the base is so long that the flag's file has no
/// path. After `Ok(true)` the targets of the log stand, and every other name but the journal's own is as it was, edits
/// made since the crash too. `Damaged` names the log, where the commit flag is set and the log isn't in its grammar, or
/// else the first staged file, in the order of the log, that doesn't stand with its size and SHA-1. `Refused` is `Parent`
/// with the first path of the log that can't be put. In these cases no node is changed. `Failed` comes only where the
/// disk's count of faults rose; after it and for want of memory the disk recovers to what it did before, and a later
/// recovery ends it.
pub fn recover<D: TreeDisk>(alloc: Global, disk: &mut D, base: &Path) -> Result<bool, Stop>
    // At every moment, also inside each call of the disk and where a call fails, a crash leaves a crash image at entry, or
    // a tree that recovers to all that the disk, as it read at entry, recovers to.
    ensures any_moment { IsTrue D.disk.tells → LeavesOnly D.disk disk.old disk.new (RecoversAsThen D.disk base.now disk.old) }
    // After Ok the commit flag isn't set, a crash leaves what the disk reads, and that stores the same as all that the disk
    // recovered to as it read.
    ensures recovered { IsTrue D.disk.tells → OnOk result (IsRecovered D.disk base.now disk.old disk.new) }
    ensures was_committed { IsTrue D.disk.tells → IfOk result (λ was. was ≡ is_committed base.now (D.disk.reads disk.old)) }
    // Where the flag was set, the log's targets stand, and all else is kept as it read at entry.
    ensures put { IsTrue D.disk.tells → IfOk result (λ was. was ≡ true → HasPutLog base.now (D.disk.reads disk.old) (D.disk.reads disk.new)) }
    // However it ends, the disk as it reads recovers to all that it recovered to.
    ensures still { IsTrue D.disk.tells → (tree : Tree) → RecoversTo base.now (D.disk.reads disk.old) tree → RecoversTo base.now (D.disk.reads disk.new) tree }
    // Where the flag isn't set, or its log isn't whole, a staged file of it is damaged, or it can't be put, no name changes
    // or becomes unsynced, and a crash at any moment leaves no more than at entry, however it ends.
    ensures untouched { IsTrue D.disk.tells → (is_committed base.now (D.disk.reads disk.old) ≡ true → HasReplayable base.now (D.disk.reads disk.old) → ⊥)
        → Confined D.disk (Among no_name) disk.old disk.new }
    // A flag that isn't set is left as it stands, and all else too.
    ensures kept { IsTrue D.disk.tells → IfOk result (λ was. was ≡ false → D.disk.reads disk.new ≡ D.disk.reads disk.old) }
    // Where no call of the disk failed, readers see at each name but the journal's own, at every moment, what stood there
    // at entry, what it recovers to, or nothing where just one of the two is a directory.
    ensures visible { IsTrue D.disk.tells → UnlessFailed D.disk disk.old disk.new (IsVisibleIn base.now (D.disk.reads disk.old)) }
    ensures causes { IfErr result (StopsSo D.disk base.now disk.old disk.new) }
    ensures later { D.disk.faults disk.old ≤ D.disk.faults disk.new }
{
    recover_all(alloc, disk, base)
}

// The same promises, as one record.
fn recover_all<D: TreeDisk>(alloc: Global, disk: &mut D, base: &Path) -> Result<bool, Stop>
    ensures { Recovers D.disk base.now disk.old disk.new result }
{
    look_at_own(alloc, disk, base)?;
    steps::sync(alloc, disk)?;
    recover_synced(alloc, disk, base)
}

// Recovery of a disk that was synced.
fn recover_synced<D: TreeDisk>(alloc: Global, disk: &mut D, base: &Path) -> Result<bool, Stop>
    requires { IsTrue D.disk.tells → IsSynced D.disk disk.old }
    ensures { Recovers D.disk base.now disk.old disk.new result }
{
    let Some(gate_path) = below_base(alloc, base, "gate")? else {
        return Ok(false);
    };
    if !is_flag_set(alloc, disk, &gate_path)? {
        return Ok(false);
    }
    replay_log(alloc, disk, base, &gate_path)?;
    Ok(true)
}

// Looks at the base, and at the journal's files in it.
fn look_at_own<D: TreeDisk>(alloc: Global, disk: &mut D, base: &Path) -> Result<(), Stop>
    ensures { Finds D.disk (λ tree x. Unit) disk.old disk.new result }
{
    steps::look(alloc, disk, base)?;
    look_below(alloc, disk, base, "gate")?;
    look_below(alloc, disk, base, "log")?;
    look_below(alloc, disk, base, "w")
}

fn look_below<D: TreeDisk>(alloc: Global, disk: &mut D, base: &Path, last: &str) -> Result<(), Stop>
    ensures { Finds D.disk (λ tree x. Unit) disk.old disk.new result }
{
    let Some(path) = below_base(alloc, base, last)? else {
        return Ok(());
    };
    steps::look(alloc, disk, &path)?;
    Ok(())
}

// The path of a name directly below the base, where that is a path: with a base so long that it isn't, nothing stands
// there.
fn below_base(alloc: Global, base: &Path, last: &str) -> Result<Option<Path>, Stop>
    ensures some { IfOk result (λ found. IfSome found (λ path. path ≡ join base.now last.now)) }
    ensures is_path { IfOk result (λ found. IfSome found (λ path. IsTrue (is_path path))) }
    ensures none { IfOk result (λ found. IfNone found (is_path (join base.now last.now) ≡ false)) }
    ensures memory { IfErr result (λ e. e ≡ stop.Memory) }
{
    match base.join(alloc, last) {
        Ok(path) => Ok(Some(path)),
        Err(TextFault::Bad) => Ok(None),
        Err(TextFault::Memory) => Err(Stop::Memory),
    }
}

// Replays the log behind a commit flag that is set.
fn replay_log<D: TreeDisk>(
    alloc: Global,
    disk: &mut D,
    base: &Path,
    gate_path: &Path,
) -> Result<(), Stop>
    requires gate { gate_path.now ≡ gate base.now }
    requires gate_path { IsTrue (is_path gate_path.now) }
    requires synced { IsTrue D.disk.tells → IsSynced D.disk disk.old }
    requires flag_set { IsTrue D.disk.tells → is_committed base.now (D.disk.reads disk.old) ≡ true }
    ensures { Replays D.disk base.now disk.old disk.new result }
{
    let puts = whole_log(alloc, disk, base)?;
    replay(alloc, disk, base, gate_path, puts.get())
}

// The log behind a commit flag that is set, where it is whole, its staged files stand, and it can be put.
fn whole_log<D: TreeDisk>(alloc: Global, disk: &mut D, base: &Path) -> Result<Puts, Stop>
    requires short { length (log base.now) ≤ 1024 }
    requires flag_set { IsTrue D.disk.tells → is_committed base.now (D.disk.reads disk.old) ≡ true }
    ensures reads { IsTrue D.disk.tells → HasRead D.disk disk.old disk.new (IfOk result (FindsReplayable base.now (D.disk.reads disk.old))) }
    ensures causes { IfErr result (StopsSo D.disk base.now disk.old disk.new) }
    ensures loggable { IfOk result (IsLoggable base.now) }
    ensures base { OnOk result (IsTrue (is_path base.now)) }
    ensures later { D.disk.faults disk.old ≤ D.disk.faults disk.new }
{
    let log_path = own_path(alloc, base, "log")?;
    let dir = own_path(alloc, base, "p")?;
    let Some(puts) = read_log(alloc, disk, base, &log_path)? else {
        return Err(Stop::Damaged { path: log_path });
    };
    check_log(alloc, disk, base, &dir, &puts)?;
    Ok(puts)
}

// Whether the staged files of the log stand, and it can be put.
fn check_log<D: TreeDisk>(
    alloc: Global,
    disk: &mut D,
    base: &Path,
    dir: &Path,
    puts: &Puts,
) -> Result<(), Stop>
    requires dir { dir.now ≡ staged base.now }
    requires loggable { IsLoggable base.now puts.now }
    requires flag_set { IsTrue D.disk.tells → is_committed base.now (D.disk.reads disk.old) ≡ true }
    requires found { IsTrue D.disk.tells → FindsLog base.now (D.disk.reads disk.old) (Some puts.now) }
    ensures reads { IsTrue D.disk.tells → HasRead D.disk disk.old disk.new (OnOk result (FindsReplayable base.now (D.disk.reads disk.old) puts.now)) }
    ensures causes { IfErr result (StopsSo D.disk base.now disk.old disk.new) }
    ensures later { D.disk.faults disk.old ≤ D.disk.faults disk.new }
{
    if let Some(path) = first_unstaged(alloc, disk, base, dir, puts)? {
        return Err(Stop::Damaged { path });
    }
    if let Some(path) = first_blocked(alloc, disk, puts)? {
        let path = Text::new(alloc, path.text())?;
        return Err(Stop::Refused(Refusal::Parent { path }));
    }
    Ok(())
}
