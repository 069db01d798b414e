//! The manifest of what stands in a directory.
ghost use Rattle.std.specs.Prelude.{◌≡◌, ◌≤◌, All, IfErr, IfOk, IsTrue, OnOk};
ghost use Rattle.std.specs.Io.KnownBytes.{Appends};
ghost use Rattle.tree_disk.specs.cny-base.Count.{Rose};
ghost use Rattle.cny_pack.specs.Causes.{IfJudged, IsCause, IsFirstWithout, KeepsCounts};
ghost use Rattle.cny_pack.specs.Entries.{GivesAll};
ghost use Rattle.cny_pack.specs.Halts.{IsGivingStop, IsLookStop};
ghost use Rattle.cny_pack.specs.Packs.{WritesPack};
ghost use Rattle.cny_pack.specs.Plan.{CanStand, IsAsSeen};
ghost use Rattle.cny_pack.specs.Walk.{FindsAll};

use crate::entry::give_entries;
use crate::head::{Words, head_of};
use crate::judge::judge;
use crate::owners::Owners;
use crate::pattern::Pattern;
use crate::plan::{Rules, Sight, plan};
use crate::stop::{PackStop, by_step};
use crate::walk::{Seen, find_all};
use std::alloc::Global;
use tree_disk::cny_base::{Bytes, FlowFault, Sink};
use tree_disk::{PIECE, TreeDisk};

fn give<S: Sink>(out: &mut S, bytes: &[u8]) -> Result<(), PackStop>
    ensures given { OnOk result (Appends (S.sink.written out.old) (S.sink.written out.new) bytes.now) }
    ensures later { S.sink.faults out.old ≤ S.sink.faults out.new }
    ensures stops { IfErr result (IsGivingStop (λ path why. ⊥) ⊥ (Rose (S.sink.faults out.old) (S.sink.faults out.new))) }
{
    match out.give(bytes) {
        Ok(()) => Ok(()),
        Err(FlowFault::Failed) => Err(PackStop::SinkFailed),
        Err(FlowFault::Memory) => Err(PackStop::Memory),
    }
}

// Writes the first lines, the entries and the line `end`.
fn give_all<D: TreeDisk, O: Owners, S: Sink>(
    alloc: Global,
    disk: &mut D,
    owners: &mut O,
    config: &[Pattern],
    text: &Bytes,
    sights: &[Sight],
    out: &mut S,
) -> Result<(), PackStop>
    requires can { All CanStand sights.now }
    requires seen { IsTrue D.disk.tells → All (IsAsSeen (D.disk.reads disk.old)) sights.now }
    ensures given { OnOk result (GivesAll O.owns config.now D.disk.tells (D.disk.reads disk.old) text.now sights.now (S.sink.written out.old) (S.sink.written out.new)) }
    ensures same { IsTrue D.disk.tells → D.disk.reads disk.new ≡ D.disk.reads disk.old }
    ensures counts { KeepsCounts (D.disk.faults disk.old) (D.disk.faults disk.new) (S.sink.faults out.old) (S.sink.faults out.new) }
    ensures stops { IfErr result (IsGivingStop (IsFirstWithout O.owns O.lacks config.now D.disk.tells (D.disk.reads disk.old) sights.now) (Rose (D.disk.faults disk.old) (D.disk.faults disk.new)) (Rose (S.sink.faults out.old) (S.sink.faults out.new))) }
{
    let mut buf = vec![in alloc; 0u8; PIECE]?;
    give(out, text.get())?;
    give_entries(alloc, disk, owners, config, sights, &mut buf, out)?;
    give(out, b"end\n")?;
    Ok(())
}

// What stands on the disk.
fn find<D: TreeDisk>(alloc: Global, disk: &mut D) -> Result<Seen, PackStop>
    ensures found { IsTrue D.disk.tells → IfOk result (FindsAll (D.disk.reads disk.old)) }
    ensures same { IsTrue D.disk.tells → D.disk.reads disk.new ≡ D.disk.reads disk.old }
    ensures later { D.disk.faults disk.old ≤ D.disk.faults disk.new }
    ensures stops { IfErr result (IsLookStop (Rose (D.disk.faults disk.old) (D.disk.faults disk.new))) }
{
    match find_all(alloc, disk) {
        Ok(seen) => Ok(seen),
        Err(stop) => Err(by_step(stop, PackStop::DiskFailed, PackStop::Memory)),
    }
}

/// Writes the manifest of what stands on the disk, but for `/` itself: the lines that the words give, an entry for each path in the
/// order of paths, files with their contents, and the line `end`. Words, what stands in the tree, and the troves are judged before that,
/// in this order. What was written before an entry stops it lacks its end.
pub fn write_manifest<D: TreeDisk, O: Owners, S: Sink>(
    alloc: Global,
    disk: &mut D,
    owners: &mut O,
    words: Words<'_>,
    rules: Rules<'_>,
    out: &mut S,
) -> Result<(), PackStop>
    // A manifest was written: of a disk that tells its tree that of its nodes.
    ensures written { OnOk result (WritesPack O.owns rules.entry D.disk.tells (D.disk.reads disk.old) words.entry (S.sink.written out.old) (S.sink.written out.new)) }
    // Why none was.
    ensures cause { IfErr result (IsCause O.owns O.lacks rules.entry D.disk.tells (D.disk.reads disk.old) words.entry (Rose (D.disk.faults disk.old) (D.disk.faults disk.new)) (Rose (S.sink.faults out.old) (S.sink.faults out.new))) }
    // Nothing was written where words, what stands at a path, or troves are refused.
    ensures unwritten { IfErr result (IfJudged (out.new ≡ out.old)) }
    // The disk stays as it was, and no count of faults falls.
    ensures same { IsTrue D.disk.tells → D.disk.reads disk.new ≡ D.disk.reads disk.old }
    ensures counts { KeepsCounts (D.disk.faults disk.old) (D.disk.faults disk.new) (S.sink.faults out.old) (S.sink.faults out.new) }
{
    let head = head_of(alloc, words)?;
    let seen = find(alloc, disk)?;
    let planned = plan(alloc, seen, rules.skip)?;
    let sights = planned.as_slice();
    let text = judge(alloc, head, sights)?;
    give_all(alloc, disk, owners, rules.config, &text, sights, out)?;
    Ok(())
}
