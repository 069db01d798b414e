//! Entries, with their contents.
ghost use Rattle.std.specs.Prelude.{◌≡◌, ◌<◌, ◌≤◌, length, Bool, List, All, IfErr, IfOk, IsTrue, OnOk};
ghost use Rattle.tree_disk.specs.cny-base.Count.{Rose};
ghost use Rattle.tree_disk.specs.cny-base.declared.limits.TheConstants.{CONTENT_LIMIT};
ghost use Rattle.tree_disk.specs.Tree.{Tree};
ghost use Rattle.tree_disk.specs.declared.disk.Look.TheVariants as look;
ghost use Rattle.cny_pack.specs.Causes.{CannotEnter, IsFirstWithout, KeepsCounts};
ghost use Rattle.cny_pack.specs.Entries as spec;
ghost use Rattle.cny_pack.specs.Entries.{IsFileLine, IsFileOf, IsNamed, GivesEntry, GivesEntries};
ghost use Rattle.cny_pack.specs.Gives.{GivesContentLine, GivesLink};
ghost use Rattle.cny_pack.specs.Halts.{IsHalt, IsGivingStop, IsStopAt, Never, OnlyChanged, OnlyNoOwner};
ghost use Rattle.cny_pack.specs.Plan.{CanStand, IsAsSeen};
ghost use Rattle.cny_pack.specs.declared.pattern.Pattern.{Pattern};

use crate::content::{check_file, give_content};
use crate::lines::{dir_line, file_line, give_line, link_line, target_line};
use crate::owners::Owners;
use crate::pattern::{Pattern, is_any};
use crate::plan::Sight;
use crate::stop::{Halt, PackStop, Unfit};
use manifest_troves::cny_stream::{Flags, Owner};
use std::alloc::Global;
use tree_disk::cny_base::{Bytes, Copies, Mode, Path, Sink, Target};
use tree_disk::{Look, TreeDisk};

// The owner of what stands at a path.
fn owner_of<O: Owners>(alloc: Global, owners: &mut O, path: &Path) -> Result<Owner, Halt>
    ensures named { IfOk result (IsNamed O.owns path.now) }
    ensures stops { IfErr result (IsHalt (OnlyNoOwner (O.lacks path.now)) ⊥ ⊥) }
{
    match owners.owner_at(alloc, path)? {
        Some(owner) => {
            let _root = owner.is_root();
            Ok(owner)
        }
        None => Err(Halt::Unfit(Unfit::NoOwner)),
    }
}

// Writes the entry of a directory.
fn give_dir<O: Owners, S: Sink>(
    alloc: Global,
    owners: &mut O,
    path: &Path,
    mode: Mode,
    out: &mut S,
) -> Result<(), Halt>
    ensures given { (config : List Pattern) (tells : Bool) (t : Tree)
        → OnOk result (GivesEntry O.owns config tells t path.now (look.Dir mode) (S.sink.written out.old) (S.sink.written out.new)) }
    ensures later { S.sink.faults out.old ≤ S.sink.faults out.new }
    ensures stops { IfErr result (IsHalt (OnlyNoOwner (O.lacks path.now)) ⊥ (Rose (S.sink.faults out.old) (S.sink.faults out.new))) }
{
    let owner = owner_of(alloc, owners, path)?;
    let _path = path.text();
    let _mode = mode.bits();
    let line = dir_line(alloc, path, mode, &owner)?;
    give_line(out, line)?;
    Ok(())
}

// Writes the entry of a link.
fn give_link<S: Sink>(alloc: Global, path: &Path, target: &Target, out: &mut S) -> Result<(), Halt>
    ensures given { OnOk result (GivesLink path.now target.now (S.sink.written out.old) (S.sink.written out.new)) }
    ensures later { S.sink.faults out.old ≤ S.sink.faults out.new }
    ensures stops { IfErr result (IsHalt Never ⊥ (Rose (S.sink.faults out.old) (S.sink.faults out.new))) }
{
    let _path = path.text();
    let _target = target.text();
    let line = link_line(alloc, path)?;
    give_line(out, line)?;
    let line = target_line(alloc, target)?;
    give_line(out, line)?;
    Ok(())
}

// The flags of a file.
fn flags_at(config: &[Pattern], path: &Path) -> Flags
    ensures { result ≡ spec.flags_at config.now path.now }
{
    Flags {
        config: is_any(config, path),
        initial: false,
        transient: false,
    }
}

// The line of a file.
fn head_line<O: Owners>(
    alloc: Global,
    owners: &mut O,
    config: &[Pattern],
    path: &Path,
    mode: Mode,
    size: u64,
) -> Result<Bytes, Halt>
    ensures line { IfOk result (IsFileLine O.owns config.now path.now mode size) }
    ensures stops { IfErr result (IsHalt (OnlyNoOwner (O.lacks path.now)) ⊥ ⊥) }
{
    let owner = owner_of(alloc, owners, path)?;
    let flags = flags_at(config, path);
    let _path = path.text();
    let _mode = mode.bits();
    Ok(file_line(alloc, path, mode, &owner, flags, size)?)
}

// Writes the content of a file, and the line feed behind it.
fn give_bytes<D: TreeDisk, S: Sink>(
    alloc: Global,
    disk: &mut D,
    path: &Path,
    size: u64,
    buf: &mut [u8],
    out: &mut S,
) -> Result<(), Halt>
    requires file { IsTrue D.disk.tells → IsFileOf (D.disk.reads disk.old) path.now size }
    requires room { 0 < length buf.old }
    ensures given { OnOk result (GivesContentLine D.disk.tells (D.disk.reads disk.old) path.now size (S.sink.written out.old) (S.sink.written out.new)) }
    ensures same { IsTrue D.disk.tells → D.disk.reads disk.new ≡ D.disk.reads disk.old }
    ensures counts { KeepsCounts (D.disk.faults disk.old) (D.disk.faults disk.new) (S.sink.faults out.old) (S.sink.faults out.new) }
    ensures stops { IfErr result (IsHalt (OnlyChanged (IsTrue D.disk.tells → ⊥)) (Rose (D.disk.faults disk.old) (D.disk.faults disk.new)) (Rose (S.sink.faults out.old) (S.sink.faults out.new))) }
{
    give_content(alloc, disk, path, size, buf, out)?;
    out.give(b"\n")?;
    Ok(())
}

// Writes the entry of a file. It is looked at once more, since others may have changed it.
fn give_file<D: TreeDisk, O: Owners, S: Sink>(
    alloc: Global,
    disk: &mut D,
    owners: &mut O,
    config: &[Pattern],
    path: &Path,
    mode: Mode,
    size: u64,
    buf: &mut [u8],
    out: &mut S,
) -> Result<(), Halt>
    requires small { size ≤ CONTENT_LIMIT }
    requires file { IsTrue D.disk.tells → IsFileOf (D.disk.reads disk.old) path.now size }
    requires room { 0 < length buf.old }
    ensures given { OnOk result (GivesEntry O.owns config.now D.disk.tells (D.disk.reads disk.old) path.now (look.File mode size) (S.sink.written out.old) (S.sink.written out.new)) }
    ensures same { IsTrue D.disk.tells → D.disk.reads disk.new ≡ D.disk.reads disk.old }
    ensures counts { KeepsCounts (D.disk.faults disk.old) (D.disk.faults disk.new) (S.sink.faults out.old) (S.sink.faults out.new) }
    ensures stops { IfErr result (IsHalt (CannotEnter O.lacks D.disk.tells path.now (look.File mode size)) (Rose (D.disk.faults disk.old) (D.disk.faults disk.new)) (Rose (S.sink.faults out.old) (S.sink.faults out.new))) }
{
    check_file(alloc, disk, path, size)?;
    let line = head_line(alloc, owners, config, path, mode, size)?;
    give_line(out, line)?;
    give_bytes(alloc, disk, path, size, buf, out)?;
    Ok(())
}

// Writes the entry of what was seen at a path.
fn give_entry<D: TreeDisk, O: Owners, S: Sink>(
    alloc: Global,
    disk: &mut D,
    owners: &mut O,
    config: &[Pattern],
    sight: &Sight,
    buf: &mut [u8],
    out: &mut S,
) -> Result<(), Halt>
    requires can { CanStand sight.now }
    requires seen { IsTrue D.disk.tells → IsAsSeen (D.disk.reads disk.old) sight.now }
    requires room { 0 < length buf.old }
    ensures given { OnOk result (GivesEntry O.owns config.now D.disk.tells (D.disk.reads disk.old) sight.now.path sight.now.look (S.sink.written out.old) (S.sink.written out.new)) }
    ensures same { IsTrue D.disk.tells → D.disk.reads disk.new ≡ D.disk.reads disk.old }
    ensures counts { KeepsCounts (D.disk.faults disk.old) (D.disk.faults disk.new) (S.sink.faults out.old) (S.sink.faults out.new) }
    ensures stops { IfErr result (IsHalt (CannotEnter O.lacks D.disk.tells sight.now.path sight.now.look) (Rose (D.disk.faults disk.old) (D.disk.faults disk.new)) (Rose (S.sink.faults out.old) (S.sink.faults out.new))) }
{
    let path = &sight.path;
    match &sight.look {
        Look::Nothing => unreachable!(),
        Look::Dir { mode } => give_dir(alloc, owners, path, *mode, out),
        Look::Link { target } => give_link(alloc, path, target, out),
        Look::File { mode, size } => {
            give_file(alloc, disk, owners, config, path, *mode, *size, buf, out)
        }
    }
}

// What an entry that isn't written makes of the whole.
fn stop_at(path: &Path, halt: Halt) -> PackStop
    ensures { IsStopAt path.now halt result }
{
    match halt {
        Halt::DiskFailed => PackStop::DiskFailed,
        Halt::SinkFailed => PackStop::SinkFailed,
        Halt::Memory => PackStop::Memory,
        Halt::Unfit(why) => match path.copy() {
            Ok(path) => PackStop::Unfit { path, why },
            Err(_) => PackStop::Memory,
        },
    }
}

/// Writes an entry of each, one after the other.
pub(crate) fn give_entries<D: TreeDisk, O: Owners, S: Sink>(
    alloc: Global,
    disk: &mut D,
    owners: &mut O,
    config: &[Pattern],
    sights: &[Sight],
    buf: &mut [u8],
    out: &mut S,
) -> Result<(), PackStop>
    requires can { All CanStand sights.now }
    requires seen { IsTrue D.disk.tells → All (IsAsSeen (D.disk.reads disk.old)) sights.now }
    requires room { 0 < length buf.old }
    ensures given { OnOk result (GivesEntries O.owns config.now D.disk.tells (D.disk.reads disk.old) sights.now (S.sink.written out.old) (S.sink.written out.new)) }
    ensures same { IsTrue D.disk.tells → D.disk.reads disk.new ≡ D.disk.reads disk.old }
    ensures counts { KeepsCounts (D.disk.faults disk.old) (D.disk.faults disk.new) (S.sink.faults out.old) (S.sink.faults out.new) }
    ensures stops { IfErr result (IsGivingStop (IsFirstWithout O.owns O.lacks config.now D.disk.tells (D.disk.reads disk.old) sights.now) (Rose (D.disk.faults disk.old) (D.disk.faults disk.new)) (Rose (S.sink.faults out.old) (S.sink.faults out.new))) }
{
    for sight in sights {
        match give_entry(alloc, disk, owners, config, sight, buf, out) {
            Ok(()) => {}
            Err(halt) => return Err(stop_at(&sight.path, halt)),
        }
    }
    Ok(())
}
