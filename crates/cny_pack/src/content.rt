//! The contents of files, in pieces.
ghost use Rattle.std.specs.Prelude.{◌≡◌, ◌<◌, ◌≤◌, ◌-◌, length, min, take, drop, IfErr, IfOk, OnOk, IsTrue};
ghost use Rattle.tree_disk.specs.Looks.{size_seen};
ghost use Rattle.tree_disk.specs.Rows.{bytes_at, is_file_at, look_of};
ghost use Rattle.tree_disk.specs.cny-base.Count.{Rose};
ghost use Rattle.cny_pack.specs.Causes.{KeepsCounts};
ghost use Rattle.cny_pack.specs.Entries.{IsFileOf};
ghost use Rattle.cny_pack.specs.Gives.{GivesContent, GivesPiece};
ghost use Rattle.cny_pack.specs.Halts.{IsHalt, Never, OnlyChanged};

use crate::stop::{Halt, Unfit, by_step};
use std::alloc::Global;
use tree_disk::cny_base::{Path, Sink};
use tree_disk::{TreeDisk, steps};

// Whether a piece of this length behind so many bytes leaves the file within its size, and is empty only at its end.
fn fits(size: u64, at: u64, count: usize) -> bool
    ensures within { IsTrue result → count ≤ size - at }
    ensures end { IsTrue result → count ≡ 0 → size - at ≡ 0 }
    ensures all { count ≤ size - at → (count ≡ 0 → size - at ≡ 0) → IsTrue result }
{
    let left = size.saturating_sub(at);
    if count == 0 {
        left == 0
    } else {
        count as u64 <= left
    }
}

// Reads the next piece of a file.
fn read_piece<D: TreeDisk>(
    alloc: Global,
    disk: &mut D,
    path: &Path,
    at: u64,
    buf: &mut [u8],
) -> Result<usize, Halt>
    requires { IsTrue D.disk.tells → IsTrue (is_file_at (D.disk.reads disk.old) path.now) }
    ensures most { IfOk result (λ count. count ≤ length buf.old) }
    ensures told { IsTrue D.disk.tells → IfOk result (λ count. take count buf.new ≡ take count (drop at (bytes_at (D.disk.reads disk.old) path.now))) }
    ensures counted { IsTrue D.disk.tells → IfOk result (λ count. count ≡ min (length buf.old) (length (bytes_at (D.disk.reads disk.old) path.now) - at)) }
    ensures same { IsTrue D.disk.tells → D.disk.reads disk.new ≡ D.disk.reads disk.old }
    ensures later { D.disk.faults disk.old ≤ D.disk.faults disk.new }
    ensures stops { IfErr result (IsHalt Never (Rose (D.disk.faults disk.old) (D.disk.faults disk.new)) ⊥) }
{
    match steps::read_at(alloc, disk, path, at, buf) {
        Ok(count) => Ok(count),
        Err(stop) => Err(by_step(stop, Halt::DiskFailed, Halt::Memory)),
    }
}

/// Looks whether a file of this size stands at the path still: else it has changed since it was looked at.
pub(crate) fn check_file<D: TreeDisk>(
    alloc: Global,
    disk: &mut D,
    path: &Path,
    size: u64,
) -> Result<(), Halt>
    requires { IsTrue D.disk.tells → IsFileOf (D.disk.reads disk.old) path.now size }
    ensures same { IsTrue D.disk.tells → D.disk.reads disk.new ≡ D.disk.reads disk.old }
    ensures later { D.disk.faults disk.old ≤ D.disk.faults disk.new }
    ensures stops { IfErr result (IsHalt (OnlyChanged (IsTrue D.disk.tells → ⊥)) (Rose (D.disk.faults disk.old) (D.disk.faults disk.new)) ⊥) }
{
    let seen = size_now(alloc, disk, path)?;
    match seen {
        Some(now) if now == size => Ok(()),
        _ => Err(Halt::Unfit(Unfit::Changed)),
    }
}

// The size of the file at a path; none where no file stands there.
fn size_now<D: TreeDisk>(alloc: Global, disk: &mut D, path: &Path) -> Result<Option<u64>, Halt>
    ensures seen { IsTrue D.disk.tells → IfOk result (λ size. size ≡ size_seen (look_of (D.disk.reads disk.old) path.now)) }
    ensures same { IsTrue D.disk.tells → D.disk.reads disk.new ≡ D.disk.reads disk.old }
    ensures later { D.disk.faults disk.old ≤ D.disk.faults disk.new }
    ensures stops { IfErr result (IsHalt Never (Rose (D.disk.faults disk.old) (D.disk.faults disk.new)) ⊥) }
{
    match steps::look(alloc, disk, path) {
        Ok(look) => Ok(look.size()),
        Err(stop) => Err(by_step(stop, Halt::DiskFailed, Halt::Memory)),
    }
}

// Writes the next piece of a file of this size, and answers how long it is: 0 where the file ends. A file that ends elsewhere has
// changed since it was looked at.
fn give_piece<D: TreeDisk, S: Sink>(
    alloc: Global,
    disk: &mut D,
    path: &Path,
    size: u64,
    at: u64,
    buf: &mut [u8],
    out: &mut S,
) -> Result<usize, Halt>
    requires file { IsTrue D.disk.tells → IsFileOf (D.disk.reads disk.old) path.now size }
    requires room { 0 < length buf.old }
    ensures given { IfOk result (λ count. GivesPiece D.disk.tells (D.disk.reads disk.old) path.now at count (S.sink.written out.old) (S.sink.written out.new)) }
    ensures within { IfOk result (λ count. count ≤ size - at) }
    ensures end { IfOk result (λ count. count ≡ 0 → size - at ≡ 0) }
    ensures same { IsTrue D.disk.tells → D.disk.reads disk.new ≡ D.disk.reads disk.old }
    ensures counts { KeepsCounts (D.disk.faults disk.old) (D.disk.faults disk.new) (S.sink.faults out.old) (S.sink.faults out.new) }
    ensures stops { IfErr result (IsHalt (OnlyChanged (IsTrue D.disk.tells → ⊥)) (Rose (D.disk.faults disk.old) (D.disk.faults disk.new)) (Rose (S.sink.faults out.old) (S.sink.faults out.new))) }
{
    let count = read_piece(alloc, disk, path, at, buf)?;
    if !fits(size, at, count) {
        return Err(Halt::Unfit(Unfit::Changed));
    }
    out.give(&buf[..count])?;
    Ok(count)
}

/// Writes the content of a file of this size, piece by piece, each at most as long as the buffer: so many bytes, whatever the disk
/// answers. A file of this size stands there, where the disk tells its tree.
pub(crate) fn give_content<D: TreeDisk, S: Sink>(
    alloc: Global,
    disk: &mut D,
    path: &Path,
    size: u64,
    buf: &mut [u8],
    out: &mut S,
) -> Result<(), Halt>
    requires file { IsTrue D.disk.tells → IsFileOf (D.disk.reads disk.old) path.now size }
    requires room { 0 < length buf.old }
    ensures given { OnOk result (GivesContent D.disk.tells (D.disk.reads disk.old) path.now size (S.sink.written out.old) (S.sink.written out.new)) }
    ensures same { IsTrue D.disk.tells → D.disk.reads disk.new ≡ D.disk.reads disk.old }
    ensures counts { KeepsCounts (D.disk.faults disk.old) (D.disk.faults disk.new) (S.sink.faults out.old) (S.sink.faults out.new) }
    ensures stops { IfErr result (IsHalt (OnlyChanged (IsTrue D.disk.tells → ⊥)) (Rose (D.disk.faults disk.old) (D.disk.faults disk.new)) (Rose (S.sink.faults out.old) (S.sink.faults out.new))) }
{
    let mut at = 0;
    'pieces: loop {
        let count = give_piece(alloc, disk, path, size, at, buf, out)?;
        if count == 0 {
            return Ok(());
        }
        at += count as u64;
    }
}
