// The name of a file's bytes.
ghost use Rattle.std.specs.Prelude.{◌≡◌, ◌<◌, ◌++◌, List, ℕ, [], IfErr, IsTrue, OnOk, Ok, drop, length, take};
ghost use Rattle.tree_disk.specs.Rows.{bytes_at, is_file_at};
ghost use Rattle.tree_disk.specs.Steps.{IsDiskStop, Tests};

use crate::namer::Namer;
use std::alloc::Global;
use tree_disk::cny_base::{Path, Stop};
use tree_disk::{TreeDisk, piece_room, room_for, steps};

/// How many bytes a file has, and 0 where none stands.
pub fn size_of<D: TreeDisk>(alloc: Global, disk: &mut D, path: &Path) -> Result<u64, Stop>
    ensures tests { Tests D.disk (λ size. size)
        (λ tree. Ok (length (bytes_at tree path.now)))
        disk.old disk.new result }
    ensures stops { IfErr result IsDiskStop }
{
    let look = steps::look(alloc, disk, path)?;
    Ok(look.size().unwrap_or(0))
}

// Gives a name in the making the next piece of a file, as long as there is room and file.
fn add_piece<D: TreeDisk, N: Namer>(
    alloc: Global,
    disk: &mut D,
    namer: &N,
    naming: &mut N::Naming,
    path: &Path,
    at: u64,
    buf: &mut [u8],
) -> Result<(), Stop>
    requires { IsTrue D.disk.tells → IsTrue (is_file_at (D.disk.reads disk.old) path.now) }
    ensures tests { Tests D.disk (λ done. done) (λ tree. Ok tt) disk.old disk.new result }
    ensures given { IsTrue D.disk.tells → (bytes : List ℕ) → N.is_given namer.now naming.old bytes
        → OnOk result (N.is_given namer.now naming.new (bytes ++ take (length buf.old) (drop at (bytes_at (D.disk.reads disk.old) path.now)))) }
    ensures stops { IfErr result IsDiskStop }
{
    let count = steps::read_at(alloc, disk, path, at, buf)?;
    namer.add(naming, &buf[..count]);
    Ok(())
}

// Gives a name in the making the bytes of a file of this size, piece by piece.
fn add_file<D: TreeDisk, N: Namer>(
    alloc: Global,
    disk: &mut D,
    namer: &N,
    naming: &mut N::Naming,
    path: &Path,
    size: u64,
    buf: &mut [u8],
) -> Result<(), Stop>
    requires file { IsTrue D.disk.tells → IsTrue (is_file_at (D.disk.reads disk.old) path.now) }
    requires size { IsTrue D.disk.tells → length (bytes_at (D.disk.reads disk.old) path.now) ≡ size }
    requires empty { N.is_given namer.now naming.old [] }
    requires room { 0 < length buf.old }
    ensures tests { Tests D.disk (λ done. done) (λ tree. Ok tt) disk.old disk.new result }
    ensures given { IsTrue D.disk.tells → OnOk result (N.is_given namer.now naming.new (bytes_at (D.disk.reads disk.old) path.now)) }
    ensures stops { IfErr result IsDiskStop }
{
    let mut at = 0;
    'pieces: while at < size {
        let room = room_for(size - at, buf.len());
        add_piece(alloc, disk, namer, naming, path, at, &mut buf[..room])?;
        at += room as u64;
    }
    Ok(())
}

/// The name of a file of this size.
pub fn name_file<D: TreeDisk, N: Namer>(
    alloc: Global,
    disk: &mut D,
    namer: &N,
    path: &Path,
    size: u64,
) -> Result<[u8; 20], Stop>
    requires file { IsTrue D.disk.tells → IsTrue (is_file_at (D.disk.reads disk.old) path.now) }
    requires size { IsTrue D.disk.tells → length (bytes_at (D.disk.reads disk.old) path.now) ≡ size }
    ensures tests { Tests D.disk (λ name. name)
        (λ tree. Ok (N.name_of namer.now (bytes_at tree path.now)))
        disk.old disk.new result }
    ensures stops { IfErr result IsDiskStop }
{
    let mut buf = vec![in alloc; 0u8; piece_room(size)]?;
    let mut naming = namer.begin();
    add_file(alloc, disk, namer, &mut naming, path, size, &mut buf)?;
    Ok(namer.end(naming))
}
