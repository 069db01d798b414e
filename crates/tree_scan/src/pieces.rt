// The bytes of files, read in pieces of bounded size.
ghost use Rattle.std.specs.Prelude.{◌≡◌, ◌<◌, ◌≤◌, ◌-◌, ◌++◌, List, ℕ, [], IfErr, IfOk, IsTrue, OnOk, Ok, drop, length, min, take};
ghost use Rattle.sha1.specs.Sha1.{sha1, Holds};
ghost use Rattle.tree_disk.specs.Rows.{bytes_at, is_file_at};
ghost use Rattle.tree_disk.specs.Steps.{IsDiskStop, Tests};

use sha1::Sha1;
use std::alloc::Global;
use tree_disk::cny_base::{Path, Stop};
use tree_disk::{TreeDisk, piece_room, room_for, steps};

// Gives a hasher the next piece of a file, as long as there is room and file, and answers how long that is.
fn hash_piece<D: TreeDisk>(
    alloc: Global,
    disk: &mut D,
    hasher: &mut Sha1,
    path: &Path,
    at: u64,
    buf: &mut [u8],
) -> Result<usize, Stop>
    requires { IsTrue D.disk.tells → IsTrue (is_file_at (D.disk.reads disk.old) path.now) }
    ensures tests { Tests D.disk (λ count. count)
        (λ tree. Ok (min (length buf.old) (length (bytes_at tree path.now) - at)))
        disk.old disk.new result }
    ensures most { IfOk result (λ count. count ≤ length buf.old) }
    ensures given { IsTrue D.disk.tells → (bytes : List ℕ) → Holds hasher.old bytes
        → OnOk result (Holds hasher.new (bytes ++ take (length buf.old) (drop at (bytes_at (D.disk.reads disk.old) path.now)))) }
    ensures stops { IfErr result IsDiskStop }
{
    let count = steps::read_at(alloc, disk, path, at, buf)?;
    hasher.update(&buf[..count]);
    Ok(count)
}

// Gives a hasher the bytes of a file of this size, piece by piece. Where the file is shorter, its end ends them.
fn hash_pieces<D: TreeDisk>(
    alloc: Global,
    disk: &mut D,
    hasher: &mut Sha1,
    path: &Path,
    size: u64,
    buf: &mut [u8],
) -> Result<(), Stop>
    requires file { IsTrue D.disk.tells → IsTrue (is_file_at (D.disk.reads disk.old) path.now) }
    requires size { IsTrue D.disk.tells → length (bytes_at (D.disk.reads disk.old) path.now) ≡ size }
    requires empty { Holds hasher.old [] }
    requires room { 0 < length buf.old }
    ensures tests { Tests D.disk (λ done. done) (λ tree. Ok tt) disk.old disk.new result }
    ensures given { IsTrue D.disk.tells → OnOk result (Holds hasher.new (bytes_at (D.disk.reads disk.old) path.now)) }
    ensures stops { IfErr result IsDiskStop }
{
    let mut at = 0;
    'pieces: while at < size {
        let room = room_for(size - at, buf.len());
        let count = hash_piece(alloc, disk, hasher, path, at, &mut buf[..room])?;
        if count == 0 {
            return Ok(());
        }
        at += count as u64;
    }
    Ok(())
}

/// The SHA-1 of a file of this size.
pub fn hash_file<D: TreeDisk>(
    alloc: Global,
    disk: &mut D,
    path: &Path,
    size: u64,
) -> Result<[u8; 20], Stop>
    requires file { IsTrue D.disk.tells → IsTrue (is_file_at (D.disk.reads disk.old) path.now) }
    requires size { IsTrue D.disk.tells → length (bytes_at (D.disk.reads disk.old) path.now) ≡ size }
    ensures tests { Tests D.disk (λ name. name)
        (λ tree. Ok (sha1 (bytes_at tree path.now)))
        disk.old disk.new result }
    ensures stops { IfErr result IsDiskStop }
{
    let mut buf = vec![in alloc; 0u8; piece_room(size)]?;
    let mut hasher = Sha1::new();
    hash_pieces(alloc, disk, &mut hasher, path, size, &mut buf)?;
    Ok(hasher.finalize())
}
