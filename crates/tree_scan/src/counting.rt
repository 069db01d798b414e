//! In how many bytes a file differs from a content.
ghost use Rattle.std.specs.Prelude.{◌≡◌, ◌<◌, ◌≤◌, ◌-◌, IfErr, IfOk, IsTrue, Ok, drop, length, min};
ghost use Rattle.tree_disk.specs.cny-base.Compare.{count_of_differing};
ghost use Rattle.tree_disk.specs.Rows.{bytes_at, is_file_at};
ghost use Rattle.tree_disk.specs.Steps.{IsDiskStop, Tests};
ghost use Rattle.tree_scan.specs.Differing.{count_of_differing_bytes};

use std::alloc::Global;
use tree_disk::cny_base::{Path, Stop, count_different};
use tree_disk::{TreeDisk, piece_room, room_for, steps};

// How many bytes of a piece were read, and how many of them differ.
#[derive(Clone, Copy)]
struct Compared {
    read: usize,
    differing: usize,
}

// Compares as many of these bytes with a file, from a place of it on, as the file has there.
fn compare_piece<D: TreeDisk>(
    alloc: Global,
    disk: &mut D,
    path: &Path,
    at: u64,
    own: &[u8],
    buf: &mut [u8],
) -> Result<Compared, Stop>
    requires file { IsTrue D.disk.tells → IsTrue (is_file_at (D.disk.reads disk.old) path.now) }
    requires same { length buf.old ≡ length own.now }
    ensures tests { Tests D.disk (λ compared. compared.read)
        (λ tree. Ok (min (length own.now) (length (bytes_at tree path.now) - at)))
        disk.old disk.new result }
    ensures differing { IsTrue D.disk.tells → IfOk result (λ compared.
        compared.differing ≡ count_of_differing (drop at (bytes_at (D.disk.reads disk.old) path.now)) own.now) }
    ensures few { IfOk result (λ compared. compared.differing ≤ compared.read) }
    ensures most { IfOk result (λ compared. compared.read ≤ length own.now) }
    ensures stops { IfErr result IsDiskStop }
{
    let read = steps::read_at(alloc, disk, path, at, buf)?;
    let differing = count_different(&buf[..read], &own[..read]);
    Ok(Compared { read, differing })
}

// At how many places a file differs from these bytes, piece by piece. Where the file is shorter, its end ends them.
fn pieces_differing<D: TreeDisk>(
    alloc: Global,
    disk: &mut D,
    path: &Path,
    bytes: &[u8],
    buf: &mut [u8],
) -> Result<usize, Stop>
    requires file { IsTrue D.disk.tells → IsTrue (is_file_at (D.disk.reads disk.old) path.now) }
    requires room { 0 < length buf.old }
    ensures tests { Tests D.disk (λ count. count)
        (λ tree. Ok (count_of_differing (bytes_at tree path.now) bytes.now))
        disk.old disk.new result }
    ensures within { IfOk result (λ count. count ≤ length bytes.now) }
    ensures stops { IfErr result IsDiskStop }
{
    let mut at = 0;
    let mut count = 0;
    'pieces: while at < bytes.len() {
        let rest = &bytes[at..];
        let room = rest.len().min(buf.len());
        let piece = compare_piece(
            alloc,
            disk,
            path,
            at as u64,
            &rest[..room],
            &mut buf[..room],
        )?;
        if piece.read == 0 {
            return Ok(count);
        }
        count += piece.differing;
        at += piece.read;
    }
    Ok(count)
}

/// In how many bytes a file differs from these: at how many places both have a byte and these differ, and how many places
/// only one of them has. The file is read in pieces, and counted by the vector kernels.
///
/// Where the disk tells its tree a file stands at the path. `Failed` comes only where the disk's count of faults rose, and of
/// the other stops want of memory alone.
pub fn differing<D: TreeDisk>(
    alloc: Global,
    disk: &mut D,
    path: &Path,
    bytes: &[u8],
) -> Result<u64, Stop>
    requires { IsTrue D.disk.tells → IsTrue (is_file_at (D.disk.reads disk.old) path.now) }
    ensures tests { Tests D.disk (λ count. count)
        (λ tree. Ok (count_of_differing_bytes (bytes_at tree path.now) bytes.now))
        disk.old disk.new result }
    ensures stops { IfErr result IsDiskStop }
{
    let look = steps::look(alloc, disk, path)?;
    let size = look.size().unwrap_or(0);
    let common = room_for(size, bytes.len());
    let mut buf = vec![in alloc; 0u8; piece_room(common as u64)]?;
    let count = pieces_differing(alloc, disk, path, &bytes[..common], &mut buf)?;
    Ok(count as u64 + size.abs_diff(bytes.len() as u64))
}
