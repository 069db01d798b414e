// Files compared with bytes and with each other, in pieces of bounded size.
ghost use Rattle.std.specs.Prelude.{◌≡◌, ◌≤◌, ◌<◌, IfErr, IfOk, IfSome, IsTrue, Ok, length, drop, take};
ghost use Rattle.tree_disk.specs.Rows.{bytes_at, is_file_at};
ghost use Rattle.tree_disk.specs.Steps.{IsDiskStop, Tests};
ghost use Rattle.content_store.specs.Difference.{first_difference};

use crate::difference::difference;
use std::alloc::Global;
use tree_disk::cny_base::{Path, Stop};
use tree_disk::{TreeDisk, piece_room, room_for, steps};

// Compares some bytes with those of a file from a place on, as many as these are.
fn piece_differs<D: TreeDisk>(
    alloc: Global,
    disk: &mut D,
    path: &Path,
    at: u64,
    own: &[u8],
    buf: &mut [u8],
) -> Result<Option<usize>, Stop>
    requires file { IsTrue D.disk.tells → IsTrue (is_file_at (D.disk.reads disk.old) path.now) }
    requires same { length buf.old ≡ length own.now }
    ensures tests { Tests D.disk (λ found. found)
        (λ tree. Ok (first_difference (take (length own.now) (drop at (bytes_at tree path.now))) own.now))
        disk.old disk.new result }
    ensures within { IfOk result (λ found. IfSome found (λ place. place ≤ length own.now)) }
    ensures stops { IfErr result IsDiskStop }
{
    let count = steps::read_at(alloc, disk, path, at, buf)?;
    Ok(difference(&buf[..count], own))
}

// Compares a file, which has `size` bytes, with these, piece by piece.
fn pieces_of_file<D: TreeDisk>(
    alloc: Global,
    disk: &mut D,
    path: &Path,
    size: u64,
    bytes: &[u8],
    buf: &mut [u8],
) -> Result<Option<u64>, Stop>
    requires file { IsTrue D.disk.tells → IsTrue (is_file_at (D.disk.reads disk.old) path.now) }
    requires size { IsTrue D.disk.tells → length (bytes_at (D.disk.reads disk.old) path.now) ≡ size }
    requires room { 0 < length buf.old }
    ensures tests { Tests D.disk (λ found. found)
        (λ tree. Ok (first_difference (bytes_at tree path.now) bytes.now))
        disk.old disk.new result }
    ensures stops { IfErr result IsDiskStop }
{
    let mut at = 0;
    'pieces: while at < bytes.len() {
        let rest = &bytes[at..];
        let room = rest.len().min(buf.len());
        let own = &rest[..room];
        let found = piece_differs(alloc, disk, path, at as u64, own, &mut buf[..room])?;
        if let Some(place) = found {
            return Ok(Some((at + place) as u64));
        }
        at += room;
    }
    if size > at as u64 {
        return Ok(Some(at as u64));
    }
    Ok(None)
}

/// The first place at which the bytes of a file, which has `size` of them, differ from these.
pub fn file_differs<D: TreeDisk>(
    alloc: Global,
    disk: &mut D,
    path: &Path,
    size: u64,
    bytes: &[u8],
) -> Result<Option<u64>, Stop>
    requires file { IsTrue D.disk.tells → IsTrue (is_file_at (D.disk.reads disk.old) path.now) }
    requires size { IsTrue D.disk.tells → length (bytes_at (D.disk.reads disk.old) path.now) ≡ size }
    ensures tests { Tests D.disk (λ found. found)
        (λ tree. Ok (first_difference (bytes_at tree path.now) bytes.now))
        disk.old disk.new result }
    ensures stops { IfErr result IsDiskStop }
{
    let mut buf = vec![in alloc; 0u8; piece_room(bytes.len() as u64)]?;
    pieces_of_file(alloc, disk, path, size, bytes, &mut buf)
}

// Compares the pieces of two files from a place on, each up to its file's end.
fn pieces_differ<D: TreeDisk>(
    alloc: Global,
    disk: &mut D,
    path: &Path,
    other: &Path,
    at: u64,
    buf: &mut [u8],
    own: &mut [u8],
) -> Result<Option<usize>, Stop>
    requires file { IsTrue D.disk.tells → IsTrue (is_file_at (D.disk.reads disk.old) path.now) }
    requires other { IsTrue D.disk.tells → IsTrue (is_file_at (D.disk.reads disk.old) other.now) }
    requires same { length buf.old ≡ length own.old }
    ensures tests { Tests D.disk (λ found. found)
        (λ tree. Ok (first_difference (take (length own.old) (drop at (bytes_at tree path.now))) (take (length own.old) (drop at (bytes_at tree other.now)))))
        disk.old disk.new result }
    ensures within { IfOk result (λ found. IfSome found (λ place. place ≤ length own.old)) }
    ensures stops { IfErr result IsDiskStop }
{
    let kept = steps::read_at(alloc, disk, path, at, buf)?;
    let count = steps::read_at(alloc, disk, other, at, own)?;
    Ok(difference(&buf[..kept], &own[..count]))
}

// Compares two files, which have so many bytes, piece by piece.
fn pieces_of_files<D: TreeDisk>(
    alloc: Global,
    disk: &mut D,
    path: &Path,
    size: u64,
    other: &Path,
    other_size: u64,
    buf: &mut [u8],
    own: &mut [u8],
) -> Result<Option<u64>, Stop>
    requires file { IsTrue D.disk.tells → IsTrue (is_file_at (D.disk.reads disk.old) path.now) }
    requires size { IsTrue D.disk.tells → length (bytes_at (D.disk.reads disk.old) path.now) ≡ size }
    requires other { IsTrue D.disk.tells → IsTrue (is_file_at (D.disk.reads disk.old) other.now) }
    requires other_size { IsTrue D.disk.tells → length (bytes_at (D.disk.reads disk.old) other.now) ≡ other_size }
    requires room { 0 < length buf.old }
    requires same { length buf.old ≡ length own.old }
    ensures tests { Tests D.disk (λ found. found)
        (λ tree. Ok (first_difference (bytes_at tree path.now) (bytes_at tree other.now)))
        disk.old disk.new result }
    ensures stops { IfErr result IsDiskStop }
{
    let mut at = 0;
    'pieces: while at < other_size {
        let room = room_for(other_size - at, buf.len());
        let found = pieces_differ(
            alloc,
            disk,
            path,
            other,
            at,
            &mut buf[..room],
            &mut own[..room],
        )?;
        if let Some(place) = found {
            return Ok(Some(at + place as u64));
        }
        at += room as u64;
    }
    if size > at {
        return Ok(Some(at));
    }
    Ok(None)
}

/// The first place at which two files, which have so many bytes, differ.
pub fn files_differ<D: TreeDisk>(
    alloc: Global,
    disk: &mut D,
    path: &Path,
    size: u64,
    other: &Path,
    other_size: u64,
) -> Result<Option<u64>, Stop>
    requires file { IsTrue D.disk.tells → IsTrue (is_file_at (D.disk.reads disk.old) path.now) }
    requires size { IsTrue D.disk.tells → length (bytes_at (D.disk.reads disk.old) path.now) ≡ size }
    requires other { IsTrue D.disk.tells → IsTrue (is_file_at (D.disk.reads disk.old) other.now) }
    requires other_size { IsTrue D.disk.tells → length (bytes_at (D.disk.reads disk.old) other.now) ≡ other_size }
    ensures tests { Tests D.disk (λ found. found)
        (λ tree. Ok (first_difference (bytes_at tree path.now) (bytes_at tree other.now)))
        disk.old disk.new result }
    ensures stops { IfErr result IsDiskStop }
{
    let room = piece_room(other_size);
    let mut buf = vec![in alloc; 0u8; room]?;
    let mut own = vec![in alloc; 0u8; room]?;
    pieces_of_files(
        alloc, disk, path, size, other, other_size, &mut buf, &mut own,
    )
}
