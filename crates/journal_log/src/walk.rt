//! A file read where it is a stream of items, or small.
ghost use Rattle.std.specs.Prelude.{◌≡◌, ◌≤◌, ◌+◌, IfErr, IfOk, IfSome, IsTrue, Ok, length};
ghost use Rattle.tree_disk.specs.cny-base.Below.{begins_with};
ghost use Rattle.tree_disk.specs.Rows.{bytes_at, is_file_at};
ghost use Rattle.tree_disk.specs.Steps.{IsDiskStop, Tests};
ghost use Rattle.journal_log.specs.Walk as spec;
ghost use Rattle.journal_log.specs.Walk.{are_items, size_in, stream_read};

use std::alloc::Global;
use tree_disk::cny_base::{Bytes, Path, Stop};
use tree_disk::{TreeDisk, steps};

/// The most bytes of a file that is read whatever it holds.
pub(crate) const LARGE: u64 = 1_048_576;

/// How many bytes a magic has.
pub(crate) const MAGIC_LEN: usize = 8;

/// How many bytes a head has: a tag, and the length of the value in four bytes.
pub(crate) const HEAD_LEN: usize = 5;

// How long the item is with which bytes begin, of which there are so many, by its head, or by all of them where there are fewer.
fn item_size(head: &[u8], left: u64, tags: &[u8]) -> Option<u64>
    ensures size { result ≡ spec.item_size tags.now left head.now }
    ensures within { IfSome result (λ size. (5 ≤ size) × (size ≤ left)) }
{
    if head.len() < HEAD_LEN || !tags.contains(&head[0]) {
        return None;
    }
    let len = u32::from_be_bytes([head[1], head[2], head[3], head[4]]);
    let size = 5 + u64::from(len);
    if left < size {
        return None;
    }
    Some(size)
}

// How long the item is that begins at a place of a file, which has so many bytes. Its head is read alone.
fn size_at<D: TreeDisk>(
    alloc: Global,
    disk: &mut D,
    path: &Path,
    size: u64,
    at: u64,
    tags: &[u8],
) -> Result<Option<u64>, Stop>
    requires file { IsTrue D.disk.tells → IsTrue (is_file_at (D.disk.reads disk.old) path.now) }
    requires size { IsTrue D.disk.tells → length (bytes_at (D.disk.reads disk.old) path.now) ≡ size }
    requires within { at ≤ size }
    ensures tests { Tests D.disk (λ found. found)
        (λ tree. Ok (size_in tags.now at (bytes_at tree path.now)))
        disk.old disk.new result }
    ensures within { IfOk result (λ found. IfSome found (λ len. (5 ≤ len) × (at + len ≤ size))) }
    ensures stops { IfErr result IsDiskStop }
{
    let mut head = [0u8; HEAD_LEN];
    let count = steps::read_at(alloc, disk, path, at, &mut head)?;
    Ok(item_size(&head[..count], size - at, tags))
}

// Whether items with these tags, one behind the other, are all that a file of so many bytes has from a place on. Only their heads are
// read.
fn leads_to_end<D: TreeDisk>(
    alloc: Global,
    disk: &mut D,
    path: &Path,
    size: u64,
    from: u64,
    tags: &[u8],
) -> Result<bool, Stop>
    requires file { IsTrue D.disk.tells → IsTrue (is_file_at (D.disk.reads disk.old) path.now) }
    requires size { IsTrue D.disk.tells → length (bytes_at (D.disk.reads disk.old) path.now) ≡ size }
    requires within { from ≤ size }
    ensures tests { Tests D.disk (λ leads. leads)
        (λ tree. Ok (are_items tags.now from (bytes_at tree path.now)))
        disk.old disk.new result }
    ensures stops { IfErr result IsDiskStop }
{
    let mut at = from;
    'items: while at < size {
        let Some(len) = size_at(alloc, disk, path, size, at, tags)? else {
            return Ok(false);
        };
        at += len;
    }
    Ok(true)
}

// Whether a file begins with the magic.
fn begins_with_magic<D: TreeDisk>(
    alloc: Global,
    disk: &mut D,
    path: &Path,
    magic: &[u8],
) -> Result<bool, Stop>
    requires file { IsTrue D.disk.tells → IsTrue (is_file_at (D.disk.reads disk.old) path.now) }
    requires magic { length magic.now ≡ 8 }
    ensures tests { Tests D.disk (λ begins. begins)
        (λ tree. Ok (begins_with magic.now (bytes_at tree path.now)))
        disk.old disk.new result }
    ensures stops { IfErr result IsDiskStop }
{
    let mut front = [0u8; MAGIC_LEN];
    let count = steps::read_at(alloc, disk, path, 0, &mut front)?;
    Ok(&front[..count] == magic)
}

// Whether a file of so many bytes, eight or more, is a stream of this magic and of items with these tags.
fn is_stream<D: TreeDisk>(
    alloc: Global,
    disk: &mut D,
    path: &Path,
    size: u64,
    magic: &[u8],
    tags: &[u8],
) -> Result<bool, Stop>
    requires file { IsTrue D.disk.tells → IsTrue (is_file_at (D.disk.reads disk.old) path.now) }
    requires size { IsTrue D.disk.tells → length (bytes_at (D.disk.reads disk.old) path.now) ≡ size }
    requires long { 8 ≤ size }
    requires magic { length magic.now ≡ 8 }
    ensures tests { Tests D.disk (λ is. is)
        (λ tree. Ok (spec.is_stream magic.now tags.now (bytes_at tree path.now)))
        disk.old disk.new result }
    ensures stops { IfErr result IsDiskStop }
{
    if !begins_with_magic(alloc, disk, path, magic)? {
        return Ok(false);
    }
    leads_to_end(alloc, disk, path, size, MAGIC_LEN as u64, tags)
}

/// The bytes of the file at a path, which has so many; none where these are more than 1,048,576 and it isn't a stream of this magic
/// of eight bytes and of items with these tags. Of such a file only the magic and the heads of the items are read, so that it is told without its
/// bytes that it is longer, or shorter, than its items.
///
/// `Failed` comes only where the disk's count of faults rose, and of the other stops want of memory alone.
pub fn read_stream<D: TreeDisk>(
    alloc: Global,
    disk: &mut D,
    path: &Path,
    size: u64,
    magic: &[u8],
    tags: &[u8],
) -> Result<Option<Bytes>, Stop>
    requires file { IsTrue D.disk.tells → IsTrue (is_file_at (D.disk.reads disk.old) path.now) }
    requires size { IsTrue D.disk.tells → length (bytes_at (D.disk.reads disk.old) path.now) ≡ size }
    requires magic { length magic.now ≡ 8 }
    ensures tests { Tests D.disk (λ found. found)
        (λ tree. Ok (stream_read magic.now tags.now (bytes_at tree path.now)))
        disk.old disk.new result }
    ensures stops { IfErr result IsDiskStop }
{
    if size > LARGE && !is_stream(alloc, disk, path, size, magic, tags)? {
        return Ok(None);
    }
    steps::read_whole(alloc, disk, path, size)
}
