// A file's bytes, over any disk.
ghost use Rattle.std.specs.Prelude.{◌≡◌, ◌<◌, ◌≤◌, ◌+◌, ◌-◌, [], true, length, IfOk, OnOk, OnErr, IfSome, IsErrOf, IsTrue};
ghost use Rattle.tree_disk.specs.declared.disk.DiskStop.TheVariants.{Failed, Refused};
ghost use Rattle.tree_disk.specs.Rows.{bytes_at, is_file_at};
ghost use Rattle.tree_disk.specs.Disk.{HasCause, Reads};
ghost use Rattle.cny_base.specs.Count.{Rose};
ghost use Rattle.tree_disk.specs.Whole.{IsWhole};
ghost use Rattle.tree_disk.specs.Whole as whole;

use crate::pieces::room_for;
use crate::{DiskStop, TreeDisk};
use cny_base::{Bytes, Path};
use std::alloc::Global;

// How many bytes one call reads.
const CHUNK: usize = 4096;

/// The bytes of the file at a path, and none exactly where it holds more than `most`. A file stands
/// there, where the disk tells its tree.
pub fn read_whole<D: TreeDisk>(
    alloc: Global,
    disk: &mut D,
    path: &Path,
    most: u64,
) -> Result<Option<Bytes>, DiskStop>
    requires { IsTrue D.disk.tells → IsTrue (is_file_at (D.disk.reads disk.old) path.now) }
    ensures told { Reads D.disk disk.old disk.new
        (IfOk result (IsWhole (bytes_at (D.disk.reads disk.old) path.now) most)) }
    // On every disk, also where the file grows while it is read.
    ensures most { IfOk result (λ whole. IfSome whole (λ bytes. length bytes ≤ most)) }
    ensures later { D.disk.faults disk.old ≤ D.disk.faults disk.new }
    ensures failed { IsErrOf result Failed → Rose (D.disk.faults disk.old) (D.disk.faults disk.new) }
    ensures not_refused { ¬ (IsErrOf result Refused) }
{
    let size = size_at(alloc, disk, path)?;
    if size > most {
        return Ok(None);
    }
    Ok(Some(read_bytes(alloc, disk, path, size)?))
}

// How many bytes a file holds.
fn size_at<D: TreeDisk>(alloc: Global, disk: &mut D, path: &Path) -> Result<u64, DiskStop>
    requires { IsTrue D.disk.tells → IsTrue (is_file_at (D.disk.reads disk.old) path.now) }
    ensures told { Reads D.disk disk.old disk.new
        (IfOk result (λ size. size ≡ length (bytes_at (D.disk.reads disk.old) path.now))) }
    ensures cause { HasCause D.disk true disk.old disk.new result }
{
    let look = disk.look(alloc, path)?;
    Ok(look.size().unwrap_or(0))
}

// The bytes of a file of this size.
fn read_bytes<D: TreeDisk>(
    alloc: Global,
    disk: &mut D,
    path: &Path,
    size: u64,
) -> Result<Bytes, DiskStop>
    requires file { IsTrue D.disk.tells → IsTrue (is_file_at (D.disk.reads disk.old) path.now) }
    requires size { IsTrue D.disk.tells → length (bytes_at (D.disk.reads disk.old) path.now) ≡ size }
    ensures told { Reads D.disk disk.old disk.new
        (IfOk result (λ bytes. bytes ≡ bytes_at (D.disk.reads disk.old) path.now)) }
    ensures most { IfOk result (λ bytes. length bytes ≤ size) }
    ensures later { D.disk.faults disk.old ≤ D.disk.faults disk.new }
    ensures failed { IsErrOf result Failed → Rose (D.disk.faults disk.old) (D.disk.faults disk.new) }
    ensures not_refused { ¬ (IsErrOf result Refused) }
{
    let mut chunk = vec![in alloc; 0u8; CHUNK]?;
    let mut bytes = Vec::new(alloc);
    fill(alloc, disk, path, size, &mut chunk, &mut bytes)?;
    Ok(Bytes::from_vec(bytes))
}

// Reads a file of this size, piece by piece, by way of a chunk, up to a piece that is empty.
fn fill<D: TreeDisk>(
    alloc: Global,
    disk: &mut D,
    path: &Path,
    size: u64,
    chunk: &mut [u8],
    bytes: &mut Vec<u8>,
) -> Result<(), DiskStop>
    requires file { IsTrue D.disk.tells → IsTrue (is_file_at (D.disk.reads disk.old) path.now) }
    requires size { IsTrue D.disk.tells → length (bytes_at (D.disk.reads disk.old) path.now) ≡ size }
    requires room { 0 < length chunk.old }
    requires empty { bytes.old.items ≡ [] }
    ensures told { Reads D.disk disk.old disk.new
        (OnOk result (bytes.new.items ≡ bytes_at (D.disk.reads disk.old) path.now)) }
    ensures most { length bytes.new.items ≤ size }
    ensures later { D.disk.faults disk.old ≤ D.disk.faults disk.new }
    ensures failed { IsErrOf result Failed → Rose (D.disk.faults disk.old) (D.disk.faults disk.new) }
    ensures not_refused { ¬ (IsErrOf result Refused) }
{
    'pieces: while (bytes.len() as u64) < size {
        let room = room_for(size - bytes.len() as u64, chunk.len());
        let count = read_piece(alloc, disk, path, &mut chunk[..room], bytes)?;
        if count == 0 {
            return Ok(());
        }
    }
    Ok(())
}

// Reads the next piece and adds it.
fn read_piece<D: TreeDisk>(
    alloc: Global,
    disk: &mut D,
    path: &Path,
    chunk: &mut [u8],
    bytes: &mut Vec<u8>,
) -> Result<usize, DiskStop>
    requires { IsTrue D.disk.tells → IsTrue (is_file_at (D.disk.reads disk.old) path.now) }
    ensures told { Reads D.disk disk.old disk.new
        (IfOk result (whole.IsPiece (bytes_at (D.disk.reads disk.old) path.now) (length chunk.old)
        bytes.old.items bytes.new.items)) }
    ensures longer { IfOk result (λ count. length bytes.new.items ≡ length bytes.old.items + count) }
    ensures most { IfOk result (λ count. count ≤ length chunk.old) }
    ensures same { OnErr result (bytes.new.items ≡ bytes.old.items) }
    ensures later { D.disk.faults disk.old ≤ D.disk.faults disk.new }
    ensures failed { IsErrOf result Failed → Rose (D.disk.faults disk.old) (D.disk.faults disk.new) }
    ensures not_refused { ¬ (IsErrOf result Refused) }
{
    let count = disk.read_at(alloc, path, bytes.len() as u64, chunk)?;
    bytes.extend_from_slice(&chunk[..count])?;
    Ok(count)
}
