//! Contents put into a store.
ghost use Rattle.std.specs.Prelude.{◌≡◌, ◌≤◌, IfErr, IfOk, IsTrue, OnOk, Some, length};
ghost use Rattle.tree_disk.specs.Rows.{bytes_at, is_file_at};
ghost use Rattle.content_store.specs.Outcome.{move_names, move_outcome, put_names, put_outcome, CanPut, Decides, IsCollision, IsCollisionOf, PutStops};
ghost use Rattle.content_store.specs.Store.{content_path, stored};

use crate::keep::keep;
use crate::move_in::move_in;
use crate::name_file::{name_file, size_of};
use crate::namer::Namer;
use crate::path_of::path_of;
use std::alloc::Global;
use tree_disk::TreeDisk;
use tree_disk::cny_base::{Path, Stop};

/// Puts a content into the store of a directory, and answers its name. Where a file of that name stands already its bytes
/// are compared: `Collision` exactly where they differ, with the first difference.
///
/// The directory has at most 983 bytes. Where the disk tells its tree it stands, and at the content's path nothing or a
/// file. `Failed` comes only where the disk's count of faults rose. Other refusals and stops never come.
pub fn put<D: TreeDisk, N: Namer>(
    alloc: Global,
    disk: &mut D,
    namer: &N,
    dir: &Path,
    bytes: &[u8],
) -> Result<[u8; 20], Stop>
    requires short { length dir.now ≤ 983 }
    requires can { IsTrue D.disk.tells
        → CanPut (D.disk.reads disk.old) dir.now (content_path dir.now (N.name_of namer.now bytes.now)) }
    ensures name { IfOk result (λ name. name ≡ N.name_of namer.now bytes.now) }
    // Where nothing stood there, a file of mode 0600 is made; else nothing changes. However it ends, at every moment.
    ensures decides { let path = content_path dir.now (N.name_of namer.now bytes.now) in
        Decides D.disk (put_names path) (put_outcome path (N.name_of namer.now bytes.now) bytes.now)
        disk.old disk.new result }
    // Then the store has these bytes under that name.
    ensures stored { IsTrue D.disk.tells
        → OnOk result (stored (D.disk.reads disk.new) dir.now (N.name_of namer.now bytes.now) ≡ Some bytes.now) }
    // On every disk, also where it tells nothing: the only refusal is a collision of that name.
    ensures stops { IfErr result (PutStops (IsCollisionOf (N.name_of namer.now bytes.now))
        (D.disk.faults disk.old) (D.disk.faults disk.new)) }
{
    let name = namer.name(bytes);
    let path = path_of(alloc, dir, &name)?;
    keep(alloc, disk, dir, &path, &name, bytes)?;
    Ok(name)
}

/// Puts the content of a file into the store of a directory as `put` does, and answers its name. The file is moved where
/// nothing of that name stood, and else stays. It is read, and compared with what stands, in pieces.
///
/// The conditions are those of `put`, and where the disk tells its tree a file stands at `from`.
pub fn put_file<D: TreeDisk, N: Namer>(
    alloc: Global,
    disk: &mut D,
    namer: &N,
    dir: &Path,
    from: &Path,
) -> Result<[u8; 20], Stop>
    requires short { length dir.now ≤ 983 }
    requires from { IsTrue D.disk.tells → IsTrue (is_file_at (D.disk.reads disk.old) from.now) }
    requires can { IsTrue D.disk.tells
        → CanPut (D.disk.reads disk.old) dir.now
        (content_path dir.now (N.name_of namer.now (bytes_at (D.disk.reads disk.old) from.now))) }
    ensures name { IsTrue D.disk.tells
        → IfOk result (λ name. name ≡ N.name_of namer.now (bytes_at (D.disk.reads disk.old) from.now)) }
    // Where nothing stood there, the file is moved; else nothing changes. However it ends, at every moment.
    ensures decides { let bytes = bytes_at (D.disk.reads disk.old) from.now in
        let path = content_path dir.now (N.name_of namer.now bytes) in
        Decides D.disk (move_names path from.now) (move_outcome path (N.name_of namer.now bytes) from.now)
        disk.old disk.new result }
    // Then the store has the file's bytes under that name.
    ensures stored { IsTrue D.disk.tells
        → let bytes = bytes_at (D.disk.reads disk.old) from.now in
        OnOk result (stored (D.disk.reads disk.new) dir.now (N.name_of namer.now bytes) ≡ Some bytes) }
    // On every disk, also where it tells nothing: the only refusal is a collision.
    ensures stops { IfErr result (PutStops IsCollision (D.disk.faults disk.old) (D.disk.faults disk.new)) }
{
    let size = size_of(alloc, disk, from)?;
    let name = name_file(alloc, disk, namer, from, size)?;
    let path = path_of(alloc, dir, &name)?;
    move_in(alloc, disk, dir, &path, &name, from, size)?;
    Ok(name)
}
