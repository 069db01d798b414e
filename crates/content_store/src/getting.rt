//! Contents read from a store, and cleared.
ghost use Rattle.std.specs.Prelude.{IfErr, IsTrue, OnOk, Ok, is_some};
ghost use Rattle.tree_disk.specs.Clear.{is_within, without_tree, IsBare};
ghost use Rattle.tree_disk.specs.Steps.{IsDiskStop, Makes, Tests};
ghost use Rattle.std.specs.FinMap as map;
ghost use Rattle.content_store.specs.Store.{content_path, file_bytes, stored};

use crate::path_of::{LONGEST_DIR, path_of};
use std::alloc::Global;
use tree_disk::cny_base::{Bytes, Path, Stop};
use tree_disk::{TreeDisk, steps};

/// The bytes of the file at a path, where one stands.
pub fn file_at<D: TreeDisk>(alloc: Global, disk: &mut D, path: &Path) -> Result<Option<Bytes>, Stop>
    ensures tests { Tests D.disk (λ found. found)
        (λ tree. Ok (file_bytes (map.get tree path.now)))
        disk.old disk.new result }
    ensures stops { IfErr result IsDiskStop }
{
    let look = steps::look(alloc, disk, path)?;
    match look.size() {
        Some(_) => steps::read_whole(alloc, disk, path, u64::MAX),
        None => Ok(None),
    }
}

/// The content of a name in the store of a directory, and none exactly where no file of that name stands. Its bytes aren't
/// tested against the name.
///
/// `Failed` comes only where the disk's count of faults rose, and of the other stops want of memory alone.
pub fn get<D: TreeDisk>(
    alloc: Global,
    disk: &mut D,
    dir: &Path,
    name: &[u8; 20],
) -> Result<Option<Bytes>, Stop>
    ensures tests { Tests D.disk (λ found. found)
        (λ tree. Ok (stored tree dir.now name.now))
        disk.old disk.new result }
    ensures stops { IfErr result IsDiskStop }
{
    if dir.text().len() > LONGEST_DIR {
        return Ok(None);
    }
    let path = path_of(alloc, dir, name)?;
    file_at(alloc, disk, &path)
}

/// Whether a file of that name stands in the store of a directory. It stops as `get` does.
pub fn has<D: TreeDisk>(
    alloc: Global,
    disk: &mut D,
    dir: &Path,
    name: &[u8; 20],
) -> Result<bool, Stop>
    ensures tests { Tests D.disk (λ found. found)
        (λ tree. Ok (is_some (stored tree dir.now name.now)))
        disk.old disk.new result }
    ensures stops { IfErr result IsDiskStop }
{
    if dir.text().len() > LONGEST_DIR {
        return Ok(false);
    }
    let path = path_of(alloc, dir, name)?;
    let look = steps::look(alloc, disk, &path)?;
    Ok(look.is_file())
}

/// Takes away what stands under a name in the store of a directory, and all below it.
///
/// `Failed` comes only where the disk's count of faults rose, and of the other stops want of memory alone.
pub fn clear<D: TreeDisk>(
    alloc: Global,
    disk: &mut D,
    dir: &Path,
    name: &[u8; 20],
) -> Result<(), Stop>
    ensures makes { let path = content_path dir.now name.now in
        Makes D.disk (is_within path) (λ tree. without_tree tree path) disk.old disk.new result }
    // Then nothing stands there.
    ensures cleared { IsTrue D.disk.tells
        → OnOk result (IsBare (D.disk.reads disk.new) (content_path dir.now name.now)) }
{
    if dir.text().len() > LONGEST_DIR {
        return Ok(());
    }
    let path = path_of(alloc, dir, name)?;
    steps::clear_tree(alloc, disk, &path)
}
