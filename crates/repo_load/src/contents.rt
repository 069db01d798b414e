//! Contents of a repository.
ghost use Rattle.std.specs.Prelude.{◌↔◌, IfErr, IfOk, IsTrue, Ok};
ghost use Rattle.std.specs.FinMap.{get};
ghost use Rattle.content_store.specs.Store.{file_bytes};
ghost use Rattle.journal_log.specs.tree-disk.Steps.{IsDiskStop, Tests};
ghost use Rattle.repo_load.specs.Contents as spec;
ghost use Rattle.repo_load.specs.Contents.{FindsContent, IsDamagedContent, IsRecorded, IsSoundAnswer};
ghost use Rattle.repo_load.specs.Looks.{Looks};

use crate::names::content_path;
use journal_log::tree_disk::{TreeDisk, steps};
use repo_index::Catalogue;
use repo_index::cny_base::{Bytes, Path, Stop};
use sha1::Sha1;
use std::alloc::Global;

// Whether the bytes have this name, and one of the troves records a file of this name and of their size.
fn is_recorded(catalogue: &Catalogue, name: &[u8; 20], bytes: &[u8]) -> bool
    ensures { IsTrue result ↔ IsRecorded catalogue.now.troves name.now bytes.now }
{
    let digest = Sha1::digest(bytes);
    let named = digest.as_slice() == name.as_slice();
    let recorded = catalogue.records_content(name, bytes.len());
    named && recorded
}

// The bytes of the file at a path, where one stands there and a trove records a file of this name and of its size. Another one isn't
// read.
fn sized_bytes<D: TreeDisk>(
    alloc: Global,
    disk: &mut D,
    catalogue: &Catalogue,
    name: &[u8; 20],
    path: &Path,
) -> Result<Option<Bytes>, Stop>
    ensures tests { Tests D.disk (λ found. found)
        (λ tree. Ok (spec.sized_bytes catalogue.now.troves name.now (file_bytes (get tree path.now))))
        disk.old disk.new result }
    ensures stops { IfErr result IsDiskStop }
{
    let look = steps::look(alloc, disk, path)?;
    let Some(size) = look.size() else {
        return Ok(None);
    };
    if !catalogue.records_content(name, size as usize) {
        return Ok(None);
    }
    steps::read_whole(alloc, disk, path, size)
}

/// The content of a name, and none exactly where no trove of the catalogue records a file of that name.
///
/// `Damaged` names the content's file, exactly where a trove records a content of that name, and no file stands there that
/// has the name's SHA-1 and a size that is recorded. `Failed` comes only where the disk's count of faults rose. `Refused`
/// never comes, and no name changes, however it ends.
pub fn content<D: TreeDisk>(
    alloc: Global,
    disk: &mut D,
    catalogue: &Catalogue,
    name: &[u8; 20],
) -> Result<Option<Bytes>, Stop>
    ensures finds { Looks D.disk (FindsContent catalogue.now.troves name.now) (IsDamagedContent catalogue.now.troves name.now)
        disk.old disk.new result }
    // Also where the disk tells no tree.
    ensures sound { IfOk result (IsSoundAnswer catalogue.now.troves name.now) }
{
    if !catalogue.has_content(name) {
        return Ok(None);
    }
    let path = content_path(alloc, name)?;
    let found = sized_bytes(alloc, disk, catalogue, name, &path)?;
    if let Some(bytes) = found {
        if is_recorded(catalogue, name, bytes.get()) {
            return Ok(Some(bytes));
        }
    }
    Err(Stop::Damaged { path })
}
