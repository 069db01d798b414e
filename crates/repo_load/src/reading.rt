//! The file of a commit.
ghost use Rattle.std.specs.Prelude.{◌≡◌, length, IfErr, IfOk, IfSome, IsTrue, Ok};
ghost use Rattle.std.specs.FinMap.{get};
ghost use Rattle.journal_log.specs.tree-disk.Rows.{bytes_at, is_file_at};
ghost use Rattle.journal_log.specs.tree-disk.Steps.{IsDiskStop, Tests};
ghost use Rattle.repo_load.specs.Loading.{HasStream, LacksCommit, ReadsCommit};
ghost use Rattle.repo_load.specs.Looks.{Looks};
ghost use Rattle.repo_load.specs.Seen.{file_as, seen_as};

use crate::commit_reading::{Troves, decode_commit};
use crate::names::commit_path;
use crate::writing::{END, MAGIC, TROVE};
use journal_log::read_stream;
use journal_log::tree_disk::{TreeDisk, steps};
use repo_index::cny_base::{Bytes, Path, Stop, TextFault};
use std::alloc::Global;

/// What is read at the name of a file.
#[derive(Drop)]
pub(crate) enum Seen {
    Nothing,
    File(Bytes),
    /// A directory, a link, or a large file that is no stream of a commit's items.
    Other,
}

// The file at a path, which has so many bytes. A large one is read only where it is a stream of items of a commit's tags.
fn file_seen<D: TreeDisk>(alloc: Global, disk: &mut D, path: &Path, size: u64) -> Result<Seen, Stop>
    requires file { IsTrue D.disk.tells → IsTrue (is_file_at (D.disk.reads disk.old) path.now) }
    requires size { IsTrue D.disk.tells → length (bytes_at (D.disk.reads disk.old) path.now) ≡ size }
    ensures tests { Tests D.disk (λ seen. seen)
        (λ tree. Ok (file_as (bytes_at tree path.now)))
        disk.old disk.new result }
    ensures stops { IfErr result IsDiskStop }
{
    match read_stream(alloc, disk, path, size, MAGIC, &[TROVE, END])? {
        Some(bytes) => Ok(Seen::File(bytes)),
        None => Ok(Seen::Other),
    }
}

// What stands at a path.
fn seen_at<D: TreeDisk>(alloc: Global, disk: &mut D, path: &Path) -> Result<Seen, Stop>
    ensures tests { Tests D.disk (λ seen. seen)
        (λ tree. Ok (seen_as (get tree path.now)))
        disk.old disk.new result }
    ensures stops { IfErr result IsDiskStop }
{
    let look = steps::look(alloc, disk, path)?;
    if let Some(size) = look.size() {
        return file_seen(alloc, disk, path, size);
    }
    if look.is_nothing() {
        return Ok(Seen::Nothing);
    }
    Ok(Seen::Other)
}

/// The commit in the file of a number, and none exactly where nothing stands at its name.
pub(crate) fn read_commit<D: TreeDisk>(
    alloc: Global,
    disk: &mut D,
    number: u64,
) -> Result<Option<Troves>, Stop>
    ensures looks { Looks D.disk (ReadsCommit number) (LacksCommit number) disk.old disk.new result }
    // On every disk.
    ensures stream { IfOk result (λ read. IfSome read HasStream) }
{
    let path = commit_path(alloc, number)?;
    let seen = seen_at(alloc, disk, &path)?;
    let bytes = match seen {
        Seen::Nothing => return Ok(None),
        Seen::Other => return Err(Stop::Damaged { path }),
        Seen::File(bytes) => bytes,
    };
    match decode_commit(alloc, bytes.get()) {
        Ok(troves) => Ok(Some(troves)),
        Err(TextFault::Bad) => Err(Stop::Damaged { path }),
        Err(TextFault::Memory) => Err(Stop::Memory),
    }
}
