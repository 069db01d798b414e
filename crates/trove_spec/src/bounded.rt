//! Reading a text file of a root within its limit.
ghost use Rattle.std.specs.Prelude.{◌≡◌, ◌≤◌, IfOk, IsTrue, length, Ok};
ghost use Rattle.repo_index.specs.cny-base.declared.limits.TheConstants.{CONFIG_LIMIT};
ghost use Rattle.repo_index.specs.cny-base.declared.refusal.Refusal.TheVariants as refusal;
ghost use Rattle.repo_index.specs.cny-base.declared.stop.Stop.TheVariants as stop;
ghost use Rattle.tree_disk.specs.Rows.{bytes_at, is_file_at};
ghost use Rattle.tree_disk.specs.Steps.{Tests};

use repo_index::cny_base::{Bytes, CONFIG_LIMIT, Path, Refusal, Stop, What};
use std::alloc::Global;
use tree_disk::{TreeDisk, steps};

/// The refusal of a file with so many bytes.
pub fn too_large(what: What, size: u64) -> Stop
    ensures { result ≡ stop.Refused (refusal.TooLarge what size) }
{
    Stop::Refused(Refusal::TooLarge { what, size })
}

/// The bytes of a file with no more of them than the limit of such files, 65,536. Of the stops want of memory comes, and a fault,
/// and on a disk that isn't told the refusal of a file that is too large, where it has grown.
pub fn read_within<T: TreeDisk>(
    alloc: Global,
    root: &mut T,
    path: &Path,
    what: What,
) -> Result<Bytes, Stop>
    requires file { IsTrue T.disk.tells → IsTrue (is_file_at (T.disk.reads root.old) path.now) }
    requires fits { IsTrue T.disk.tells → length (bytes_at (T.disk.reads root.old) path.now) ≤ CONFIG_LIMIT }
    ensures tests { Tests T.disk (λ bytes. bytes) (λ tree. Ok (bytes_at tree path.now)) root.old root.new result }
    ensures most { IfOk result (λ bytes. length bytes ≤ CONFIG_LIMIT) }
{
    let whole = steps::read_whole(alloc, root, path, CONFIG_LIMIT as u64)?;
    match whole {
        Some(bytes) => Ok(bytes),
        None => Err(too_large(what, CONFIG_LIMIT as u64 + 1)),
    }
}
