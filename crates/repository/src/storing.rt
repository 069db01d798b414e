//! A content, put into the directory of the contents.
ghost use Rattle.std.specs.Prelude.{◌≡◌, IsTrue, Some};
ghost use Rattle.sha1.specs.Sha1.{sha1};
ghost use Rattle.repo_load.specs.tree-disk.Clear.{is_within};
ghost use Rattle.repo_load.specs.tree-disk.Confined.{Among};
ghost use Rattle.repo_load.specs.tree-disk.Rows.{is_dir_at};
ghost use Rattle.tree_journal.specs.Preparing.{Prepares};
ghost use Rattle.repo_load.specs.content-store.Store.{content_path, stored};
ghost use Rattle.repo_load.specs.Files.{contents_dir};
ghost use Rattle.repository.specs.Preparing.{IsUntold};

use repo_load::cny_base::{Path, Stop};
use repo_load::content_store::{Sha1Namer, clear, put};
use repo_load::tree_disk::TreeDisk;
use std::alloc::Global;

/// Puts a content in place of all that stands under its name.
pub(crate) fn put_content<D: TreeDisk>(
    alloc: Global,
    disk: &mut D,
    dir: &Path,
    name: &[u8; 20],
    bytes: &[u8],
) -> Result<(), Stop>
    requires hash { IsTrue D.disk.tells → name.now ≡ sha1 bytes.now }
    requires dir { dir.now ≡ contents_dir }
    requires stands { IsTrue D.disk.tells → IsTrue (is_dir_at (D.disk.reads disk.old) contents_dir) }
    ensures { Prepares D.disk (IsUntold D.disk.tells) (Among (is_within (content_path contents_dir name.now)))
        (λ tree. stored tree contents_dir name.now ≡ Some bytes.now) disk.old disk.new result }
{
    clear(alloc, disk, dir, name)?;
    put(alloc, disk, &Sha1Namer, dir, bytes)?;
    Ok(())
}
