//! A file or a link that is made at the work name and renamed into its place: whoever reads the path meanwhile sees what
//! stood there or what is to stand, and nothing between.
ghost use Rattle.std.specs.Prelude.{◌≡◌, IsTrue, Some};
ghost use Rattle.journal_log.specs.cny-base.Path.{is_path};
ghost use Rattle.journal_log.specs.cny-base.declared.node.Node.TheVariants as node;
ghost use Rattle.journal_log.specs.tree-disk.Disk.{one_name};
ghost use Rattle.journal_log.specs.tree-disk.Rows.{bytes_at, with_node};
ghost use Rattle.journal_log.specs.tree-disk.Steps.{Makes};
ghost use Rattle.journal_log.specs.tree-disk.Tree.{put as with_put};
ghost use Rattle.journal_log.specs.tree-disk.Unfailed.{UnlessFailed};
ghost use Rattle.journal_log.specs.Own.{staged, staged_file, work};
ghost use Rattle.tree_journal.specs.Passes.{is_work_or_name, CanMove, CanWork, HasSize};
ghost use Rattle.tree_journal.specs.Visible.{IsBetween};

use crate::copying::copy_file;
use crate::unstaged::path_of;
use journal_log::cny_base::{Mode, Path, Stop, Target};
use journal_log::tree_disk::{TreeDisk, steps};
use std::alloc::Global;

/// Puts a link.
pub fn put_link<D: TreeDisk>(
    alloc: Global,
    disk: &mut D,
    base: &Path,
    work_path: &Path,
    path: &Path,
    target: &Target,
) -> Result<(), Stop>
    requires base { IsTrue (is_path base.now) }
    requires work { work_path.now ≡ work base.now }
    requires told { IsTrue D.disk.tells → CanMove base.now (D.disk.reads disk.old) path.now }
    ensures makes { Makes D.disk (is_work_or_name base.now path.now) (λ tree. with_put tree path.now (Some (node.Link target.now))) disk.old disk.new result }
    ensures seen { IsTrue D.disk.tells → UnlessFailed D.disk disk.old disk.new
        (IsBetween base.now (D.disk.reads disk.old) (with_put (D.disk.reads disk.old) path.now (Some (node.Link target.now)))) }
{
    steps::make_link(alloc, disk, work_path, target)?;
    steps::rename(alloc, disk, work_path, path)
}

/// Puts a file with the bytes of a staged file, which has this size.
pub fn put_file<D: TreeDisk>(
    alloc: Global,
    disk: &mut D,
    base: &Path,
    dir: &Path,
    work_path: &Path,
    path: &Path,
    mode: Mode,
    number: u32,
    size: u32,
) -> Result<(), Stop>
    requires base { IsTrue (is_path base.now) }
    requires dir { dir.now ≡ staged base.now }
    requires work { work_path.now ≡ work base.now }
    requires staged { IsTrue (is_path (staged_file base.now number)) }
    requires stands { IsTrue D.disk.tells → HasSize (D.disk.reads disk.old) (staged_file base.now number) size }
    requires told { IsTrue D.disk.tells → CanMove base.now (D.disk.reads disk.old) path.now }
    ensures makes { Makes D.disk (is_work_or_name base.now path.now)
        (λ tree. with_put tree path.now (Some (node.File mode (bytes_at tree (staged_file base.now number))))) disk.old disk.new result }
    ensures seen { IsTrue D.disk.tells → UnlessFailed D.disk disk.old disk.new
        (IsBetween base.now (D.disk.reads disk.old) (with_put (D.disk.reads disk.old) path.now (Some (node.File mode (bytes_at (D.disk.reads disk.old) (staged_file base.now number)))))) }
{
    make_file_at(alloc, disk, base, dir, work_path, mode, number, size)?;
    steps::rename(alloc, disk, work_path, path)
}

// Makes the file at the work name.
fn make_file_at<D: TreeDisk>(
    alloc: Global,
    disk: &mut D,
    base: &Path,
    dir: &Path,
    work_path: &Path,
    mode: Mode,
    number: u32,
    size: u32,
) -> Result<(), Stop>
    requires base { IsTrue (is_path base.now) }
    requires dir { dir.now ≡ staged base.now }
    requires work { work_path.now ≡ work base.now }
    requires staged { IsTrue (is_path (staged_file base.now number)) }
    requires stands { IsTrue D.disk.tells → HasSize (D.disk.reads disk.old) (staged_file base.now number) size }
    requires told { IsTrue D.disk.tells → CanWork base.now (D.disk.reads disk.old) }
    ensures { Makes D.disk (one_name work_path.now)
        (λ tree. with_node tree work_path.now (node.File mode (bytes_at tree (staged_file base.now number)))) disk.old disk.new result }
{
    let from = path_of(alloc, dir, number)?;
    copy_file(alloc, disk, &from, size, work_path)?;
    steps::set_mode(alloc, disk, work_path, mode)
}
