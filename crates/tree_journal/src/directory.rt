//! A path made a directory.
ghost use Rattle.std.specs.Prelude.{IsTrue};
ghost use Rattle.std.specs.FinMap.{get};
ghost use Rattle.journal_log.specs.cny-base.Path.{is_path, parent};
ghost use Rattle.journal_log.specs.cny-base.declared.node.Node.TheVariants as node;
ghost use Rattle.journal_log.specs.tree-disk.Disk.{one_name};
ghost use Rattle.journal_log.specs.tree-disk.Rows.{can_make, is_dir_at, with_node};
ghost use Rattle.journal_log.specs.tree-disk.Steps.{Makes};
ghost use Rattle.tree_journal.specs.Apply.{with_base};
ghost use Rattle.tree_journal.specs.Steps.{IsOther};

use journal_log::cny_base::{Mode, Path, Stop};
use journal_log::tree_disk::{TreeDisk, steps};
use std::alloc::Global;

// Makes a directory where nothing stands, with mode 0755.
fn new_dir<D: TreeDisk>(alloc: Global, disk: &mut D, path: &Path) -> Result<(), Stop>
    requires { IsTrue D.disk.tells → IsTrue (can_make (D.disk.reads disk.old) path.now) }
    ensures { Makes D.disk (one_name path.now) (λ tree. with_node tree path.now (node.Dir 493)) disk.old disk.new result }
{
    let Some(mode) = Mode::new(0o755) else {
        unreachable!()
    };
    steps::make_dir(alloc, disk, path, mode)
}

// Makes a directory in place of a file or a link.
fn replace_by_dir<D: TreeDisk>(alloc: Global, disk: &mut D, path: &Path) -> Result<(), Stop>
    requires path { IsTrue (is_path path.now) }
    requires parent { IsTrue D.disk.tells → IsTrue (is_dir_at (D.disk.reads disk.old) (parent path.now)) }
    requires stands { IsTrue D.disk.tells → IsOther (get (D.disk.reads disk.old) path.now) }
    ensures { Makes D.disk (one_name path.now) (λ tree. with_node tree path.now (node.Dir 493)) disk.old disk.new result }
{
    steps::remove(alloc, disk, path)?;
    new_dir(alloc, disk, path)
}

/// Makes a directory where none stands. A file or a link that stands there goes first.
pub fn make_dir<D: TreeDisk>(alloc: Global, disk: &mut D, path: &Path) -> Result<(), Stop>
    requires path { IsTrue (is_path path.now) }
    requires parent { IsTrue D.disk.tells → IsTrue (is_dir_at (D.disk.reads disk.old) (parent path.now)) }
    ensures { Makes D.disk (one_name path.now) (λ tree. with_base path.now tree) disk.old disk.new result }
{
    let look = steps::look(alloc, disk, path)?;
    if look.is_dir() {
        return Ok(());
    }
    if look.is_nothing() {
        return new_dir(alloc, disk, path);
    }
    replace_by_dir(alloc, disk, path)
}
