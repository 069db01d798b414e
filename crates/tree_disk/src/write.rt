// A whole file, made by several calls.
ghost use Rattle.std.specs.Prelude.{OnOk, IsTrue};
ghost use Rattle.cny_base.specs.declared.node.Node.TheVariants as node;
ghost use Rattle.tree_disk.specs.Rows.{can_make, with_node};
ghost use Rattle.tree_disk.specs.Disk.{one_name};
ghost use Rattle.tree_disk.specs.Confined.{IsSynced};
ghost use Rattle.tree_disk.specs.Steps.{Makes};

use crate::{TreeDisk, steps};
use cny_base::{Mode, Path, Stop};
use std::alloc::Global;

/// Makes a file with its mode and its bytes. The parent is a directory and nothing stands at the path,
/// where the disk tells its tree. A crash may still leave anything at the path afterwards.
pub fn make_file<D: TreeDisk>(
    alloc: Global,
    disk: &mut D,
    path: &Path,
    mode: Mode,
    bytes: &[u8],
) -> Result<(), Stop>
    requires { IsTrue D.disk.tells → IsTrue (can_make (D.disk.reads disk.old) path.now) }
    ensures { Makes D.disk (one_name path.now)
        (λ tree. with_node tree path.now (node.File mode bytes.now))
        disk.old disk.new result }
{
    steps::append(alloc, disk, path, bytes)?;
    steps::set_mode(alloc, disk, path, mode)
}

/// Makes a file as `make_file` does, and waits until it is kept: after `Ok` a crash leaves just what the
/// disk reads.
pub fn write_file<D: TreeDisk>(
    alloc: Global,
    disk: &mut D,
    path: &Path,
    mode: Mode,
    bytes: &[u8],
) -> Result<(), Stop>
    requires { IsTrue D.disk.tells → IsTrue (can_make (D.disk.reads disk.old) path.now) }
    ensures makes { Makes D.disk (one_name path.now)
        (λ tree. with_node tree path.now (node.File mode bytes.now))
        disk.old disk.new result }
    ensures synced { IsTrue D.disk.tells → OnOk result (IsSynced D.disk disk.new) }
{
    make_file(alloc, disk, path, mode, bytes)?;
    steps::sync(alloc, disk)
}
