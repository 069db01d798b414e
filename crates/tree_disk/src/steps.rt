//! The calls of a disk as steps of a larger work: each is made only where the tree allows it, so that it
//! is never refused, and it ends with a value or with a stop.
ghost use Rattle.std.specs.Prelude.{◌≡◌, ◌≢◌, ◌≤◌, ◌-◌, length, min, IfOk, OnOk, IfErr, IfSome, IsErrOf, IsTrue, Ok};
ghost use Rattle.cny_base.specs.declared.node.Node.TheVariants as node;
ghost use Rattle.tree_disk.specs.declared.disk.DiskStop.TheVariants as disk_stop;
ghost use Rattle.cny_base.specs.Path.{root};
ghost use Rattle.tree_disk.specs.Clear.{is_within, without_tree};
ghost use Rattle.tree_disk.specs.Tree.{children};
ghost use Rattle.tree_disk.specs.Rows.{bytes_at, is_file_at, is_dir_at, can_append, can_make, can_set_mode, can_remove, can_rename, with_append, with_node, with_mode, without, with_rename, ReadsFrom, look_of};
ghost use Rattle.tree_disk.specs.Disk.{one_name, two_names, InOneStep, NamesOf};
ghost use Rattle.tree_disk.specs.Confined.{IsSynced};
ghost use Rattle.tree_disk.specs.Whole.{whole_within};
ghost use Rattle.tree_disk.specs.Steps.{Tests, Makes, IsDiskStop, no_name, step_of};
ghost use Rattle.tree_disk.specs.Unfailed.{IsEither, UnlessFailed};

use crate::clear::clear_at;
use crate::{DiskStop, Look, TreeDisk};
use cny_base::{Bytes, Mode, Names, Path, Stop, Target};
use std::alloc::Global;

// The answer of a call that was allowed.
fn allowed<T: Drop>(answer: Result<T, DiskStop>) -> Result<T, Stop>
    requires { ¬ (IsErrOf answer disk_stop.Refused) }
    ensures { result ≡ step_of answer }
{
    match answer {
        Ok(value) => Ok(value),
        Err(DiskStop::Failed) => Err(Stop::Failed),
        Err(DiskStop::Memory) => Err(Stop::Memory),
        Err(DiskStop::Refused) => unreachable!(),
    }
}

/// What stands at the path.
pub fn look<D: TreeDisk>(alloc: Global, disk: &mut D, path: &Path) -> Result<Look, Stop>
    ensures tests { Tests D.disk (λ look. look)
        (λ tree. Ok (look_of tree path.now))
        disk.old disk.new result }
    ensures stops { IfErr result IsDiskStop }
{
    allowed(disk.look(alloc, path))
}

/// Fills `buf` from a place in a file up to the file's end, and answers how many bytes that gave. After an
/// error `buf` holds anything.
pub fn read_at<D: TreeDisk>(
    alloc: Global,
    disk: &mut D,
    path: &Path,
    at: u64,
    buf: &mut [u8],
) -> Result<usize, Stop>
    requires { IsTrue D.disk.tells → IsTrue (is_file_at (D.disk.reads disk.old) path.now) }
    ensures tests { Tests D.disk (λ count. count)
        (λ tree. Ok (min (length buf.old) (length (bytes_at tree path.now) - at)))
        disk.old disk.new result }
    ensures most { IfOk result (λ count. count ≤ length buf.old) }
    ensures filled { IsTrue D.disk.tells
        → IfOk result (λ count.
        ReadsFrom (D.disk.reads disk.old) path.now at buf.old buf.new count) }
    ensures stops { IfErr result IsDiskStop }
{
    allowed(disk.read_at(alloc, path, at, buf))
}

/// The last names of a directory's children, in the order of their bytes.
pub fn list<D: TreeDisk>(alloc: Global, disk: &mut D, path: &Path) -> Result<Names, Stop>
    requires { IsTrue D.disk.tells → IsTrue (is_dir_at (D.disk.reads disk.old) path.now) }
    ensures tests { Tests D.disk (λ names. names)
        (λ tree. Ok (children tree path.now))
        disk.old disk.new result }
    ensures names { IfOk result (NamesOf path.now) }
    ensures stops { IfErr result IsDiskStop }
{
    allowed(disk.list(alloc, path))
}

/// Adds bytes at the end of a file. Where nothing stands it first makes a file of mode 0600.
pub fn append<D: TreeDisk>(
    alloc: Global,
    disk: &mut D,
    path: &Path,
    bytes: &[u8],
) -> Result<(), Stop>
    requires { IsTrue D.disk.tells → IsTrue (can_append (D.disk.reads disk.old) path.now) }
    ensures makes { Makes D.disk (one_name path.now)
        (λ tree. with_append tree path.now bytes.now)
        disk.old disk.new result }
    ensures one_step { IsTrue D.disk.tells → OnOk result (InOneStep D.disk disk.old disk.new) }
    ensures seen { IsTrue D.disk.tells → UnlessFailed D.disk disk.old disk.new
        (IsEither (D.disk.reads disk.old) (with_append (D.disk.reads disk.old) path.now bytes.now)) }
{
    allowed(disk.append(alloc, path, bytes))
}

/// Makes a directory.
pub fn make_dir<D: TreeDisk>(
    alloc: Global,
    disk: &mut D,
    path: &Path,
    mode: Mode,
) -> Result<(), Stop>
    requires { IsTrue D.disk.tells → IsTrue (can_make (D.disk.reads disk.old) path.now) }
    ensures makes { Makes D.disk (one_name path.now)
        (λ tree. with_node tree path.now (node.Dir mode))
        disk.old disk.new result }
    ensures one_step { IsTrue D.disk.tells → OnOk result (InOneStep D.disk disk.old disk.new) }
    ensures seen { IsTrue D.disk.tells → UnlessFailed D.disk disk.old disk.new
        (IsEither (D.disk.reads disk.old) (with_node (D.disk.reads disk.old) path.now (node.Dir mode))) }
{
    allowed(disk.make_dir(alloc, path, mode))
}

/// Makes a link.
pub fn make_link<D: TreeDisk>(
    alloc: Global,
    disk: &mut D,
    path: &Path,
    target: &Target,
) -> Result<(), Stop>
    requires { IsTrue D.disk.tells → IsTrue (can_make (D.disk.reads disk.old) path.now) }
    ensures makes { Makes D.disk (one_name path.now)
        (λ tree. with_node tree path.now (node.Link target.now))
        disk.old disk.new result }
    ensures one_step { IsTrue D.disk.tells → OnOk result (InOneStep D.disk disk.old disk.new) }
    ensures seen { IsTrue D.disk.tells → UnlessFailed D.disk disk.old disk.new
        (IsEither (D.disk.reads disk.old) (with_node (D.disk.reads disk.old) path.now (node.Link target.now))) }
{
    allowed(disk.make_link(alloc, path, target))
}

/// Sets the mode of a directory or a file.
pub fn set_mode<D: TreeDisk>(
    alloc: Global,
    disk: &mut D,
    path: &Path,
    mode: Mode,
) -> Result<(), Stop>
    requires { IsTrue D.disk.tells → IsTrue (can_set_mode (D.disk.reads disk.old) path.now) }
    ensures makes { Makes D.disk (one_name path.now)
        (λ tree. with_mode tree path.now mode)
        disk.old disk.new result }
    ensures one_step { IsTrue D.disk.tells → OnOk result (InOneStep D.disk disk.old disk.new) }
    ensures seen { IsTrue D.disk.tells → UnlessFailed D.disk disk.old disk.new
        (IsEither (D.disk.reads disk.old) (with_mode (D.disk.reads disk.old) path.now mode)) }
{
    allowed(disk.set_mode(alloc, path, mode))
}

/// Takes away a file, a link or a directory without children.
pub fn remove<D: TreeDisk>(alloc: Global, disk: &mut D, path: &Path) -> Result<(), Stop>
    requires { IsTrue D.disk.tells → IsTrue (can_remove (D.disk.reads disk.old) path.now) }
    ensures makes { Makes D.disk (one_name path.now)
        (λ tree. without tree path.now)
        disk.old disk.new result }
    ensures one_step { IsTrue D.disk.tells → OnOk result (InOneStep D.disk disk.old disk.new) }
    ensures seen { IsTrue D.disk.tells → UnlessFailed D.disk disk.old disk.new
        (IsEither (D.disk.reads disk.old) (without (D.disk.reads disk.old) path.now)) }
{
    allowed(disk.remove(alloc, path))
}

/// Moves a file or link, over a file or link that stands there.
pub fn rename<D: TreeDisk>(alloc: Global, disk: &mut D, from: &Path, to: &Path) -> Result<(), Stop>
    requires { IsTrue D.disk.tells → IsTrue (can_rename (D.disk.reads disk.old) from.now to.now) }
    ensures makes { Makes D.disk (two_names from.now to.now)
        (λ tree. with_rename tree from.now to.now)
        disk.old disk.new result }
    ensures one_step { IsTrue D.disk.tells → OnOk result (InOneStep D.disk disk.old disk.new) }
    ensures seen { IsTrue D.disk.tells → UnlessFailed D.disk disk.old disk.new
        (IsEither (D.disk.reads disk.old) (with_rename (D.disk.reads disk.old) from.now to.now)) }
{
    allowed(disk.rename(alloc, from, to))
}

/// Waits until all changes are kept. After it a crash leaves just what the disk reads.
pub fn sync<D: TreeDisk>(alloc: Global, disk: &mut D) -> Result<(), Stop>
    ensures makes { Makes D.disk no_name (λ tree. tree) disk.old disk.new result }
    ensures synced { IsTrue D.disk.tells → OnOk result (IsSynced D.disk disk.new) }
{
    allowed(disk.sync(alloc))
}

/// Takes away what stands at the path, and all names below it. The path isn't `/`.
pub fn clear_tree<D: TreeDisk>(alloc: Global, disk: &mut D, path: &Path) -> Result<(), Stop>
    requires { path.now ≢ root }
    ensures { Makes D.disk (is_within path.now)
        (λ tree. without_tree tree path.now)
        disk.old disk.new result }
{
    // Its clause says that the path is one, so that the names below can't grow longer for ever.
    let _text = path.text();
    clear_at(alloc, disk, path)
}

/// The bytes of the file at a path, and none exactly where it holds more than `most`.
pub fn read_whole<D: TreeDisk>(
    alloc: Global,
    disk: &mut D,
    path: &Path,
    most: u64,
) -> Result<Option<Bytes>, Stop>
    requires { IsTrue D.disk.tells → IsTrue (is_file_at (D.disk.reads disk.old) path.now) }
    ensures tests { Tests D.disk (λ whole. whole)
        (λ tree. Ok (whole_within most (bytes_at tree path.now)))
        disk.old disk.new result }
    ensures most { IfOk result (λ whole. IfSome whole (λ bytes. length bytes ≤ most)) }
    ensures stops { IfErr result IsDiskStop }
{
    allowed(crate::read_whole(alloc, disk, path, most))
}
