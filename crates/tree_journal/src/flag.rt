//! The journal's own files: the base, the log and the commit flag.
ghost use Rattle.std.specs.Prelude.{◌≡◌, ◌≢◌, ◌≤◌, IfErr, IfOk, IsTrue, length};
ghost use Rattle.journal_log.specs.cny-base.Path.{are_parts, is_path, join, parent, root};
ghost use Rattle.journal_log.specs.cny-base.declared.stop.Stop.TheVariants as stop;
ghost use Rattle.journal_log.specs.tree-disk.Clear.{is_within};
ghost use Rattle.journal_log.specs.tree-disk.Rows.{is_dir_at};
ghost use Rattle.journal_log.specs.tree-disk.Steps.{Makes};
ghost use Rattle.tree_journal.specs.Steps.{with_own_file};

use journal_log::cny_base::{Path, Stop, TextFault};
use journal_log::tree_disk::{TreeDisk, steps};
use std::alloc::Global;

/// The path of one of the journal's own names below the base.
pub fn own_path(alloc: Global, base: &Path, last: &str) -> Result<Path, Stop>
    requires part { IsTrue (are_parts last.now) }
    requires short { length (join base.now last.now) ≤ 1024 }
    ensures path { IfOk result (λ path. path ≡ join base.now last.now) }
    ensures is_path { IfOk result (λ path. IsTrue (is_path path)) }
    ensures base { IsTrue (is_path base.now) }
    ensures memory { IfErr result (λ e. e ≡ stop.Memory) }
{
    // Its clause says that the base is a path, so that the joined name is one.
    let _text = base.text();
    match base.join(alloc, last) {
        Ok(path) => Ok(path),
        Err(TextFault::Memory) => Err(Stop::Memory),
        Err(TextFault::Bad) => unreachable!(),
    }
}

/// Writes one of the journal's own files in place of all that stands there.
pub fn write_own_file<D: TreeDisk>(
    alloc: Global,
    disk: &mut D,
    path: &Path,
    bytes: &[u8],
) -> Result<(), Stop>
    requires path { IsTrue (is_path path.now) }
    requires not_root { path.now ≢ root }
    requires parent { IsTrue D.disk.tells → IsTrue (is_dir_at (D.disk.reads disk.old) (parent path.now)) }
    ensures { Makes D.disk (is_within path.now) (λ tree. with_own_file path.now bytes.now tree) disk.old disk.new result }
{
    steps::clear_tree(alloc, disk, path)?;
    steps::append(alloc, disk, path, bytes)
}
