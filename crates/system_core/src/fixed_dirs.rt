//! The fixed directories of a root.
ghost use Rattle.std.specs.Prelude.{IsTrue, IfErr};
ghost use Rattle.rollback_stack.specs.cny-base.Path.{is_path};
ghost use Rattle.rollback_stack.specs.tree-disk.Steps.{Tests};
ghost use Rattle.system_core.specs.FixedDirs.{test_dir, fixed_dirs, RefusesPath};

use rollback_stack::cny_base::{Path, Refusal, Stop, Text, TextFault};
use rollback_stack::tree_disk::{TreeDisk, steps};
use std::alloc::Global;

// Refuses where the path of this text isn't that of a directory.
fn check_dir<T: TreeDisk>(alloc: Global, root: &mut T, text: &str) -> Result<(), Stop>
    requires { IsTrue (is_path text.now) }
    ensures tests { Tests T.disk (λ done. done) (λ tree. test_dir tree text.now) root.old root.new result }
    // Also where the disk tells nothing.
    ensures refuses { IfErr result RefusesPath }
{
    let path = match Path::read(alloc, text) {
        Ok(path) => path,
        Err(TextFault::Memory) => return Err(Stop::Memory),
        Err(TextFault::Bad) => unreachable!(),
    };
    let look = steps::look(alloc, root, &path)?;
    if look.is_dir() {
        return Ok(());
    }
    let path = Text::new(alloc, path.text())?;
    Err(Stop::Refused(Refusal::Parent { path }))
}

/// Refuses where one of the fixed directories, `/`, `/var` and `/var/lib`, isn't a directory, with the first of them. It only reads.
pub fn check_fixed_dirs<T: TreeDisk>(alloc: Global, root: &mut T) -> Result<(), Stop>
    ensures tests { Tests T.disk (λ done. done) fixed_dirs root.old root.new result }
    // Also where the disk tells nothing.
    ensures refuses { IfErr result RefusesPath }
{
    check_dir(alloc, root, "/")?;
    check_dir(alloc, root, "/var")?;
    check_dir(alloc, root, "/var/lib")
}
