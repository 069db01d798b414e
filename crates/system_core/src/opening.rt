//! A root, opened.
ghost use Rattle.system_core.specs.Opening.{RecoversRoot};

use crate::fixed_dirs::check_fixed_dirs;
use local_db::base_path;
use rollback_stack::cny_base::Stop;
use rollback_stack::tree_disk::TreeDisk;
use std::alloc::Global;
use tree_journal::recover_disk;

/// Tests the fixed directories on the root as it reads, and recovers it.
pub(crate) fn recover_root<T: TreeDisk>(alloc: Global, root: &mut T) -> Result<(), Stop>
    ensures { RecoversRoot T.disk root.old root.new result }
{
    check_fixed_dirs(alloc, root)?;
    let directory = base_path(alloc)?;
    recover_disk(alloc, root, &directory)
}
