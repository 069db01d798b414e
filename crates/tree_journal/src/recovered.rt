//! What a crash left of a disk, recovered.
ghost use Rattle.tree_journal.specs.Recovered.{RecoversAt};

use crate::recovery::recover;
use journal_log::cny_base::{Path, Stop};
use journal_log::tree_disk::TreeDisk;
use std::alloc::Global;

/// Recovers what a crash left of a disk whose journal is kept in this directory.
///
/// `Parent` where the first write of the log behind a set commit flag that can't be put is at that path, and `Damaged` where the log, or
/// a file that it stages, is damaged; the disk is then left as it stands. `Failed` comes only where its count of faults rose.
pub fn recover_disk<D: TreeDisk>(alloc: Global, disk: &mut D, base: &Path) -> Result<(), Stop>
    ensures { RecoversAt D.disk base.now disk.old disk.new result }
{
    recover(alloc, disk, base)?;
    Ok(())
}
