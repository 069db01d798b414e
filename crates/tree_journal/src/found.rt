//! What stands behind the commit flag.
ghost use Rattle.std.specs.Prelude.{◌≡◌, IfOk, IfSome, Some};
ghost use Rattle.std.specs.FinMap.{get};
ghost use Rattle.journal_log.specs.Own.{log};
ghost use Rattle.journal_log.specs.WriteSet.{IsLoggable};
ghost use Rattle.tree_journal.specs.Found.{file_bytes, Finds, FindsLog};
ghost use Rattle.tree_journal.specs.Recovery.{is_flag};

use crate::unstaged::has_size;
use journal_log::cny_base::{Bytes, Path, Stop, TextFault};
use journal_log::tree_disk::{TreeDisk, steps};
use journal_log::{Puts, decode_log};
use std::alloc::Global;

// The bytes of the file at a path, where one stands.
fn read_file<D: TreeDisk>(alloc: Global, disk: &mut D, path: &Path) -> Result<Option<Bytes>, Stop>
    ensures { Finds D.disk (λ tree bytes. bytes ≡ file_bytes (get tree path.now)) disk.old disk.new result }
{
    let look = steps::look(alloc, disk, path)?;
    let Some(size) = look.size() else {
        return Ok(None);
    };
    steps::read_whole(alloc, disk, path, size)
}

/// Whether the commit flag is set.
pub fn is_flag_set<D: TreeDisk>(alloc: Global, disk: &mut D, gate_path: &Path) -> Result<bool, Stop>
    ensures { Finds D.disk (λ tree is. is ≡ is_flag (get tree gate_path.now)) disk.old disk.new result }
{
    let look = steps::look(alloc, disk, gate_path)?;
    if !has_size(&look, 1) {
        return Ok(false);
    }
    let mut byte = [0u8; 1];
    steps::read_at(alloc, disk, gate_path, 0, &mut byte)?;
    Ok(byte[0] == b'O')
}

/// The write set of the log, where the log is whole.
pub fn read_log<D: TreeDisk>(
    alloc: Global,
    disk: &mut D,
    base: &Path,
    log_path: &Path,
) -> Result<Option<Puts>, Stop>
    requires { log_path.now ≡ log base.now }
    ensures finds { Finds D.disk (FindsLog base.now) disk.old disk.new result }
    // On every disk.
    ensures loggable { IfOk result (λ found. IfSome found (IsLoggable base.now)) }
{
    let Some(bytes) = read_file(alloc, disk, log_path)? else {
        return Ok(None);
    };
    match decode_log(alloc, base, bytes.get()) {
        Ok(puts) => Ok(Some(puts)),
        Err(TextFault::Bad) => Ok(None),
        Err(TextFault::Memory) => Err(Stop::Memory),
    }
}
