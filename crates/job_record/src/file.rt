//! The file of a record.
ghost use Rattle.std.specs.Prelude.{IfErr, Ok};
ghost use Rattle.std.specs.FinMap.{get};
ghost use Rattle.local_db.specs.tree-disk.Steps.{IsDiskStop, Tests};
ghost use Rattle.job_record.specs.File.{record_read};

use crate::deltas::{CAME, END, ENTRY, TURNED, WAS};
use crate::reading::magic_of;
use crate::writing::NUMBER;
use journal_log::read_stream;
use local_db::Format;
use local_db::cny_base::{Bytes, Path, Stop};
use local_db::tree_disk::{TreeDisk, steps};
use std::alloc::Global;

/// The bytes of the file at a path, in which a record in the format is to be; none where no file stands there, and of a file of more
/// than 1,048,576 bytes where the heads of its items, as a record has them, don't lead exactly to its end: then no more is read.
///
/// `Failed` comes only where the disk's count of faults rose, and of the other stops want of memory alone. It only reads.
pub fn record_file<D: TreeDisk>(
    alloc: Global,
    disk: &mut D,
    format: Format,
    path: &Path,
) -> Result<Option<Bytes>, Stop>
    ensures tests { Tests D.disk (λ found. found)
        (λ tree. Ok (record_read format (get tree path.now)))
        disk.old disk.new result }
    ensures stops { IfErr result IsDiskStop }
{
    let look = steps::look(alloc, disk, path)?;
    let Some(size) = look.size() else {
        return Ok(None);
    };
    let tags = [NUMBER, CAME, WAS, TURNED, ENTRY, END];
    read_stream(alloc, disk, path, size, magic_of(format), &tags)
}
