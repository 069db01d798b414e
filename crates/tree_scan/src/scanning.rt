//! What stands at a path, by its fingerprint.
ghost use Rattle.std.specs.Prelude.{◌≡◌, IfErr, Ok};
ghost use Rattle.tree_disk.specs.Steps.{IsDiskStop, Tests};
ghost use Rattle.tree_scan.specs.Looks as looks;
ghost use Rattle.tree_scan.specs.Looks.{mark_of_look};
ghost use Rattle.tree_scan.specs.Marks.{fingerprint_at, matches_record};

use crate::mark::Mark;
use crate::pieces::hash_file;
use cny_stream::FileRec;
use std::alloc::Global;
use tree_disk::cny_base::{Path, Stop};
use tree_disk::{Look, TreeDisk, steps};

// The fingerprint of what was seen; of a file, its bytes have this name.
fn marked(look: Look, name: [u8; 20]) -> Mark
    ensures { result ≡ mark_of_look look name }
{
    match look {
        Look::Nothing => Mark::Nothing,
        Look::Dir { mode } => Mark::Dir { mode },
        Look::File { mode, size } => Mark::File { mode, size, name },
        Look::Link { target } => Mark::Link { target },
    }
}

/// The fingerprint of what stands at the path. A file is read in pieces.
///
/// `Failed` comes only where the disk's count of faults rose, and of the other stops want of memory alone.
pub fn mark_at<D: TreeDisk>(alloc: Global, disk: &mut D, path: &Path) -> Result<Mark, Stop>
    ensures tests { Tests D.disk (λ mark. mark)
        (λ tree. Ok (fingerprint_at tree path.now))
        disk.old disk.new result }
    ensures stops { IfErr result IsDiskStop }
{
    let look = steps::look(alloc, disk, path)?;
    let Some(size) = look.size() else {
        return Ok(marked(look, [0; 20]));
    };
    let name = hash_file(alloc, disk, path, size)?;
    Ok(marked(look, name))
}

// Whether the record describes a file of this size.
fn has_size(rec: &FileRec, size: u64) -> bool
    ensures { result ≡ looks.has_size rec.now size }
{
    match rec {
        FileRec::File { size: of_rec, .. } => u64::from(*of_rec) == size,
        FileRec::Dir { .. } => false,
        FileRec::Link { .. } => false,
    }
}

/// Whether what stands at the path is what the record describes: their fingerprints are the same. A file is read, in pieces,
/// only where it has the size of the record's.
///
/// `Failed` comes only where the disk's count of faults rose, and of the other stops want of memory alone.
pub fn matches<D: TreeDisk>(
    alloc: Global,
    disk: &mut D,
    path: &Path,
    rec: &FileRec,
) -> Result<bool, Stop>
    ensures tests { Tests D.disk (λ same. same)
        (λ tree. Ok (matches_record tree path.now rec.now))
        disk.old disk.new result }
    ensures stops { IfErr result IsDiskStop }
{
    let look = steps::look(alloc, disk, path)?;
    let Some(size) = look.size() else {
        return Ok(marked(look, [0; 20]).is_of(rec));
    };
    if !has_size(rec, size) {
        return Ok(false);
    }
    let name = hash_file(alloc, disk, path, size)?;
    Ok(marked(look, name).is_of(rec))
}
