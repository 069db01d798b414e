//! What a job found at a path.
ghost use Rattle.std.specs.Prelude.{◌≡◌, ◌↔◌, ◌≤◌, IfErr, IfOk, IsTrue, Ok, length};
ghost use Rattle.local_db.specs.cny-base.Count.{Rose};
ghost use Rattle.local_db.specs.cny-base.declared.stop.Stop.TheVariants as stops;
ghost use Rattle.content_store.specs.Store.{content_path, stored};
ghost use Rattle.local_db.specs.tree-disk.Disk.{Reads};
ghost use Rattle.local_db.specs.tree-disk.Steps.{IsDiskStop, Tests};
ghost use Rattle.tree_scan.specs.declared.mark.Mark.TheVariants as mark;
ghost use Rattle.job_targets.specs.Contents.{of_size};
ghost use Rattle.job_targets.specs.Gathering.{IsReadStop};
ghost use Rattle.job_targets.specs.Old.{HasMark, HoldsContent, IsContent, IsDamagedContent, IsDamagedOld, IsSaved};

use local_db::cny_base::{Bytes, Copies, Mode, Path, Stop, TextFault};
use local_db::journal_log::Want;
use local_db::saved_path;
use local_db::tree_disk::{TreeDisk, steps};
use sha1::Sha1;
use std::alloc::Global;
use tree_scan::Mark;

// Whether the bytes have this size and this SHA-1.
fn is_content(bytes: &[u8], size: u64, name: &[u8; 20]) -> bool
    ensures { IsTrue result ↔ IsContent size name.now bytes.now }
{
    let digest = Sha1::digest(bytes);
    let is_size = bytes.len() as u64 == size;
    let is_name = digest.as_slice() == name.as_slice();
    is_size && is_name
}

// The path of a content.
fn path_of(alloc: Global, dir: &Path, name: &[u8; 20]) -> Result<Path, Stop>
    requires { length dir.now ≤ 983 }
    ensures value { IfOk result (λ path. path ≡ content_path dir.now name.now) }
    ensures memory { IfErr result (λ stop. stop ≡ stops.Memory) }
{
    let _text = dir.text();
    let digits = hex::encode(alloc, name.as_slice())?;
    match dir.join(alloc, digits.as_str()) {
        Ok(path) => Ok(path),
        Err(TextFault::Memory) => Err(Stop::Memory),
        Err(TextFault::Bad) => unreachable!(),
    }
}

// The bytes that stand under this name in the directory, where there are so many. A file of another size isn't read.
fn sized_bytes<D: TreeDisk>(
    alloc: Global,
    disk: &mut D,
    dir: &Path,
    size: u64,
    name: &[u8; 20],
) -> Result<Option<Bytes>, Stop>
    requires { length dir.now ≤ 983 }
    ensures tests { Tests D.disk (λ found. found)
        (λ tree. Ok (of_size size (stored tree dir.now name.now)))
        disk.old disk.new result }
    ensures stops { IfErr result IsDiskStop }
{
    let path = path_of(alloc, dir, name)?;
    let look = steps::look(alloc, disk, &path)?;
    let Some(found) = look.size() else {
        return Ok(None);
    };
    if found != size {
        return Ok(None);
    }
    steps::read_whole(alloc, disk, &path, size)
}

// The content of this name and size that the directory holds.
fn content_in<D: TreeDisk>(
    alloc: Global,
    disk: &mut D,
    dir: &Path,
    size: u64,
    name: &[u8; 20],
) -> Result<Bytes, Stop>
    requires { length dir.now ≤ 983 }
    ensures value { Reads D.disk disk.old disk.new (IfOk result (HoldsContent (D.disk.reads disk.old) dir.now size name.now)) }
    ensures content { IfOk result (IsContent size name.now) }
    ensures stops { IfErr result (IsReadStop D.disk.tells (IsDamagedContent (D.disk.reads disk.old) dir.now size name.now)
        (Rose (D.disk.faults disk.old) (D.disk.faults disk.new))) }
    ensures later { D.disk.faults disk.old ≤ D.disk.faults disk.new }
{
    if let Some(bytes) = sized_bytes(alloc, disk, dir, size, name)? {
        if is_content(bytes.get(), size, name) {
            return Ok(bytes);
        }
    }
    Err(Stop::Damaged {
        path: path_of(alloc, dir, name)?,
    })
}

fn old_file<D: TreeDisk>(
    alloc: Global,
    disk: &mut D,
    number: u32,
    mode: Mode,
    size: u64,
    name: &[u8; 20],
) -> Result<Want, Stop>
    ensures value { Reads D.disk disk.old disk.new (IfOk result (IsSaved (D.disk.reads disk.old) number)) }
    ensures marked { IfOk result (HasMark (mark.File mode size name.now)) }
    ensures stops { IfErr result (IsReadStop D.disk.tells (IsDamagedOld (D.disk.reads disk.old) number (mark.File mode size name.now))
        (Rose (D.disk.faults disk.old) (D.disk.faults disk.new))) }
    ensures later { D.disk.faults disk.old ≤ D.disk.faults disk.new }
{
    let dir = saved_path(alloc, number)?;
    let bytes = content_in(alloc, disk, &dir, size, name)?;
    Ok(Want::File { mode, bytes })
}

/// What the job of this number found at a path, of which this is the fingerprint: the bytes of a file are those that it saved.
/// `Damaged` exactly where no file of this size and SHA-1 is saved, with its path. It only reads.
pub fn old_node<D: TreeDisk>(
    alloc: Global,
    disk: &mut D,
    number: u32,
    mark: &Mark,
) -> Result<Want, Stop>
    ensures value { Reads D.disk disk.old disk.new (IfOk result (IsSaved (D.disk.reads disk.old) number)) }
    // On every disk, also where it tells nothing.
    ensures marked { IfOk result (HasMark mark.now) }
    ensures stops { IfErr result (IsReadStop D.disk.tells (IsDamagedOld (D.disk.reads disk.old) number mark.now)
        (Rose (D.disk.faults disk.old) (D.disk.faults disk.new))) }
    ensures later { D.disk.faults disk.old ≤ D.disk.faults disk.new }
{
    match mark {
        Mark::Nothing => Ok(Want::Nothing),
        Mark::Dir { mode } => Ok(Want::Dir { mode: *mode }),
        Mark::File { mode, size, name } => old_file(alloc, disk, number, *mode, *size, name),
        Mark::Link { target } => Ok(Want::Link {
            target: target.copy()?,
        }),
    }
}
