//! Where the content of a file is found that isn't carried.
ghost use Rattle.std.specs.Prelude.{◌≡◌, ◌↔◌, IfErr, IfOk, IfSome, IsTrue, Ok, Some};
ghost use Rattle.conflict_plan.specs.Orphans.{IsSeenPlan};
ghost use Rattle.content_store.specs.Contents.{KeepsContents, StopsFor};
ghost use Rattle.job_targets.specs.Old.{IsContent};
ghost use Rattle.local_db.specs.tree-disk.Rows.{bytes_at, is_file_at};
ghost use Rattle.local_db.specs.tree-disk.Steps.{IsDiskStop, Tests};
ghost use Rattle.job_targets.specs.Contents as spec;
ghost use Rattle.job_targets.specs.Contents.{FindsElsewhere, IsFarContent, standing};
ghost use Rattle.content_store.specs.Searches.{IsSearchStop};
ghost use Rattle.job_targets.specs.Gathering.{Gathers};

use conflict_plan::Planned;
use content_store::{Contents, FarStop};
use local_db::cny_base::{Bytes, Path, Stop};
use local_db::tree_disk::{TreeDisk, steps};
use sha1::Sha1;
use std::alloc::Global;
use tree_scan::Mark;

// Whether it is the fingerprint of a file of this size and SHA-1, of any mode.
fn is_file_of(mark: &Mark, size: u32, name: &[u8; 20]) -> bool
    ensures { result ≡ spec.is_file_of size name.now mark.now }
{
    match mark {
        Mark::File {
            size: of_file,
            name: its_name,
            ..
        } => *of_file == u64::from(size) && its_name.as_slice() == name.as_slice(),
        Mark::Nothing => false,
        Mark::Dir { .. } => false,
        Mark::Link { .. } => false,
    }
}

// Whether the bytes have this size and this SHA-1.
fn is_content(bytes: &[u8], size: u32, name: &[u8; 20]) -> bool
    ensures { IsTrue result ↔ IsContent size name.now bytes.now }
{
    let digest = Sha1::digest(bytes);
    let is_size = bytes.len() as u64 == u64::from(size);
    let is_name = digest.as_slice() == name.as_slice();
    is_size && is_name
}

// The bytes of a file of this size and SHA-1.
fn read_content<T: TreeDisk>(
    alloc: Global,
    root: &mut T,
    path: &Path,
    size: u32,
    name: &[u8; 20],
) -> Result<Option<Bytes>, Stop>
    requires file { IsTrue T.disk.tells → IsTrue (is_file_at (T.disk.reads root.old) path.now) }
    requires content { IsTrue T.disk.tells → IsContent size name.now (bytes_at (T.disk.reads root.old) path.now) }
    ensures tests { Tests T.disk (λ found. found)
        (λ tree. Ok (Some (bytes_at tree path.now)))
        root.old root.new result }
    ensures content { IfOk result (λ found. IfSome found (IsContent size name.now)) }
    ensures stops { IfErr result IsDiskStop }
{
    let Some(bytes) = steps::read_whole(alloc, root, path, u64::from(size))? else {
        return Ok(None);
    };
    // A disk that tells nothing may read another file.
    if !is_content(bytes.get(), size, name) {
        return Ok(None);
    }
    Ok(Some(bytes))
}

// The bytes of the file that stands at a planned path, if it is one of this size and SHA-1.
fn standing_content<T: TreeDisk>(
    alloc: Global,
    root: &mut T,
    planned: &Planned,
    size: u32,
    name: &[u8; 20],
) -> Result<Option<Bytes>, Stop>
    requires { IsTrue T.disk.tells → IsSeenPlan (T.disk.reads root.old) planned.now }
    ensures tests { Tests T.disk (λ found. found)
        (λ tree. Ok (standing tree planned.now size name.now))
        root.old root.new result }
    ensures content { IfOk result (λ found. IfSome found (IsContent size name.now)) }
    ensures stops { IfErr result IsDiskStop }
{
    if !is_file_of(&planned.was, size, name) {
        return Ok(None);
    }
    read_content(alloc, root, &planned.path, size, name)
}

// What the contents have under a name, if it has this size.
fn far_content<C: Contents>(
    alloc: Global,
    far: &mut C,
    size: u32,
    name: &[u8; 20],
) -> Result<Option<Bytes>, FarStop>
    ensures found { IfOk result (IsFarContent (C.contents.answers far.old) size name.now) }
    ensures content { IfOk result (λ found. IfSome found (IsContent size name.now)) }
    ensures stops { IfErr result (StopsFor C.contents far.old far.new name.now) }
    ensures keeps { KeepsContents C.contents far.old far.new }
{
    let Some(bytes) = far.find(alloc, name)? else {
        return Ok(None);
    };
    if bytes.get().len() as u64 != u64::from(size) {
        return Ok(None);
    }
    Ok(Some(bytes))
}

/// The content, which isn't carried: that of the contents, and else the bytes of the file that stands at the path, if it is one of
/// this size and SHA-1. Only where there is none of the former the latter is asked.
pub(crate) fn content_elsewhere<T: TreeDisk, C: Contents>(
    alloc: Global,
    root: &mut T,
    far: &mut C,
    planned: &Planned,
    size: u32,
    name: &[u8; 20],
) -> Result<Option<Bytes>, Stop>
    requires { IsTrue T.disk.tells → IsSeenPlan (T.disk.reads root.old) planned.now }
    ensures gathers { Gathers T.disk C.contents (λ tree found. FindsElsewhere (C.contents.answers far.old) tree planned.now size name.now found) (λ tree why. ⊥)
        root.old root.new far.old far.new result }
    ensures content { IfOk result (λ found. IfSome found (IsContent size name.now)) }
    ensures stops { IfErr result IsSearchStop }
{
    let found = far_content(alloc, far, size, name)?;
    if found.is_some() {
        return Ok(found);
    }
    let standing = standing_content(alloc, root, planned, size, name)?;
    Ok(standing)
}
