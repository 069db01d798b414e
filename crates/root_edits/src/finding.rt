//! What is found at one recorded path.
ghost use Rattle.std.specs.Prelude.{◌≡◌, ◌++◌, [], IsTrue, OnOk, Some};
ghost use Rattle.std.specs.List.{cons_option};
ghost use Rattle.std.specs.Option.{option_map};
ghost use Rattle.tree_scan.specs.tree-disk.Rows.{bytes_at, is_file_at};
ghost use Rattle.tree_scan.specs.Marks.{fingerprint_at};
ghost use Rattle.root_edits.specs.Verify as spec;
ghost use Rattle.root_edits.specs.Verify.{finding_of, IsChangeAt, IsChangedFile, IsFoundAt, LacksAt, LacksContent};
ghost use Rattle.content_store.specs.Contents.{LacksAnswer};
ghost use Rattle.content_store.specs.Searches.{no_refusal, Searches};

use content_store::Contents;
use std::alloc::Global;
use tree_scan::tree_disk::TreeDisk;
use tree_scan::{Finding, Found, Mark, differing, mark_at};
use update_job::cny_base::{Copies, OutOfMemory, Path, Stop};
use update_job::cny_stream::FileRec;
use update_job::trove_parts::FileAt;

// Whether the fingerprint is as the record tells.
fn stands_as(mark: &Mark, rec: &FileRec) -> bool
    ensures { result ≡ spec.stands_as mark.now rec.now }
{
    match rec {
        FileRec::Dir { .. } => mark.is_dir(),
        FileRec::File { .. } => mark.is_of(rec),
        FileRec::Link { .. } => mark.is_of(rec),
    }
}

// A file stands at the path where one of this size and name is recorded.
fn find_change<T: TreeDisk, C: Contents>(
    alloc: Global,
    root: &mut T,
    far: &mut C,
    path: &Path,
    size: u32,
    name: &[u8; 20],
) -> Result<Found, Stop>
    requires { IsTrue T.disk.tells → IsTrue (is_file_at (T.disk.reads root.old) path.now) }
    ensures { Searches T.disk C.contents (λ answers tree found. IsChangedFile answers (bytes_at tree path.now) size name.now found) no_refusal (λ told answers tree. IsTrue told → LacksAnswer answers name.now)
        root.old root.new far.old far.new result }
{
    let Some(bytes) = far.find(alloc, name)? else {
        return Ok(Found::Changed);
    };
    if bytes.get().len() != size as usize {
        return Ok(Found::Changed);
    }
    let count = differing(alloc, root, path, bytes.get())?;
    Ok(Found::Bytes(count))
}

// Something with this fingerprint stands at the path, and isn't as the record tells.
fn change_found<T: TreeDisk, C: Contents>(
    alloc: Global,
    root: &mut T,
    far: &mut C,
    file: &FileAt,
    mark: &Mark,
) -> Result<Found, Stop>
    requires { IsTrue T.disk.tells → fingerprint_at (T.disk.reads root.old) file.now.path ≡ mark.now }
    ensures { Searches T.disk C.contents (λ answers tree found. IsChangeAt answers tree file.now.path mark.now file.now.rec found) no_refusal (λ told answers tree. IsTrue told → LacksContent answers mark.now file.now.rec)
        root.old root.new far.old far.new result }
{
    match (mark, &file.rec) {
        (Mark::File { .. }, FileRec::File { size, name, .. }) => {
            find_change(alloc, root, far, &file.path, *size, name)
        }
        _ => Ok(Found::Changed),
    }
}

/// What is found at a recorded path: nothing, where it is as recorded.
pub(crate) fn found_at<T: TreeDisk, C: Contents>(
    alloc: Global,
    root: &mut T,
    far: &mut C,
    file: &FileAt,
) -> Result<Option<Found>, Stop>
    ensures { Searches T.disk C.contents (λ answers tree found. IsFoundAt answers tree file.now.path file.now.rec found) no_refusal (λ told answers tree. IsTrue told → LacksAt answers tree file.now.path file.now.rec)
        root.old root.new far.old far.new result }
{
    let mark = mark_at(alloc, root, &file.path)?;
    if mark.is_nothing() {
        return Ok(Some(Found::Missing));
    }
    if stands_as(&mark, &file.rec) {
        return Ok(None);
    }
    let found = change_found(alloc, root, far, file, &mark)?;
    Ok(Some(found))
}

/// Appends what was found at a path.
pub(crate) fn push_found(
    lines: &mut Vec<Finding>,
    path: &Path,
    found: Option<Found>,
) -> Result<(), OutOfMemory>
    ensures { OnOk result (lines.new.items ≡ lines.old.items ++ cons_option (option_map (finding_of path.now) found) []) }
{
    let Some(what) = found else {
        return Ok(());
    };
    let path = path.copy()?;
    lines.push(Finding { path, what })?;
    Ok(())
}
