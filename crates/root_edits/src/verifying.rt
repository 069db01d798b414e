//! Trees compared with what troves record.
ghost use Rattle.std.specs.Prelude.{◌≡◌, ◌∷◌, [], OnOk, IfOk, IsTrue, min, length, ◌^◌, ◌-◌};
ghost use Rattle.content_store.specs.Contents.{ContentMap};
ghost use Rattle.content_store.specs.Searches.{no_refusal, Searches};
ghost use Rattle.update_job.specs.Lists.{AreInstalled, IsNotInstalled};
ghost use Rattle.root_edits.specs.Verify.{asked, records, verified, AreAdded, IsVerified, LacksOne};

use crate::asked::{check_names, count_paths, is_asked};
use crate::finding::{found_at, push_found};
use content_store::Contents;
use std::alloc::Global;
use tree_scan::tree_disk::TreeDisk;
use tree_scan::{Finding, Findings, Verified};
use update_job::cny_base::{Name, Stop};
use update_job::trove_parts::FileAt;
use update_job::trove_stream::{Installed, Trove};

// Appends what is found at a recorded path.
fn verify_file<T: TreeDisk, C: Contents>(
    alloc: Global,
    root: &mut T,
    far: &mut C,
    file: &FileAt,
    lines: &mut Vec<Finding>,
) -> Result<(), Stop>
    ensures { Searches T.disk C.contents (λ answers tree done. AreAdded answers tree (file.now ∷ []) lines.old.items lines.new.items) no_refusal
        (λ told answers tree. IsTrue told → LacksOne answers tree (file.now ∷ []))
        root.old root.new far.old far.new result }
{
    let found = found_at(alloc, root, far, file)?;
    push_found(lines, &file.path, found)?;
    Ok(())
}

// Appends what is found at recorded paths, in their order.
fn verify_files<T: TreeDisk, C: Contents>(
    alloc: Global,
    root: &mut T,
    far: &mut C,
    files: &[FileAt],
    lines: &mut Vec<Finding>,
) -> Result<(), Stop>
    ensures { Searches T.disk C.contents (λ answers tree done. AreAdded answers tree files.now lines.old.items lines.new.items) no_refusal
        (λ told answers tree. IsTrue told → LacksOne answers tree files.now)
        root.old root.new far.old far.new result }
{
    let mut rest = files;
    while let [file, after @ ..] = rest {
        verify_file(alloc, root, far, file, lines)?;
        rest = after;
    }
    Ok(())
}

// Appends what is found of a trove, if it is asked for.
fn verify_trove<T: TreeDisk, C: Contents>(
    alloc: Global,
    root: &mut T,
    far: &mut C,
    trove: &Trove,
    names: &[Name],
    lines: &mut Vec<Finding>,
) -> Result<(), Stop>
    ensures { Searches T.disk C.contents (λ answers tree done. AreAdded answers tree (records (asked names.now (trove.now ∷ []))) lines.old.items lines.new.items) no_refusal
        (λ told answers tree. IsTrue told → LacksOne answers tree (records (asked names.now (trove.now ∷ []))))
        root.old root.new far.old far.new result }
{
    if is_asked(names, trove) {
        verify_files(alloc, root, far, trove.files(), lines)?;
    }
    Ok(())
}

// Appends what is found of the troves that are asked for, trove by trove.
fn verify_troves<T: TreeDisk, C: Contents>(
    alloc: Global,
    root: &mut T,
    far: &mut C,
    troves: &[Trove],
    names: &[Name],
    lines: &mut Vec<Finding>,
) -> Result<(), Stop>
    ensures { Searches T.disk C.contents (λ answers tree done. AreAdded answers tree (records (asked names.now troves.now)) lines.old.items lines.new.items) no_refusal
        (λ told answers tree. IsTrue told → LacksOne answers tree (records (asked names.now troves.now)))
        root.old root.new far.old far.new result }
{
    let mut rest = troves;
    while let [trove, after @ ..] = rest {
        verify_trove(alloc, root, far, trove, names, lines)?;
        rest = after;
    }
    Ok(())
}

/// Compares a root with what its installed troves record, those of these names, or all where there are none: trove by trove in the
/// order of their names, each once however often it is named, the recorded paths at which something else stands, or nothing. Of a
/// directory that is recorded only that one stands counts, and not its mode. Where a file stands in the place of another one, and
/// the contents have the recorded one, it is told in how many bytes the two differ; contents are searched only there. `NoContents`
/// of `content_store` tells of no bytes.
///
/// `NotInstalled` exactly where one of the names isn't installed, with the first such name; of the refusals no other comes.
/// `Failed` comes only where the root's count of faults rose, `FarFailed` only where that of the contents did, and `FarDamaged`
/// names a path that fails a cross-check of the contents, and comes only where a content that is searched has no answer: a damaged
/// content that isn't searched changes nothing. Nothing is changed, however it ends.
pub fn verify<T: TreeDisk, C: Contents>(
    alloc: Global,
    root: &mut T,
    installed: &Installed,
    names: &[Name],
    far: &mut C,
) -> Result<Verified, Stop>
    ensures verified { Searches T.disk C.contents (λ answers tree found. IsVerified answers tree (asked names.now installed.now) found)
        (λ told tree. IsNotInstalled installed.now names.now) (λ told answers tree. IsTrue told → LacksOne answers tree (records (asked names.now installed.now)))
        root.old root.new far.old far.new result }
    ensures mapped { (map : ContentMap) → IsTrue T.disk.tells → C.contents.holds far.old map
        → IfOk result (λ found. found ≡ verified map (T.disk.reads root.old) (asked names.now installed.now)) }
    // On every disk.
    ensures installed { OnOk result (AreInstalled installed.now names.now) }
    ensures paths { IfOk result (λ found. found.paths ≡ min (length (records (asked names.now installed.now))) (2 ^ 64 - 1)) }
{
    check_names(alloc, installed, names)?;
    let troves = installed.troves();
    let mut lines = Vec::new(alloc);
    verify_troves(alloc, root, far, troves, names, &mut lines)?;
    Ok(Verified {
        lines: Findings::new(lines),
        paths: count_paths(troves, names),
    })
}
