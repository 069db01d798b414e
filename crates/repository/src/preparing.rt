//! What is written before the file of a commit: the directories, the new contents, and nothing at the name behind the file.
ghost use Rattle.std.specs.Prelude.{◌≡◌, ◌+◌, ◌<◌, All, IfOk, IsTrue, List};
ghost use Rattle.std.specs.List.Sorted.{IsStrictlySortedBy};
ghost use Rattle.sha1.specs.Sha1.{sha1};
ghost use Rattle.repo_load.specs.cny-base.declared.limits.TheConstants.{COMMITS_LIMIT};
ghost use Rattle.repo_load.specs.tree-disk.Confined.{Confined};
ghost use Rattle.repo_load.specs.tree-disk.Rows.{is_dir_at};
ghost use Rattle.repo_load.specs.tree-disk.Steps.{Makes};
ghost use Rattle.tree_journal.specs.Apply.{with_base};
ghost use Rattle.tree_journal.specs.Preparing.{Prepares};
ghost use Rattle.change_set.specs.ChangeSet.{content_cmp};
ghost use Rattle.change_set.specs.declared.change.Carried.{Carried};
ghost use Rattle.repo_load.specs.Counts.{IsPreparedName};
ghost use Rattle.repo_load.specs.Files.{commit_file, contents_dir, repository_base};
ghost use Rattle.change_pull.specs.Incoming.{content_at};
ghost use Rattle.repository.specs.Preparing.{is_dir_name, AreStored, IsCarriedName, IsPutName, IsPreparedFor, IsStored, IsUntold, IsWrittenName};
ghost use Rattle.repo_load.specs.journal-log.Own.{staged};

use crate::storing::put_content;
use change_pull::Incoming;
use repo_index::Catalogue;
use repo_load::cny_base::{OutOfMemory, Path, Stop};
use repo_load::tree_disk::{TreeDisk, steps};
use repo_load::{base_path, commit_path, contents_path};
use std::alloc::Global;
use tree_journal::make_dir;

// ---- directories

// Makes the base and the directory of the contents, and answers that.
fn make_dirs<D: TreeDisk>(alloc: Global, disk: &mut D) -> Result<Path, Stop>
    ensures makes { Makes D.disk is_dir_name (λ tree. with_base contents_dir (with_base repository_base tree)) disk.old disk.new result }
    ensures path { IfOk result (λ path. path ≡ contents_dir) }
{
    let base = base_path(alloc)?;
    let contents = contents_path(alloc)?;
    make_dir(alloc, disk, &base)?;
    make_dir(alloc, disk, &contents)?;
    Ok(contents)
}

// ---- contents

// Puts a content whose name no trove records.
fn put_new<D: TreeDisk, I: Incoming>(
    alloc: Global,
    disk: &mut D,
    committed: &Catalogue,
    dir: &Path,
    contents: &I,
    place: usize,
) -> Result<(), Stop>
    ghost listed: { List Carried }
    requires place { place < I.many contents.now }
    requires named { I.named contents.now listed }
    requires stand { IsTrue D.disk.tells → I.stand contents.now (staged repository_base) listed (D.disk.reads disk.old) }
    requires hash { IsTrue D.disk.tells → (content_at listed place).name ≡ sha1 (content_at listed place).bytes }
    requires dir { dir.now ≡ contents_dir }
    requires stands { IsTrue D.disk.tells → IsTrue (is_dir_at (D.disk.reads disk.old) contents_dir) }
    ensures { let content = content_at listed place in
        Prepares D.disk (IsUntold D.disk.tells) (IsPutName committed.now content) (IsStored committed.now content) disk.old disk.new result }
{
    let name = contents.name(place);
    if committed.has_content(&name) {
        return Ok(());
    }
    let read = contents.read(alloc, disk, place)?;
    put_content(alloc, disk, dir, &name, contents.bytes(place, &read))
}

// Puts each content whose name no trove records.
fn put_contents<D: TreeDisk, I: Incoming>(
    alloc: Global,
    disk: &mut D,
    committed: &Catalogue,
    dir: &Path,
    contents: &I,
) -> Result<(), Stop>
    ghost listed: { List Carried }
    requires named { I.named contents.now listed }
    requires stand { IsTrue D.disk.tells → I.stand contents.now (staged repository_base) listed (D.disk.reads disk.old) }
    requires hash { IsTrue D.disk.tells → All (λ (content : Carried). content.name ≡ sha1 content.bytes) listed }
    requires rising { IsTrue D.disk.tells → IsStrictlySortedBy content_cmp listed }
    requires dir { dir.now ≡ contents_dir }
    requires stands { IsTrue D.disk.tells → IsTrue (is_dir_at (D.disk.reads disk.old) contents_dir) }
    ensures { Prepares D.disk (IsUntold D.disk.tells) (IsCarriedName committed.now listed) (AreStored committed.now listed) disk.old disk.new result }
{
    let count = contents.count();
    for place in 0..count {
        put_new(alloc, disk, committed, dir, contents, place)?;
    }
    Ok(())
}

// The name behind that of the file of a further commit.
fn path_behind(alloc: Global, committed: &Catalogue) -> Result<Path, OutOfMemory>
    ensures { IfOk result (λ path. path ≡ commit_file (committed.now.commits + 2)) }
{
    let path = commit_path(alloc, u64::from(committed.commits()) + 2)?;
    Ok(path)
}

/// Makes the disk ready for the file of a further commit: the base and the directory of the contents stand, each content that
/// no trove records stands under its name, in place of all that stood there, and nothing stands at the name behind that of the
/// new file, so that no older file there counts as a commit. No other name changes. `Refused` never comes where the disk tells
/// its tree.
pub(crate) fn prepare<D: TreeDisk, I: Incoming>(
    alloc: Global,
    disk: &mut D,
    committed: &Catalogue,
    contents: &I,
) -> Result<(), Stop>
    ghost listed: { List Carried }
    requires few { committed.now.commits < COMMITS_LIMIT }
    requires named { I.named contents.now listed }
    requires stand { IsTrue D.disk.tells → I.stand contents.now (staged repository_base) listed (D.disk.reads disk.old) }
    requires hash { IsTrue D.disk.tells → All (λ (content : Carried). content.name ≡ sha1 content.bytes) listed }
    requires rising { IsTrue D.disk.tells → IsStrictlySortedBy content_cmp listed }
    ensures prepares { Prepares D.disk (IsUntold D.disk.tells) (IsPreparedName committed.now) (IsPreparedFor committed.now listed) disk.old disk.new result }
    // Of the contents it changes the carried ones alone.
    ensures only { IsTrue D.disk.tells → Confined D.disk (IsWrittenName committed.now listed) disk.old disk.new }
{
    let behind = path_behind(alloc, committed)?;
    let dir = make_dirs(alloc, disk)?;
    put_contents(alloc, disk, committed, &dir, contents)?;
    steps::clear_tree(alloc, disk, &behind)
}
