//! The contents that a job replaces, saved in the private directory.
ghost use Rattle.std.specs.Prelude.{◌≡◌, ◌≤◌, List, ℕ, All, IsTrue, Some, false, true, length};
ghost use Rattle.sha1.specs.Sha1.{sha1};
ghost use Rattle.job_targets.specs.cny-base.Path.{is_path, parent};
ghost use Rattle.job_targets.specs.cny-base.Reserved.{private_directory};
ghost use Rattle.job_targets.specs.tree-disk.Tree.{Name};
ghost use Rattle.job_targets.specs.tree-disk.Clear.{is_within, IsBare};
ghost use Rattle.job_targets.specs.tree-disk.Confined.{Among};
ghost use Rattle.job_targets.specs.tree-disk.Rows.{is_dir_at};
ghost use Rattle.job_targets.specs.content-store.Store.{content_path, stored};
ghost use Rattle.job_targets.specs.tree-journal.Preparing.{Prepares};
ghost use Rattle.local_db.specs.declared.format.Format.{Format};
ghost use Rattle.local_db.specs.Names.{counts, saved};
ghost use Rattle.local_db.specs.Stores.{StoresIn};
ghost use Rattle.local_db.specs.SystemState.{SystemState};
ghost use Rattle.job_targets.specs.declared.entry.Entry as declared;
ghost use Rattle.job_targets.specs.Agree.{AllAgree, bytes_of};
ghost use Rattle.job_targets.specs.Old.{is_staged};
ghost use Rattle.rollback_stack.specs.Saving.{AreSaved, IsNextJob, IsSavedIn, IsSavedJob, IsSaveName, IsUntoldCollision, KeepsSystem, MayHold, is_save_name, is_saving_name};

use crate::clearing::make_ready;
use job_targets::cny_base::{Path, Stop};
use job_targets::content_store::{Sha1Namer, put};
use job_targets::tree_disk::TreeDisk;
use job_targets::{Entry, old_bytes};
use local_db::{make_dir, saved_path};
use std::alloc::Global;

// Saves a content in a directory, which is made where there is none.
fn save<D: TreeDisk>(alloc: Global, disk: &mut D, dir: &Path, bytes: &[u8]) -> Result<(), Stop>
    requires path { IsTrue (is_path dir.now) }
    requires short { length dir.now ≤ 983 }
    requires parent { IsTrue D.disk.tells → IsTrue (is_dir_at (D.disk.reads disk.old) (parent dir.now)) }
    requires free { IsTrue D.disk.tells → MayHold (D.disk.reads disk.old) (content_path dir.now (sha1 bytes.now)) bytes.now }
    ensures { Prepares D.disk (IsUntoldCollision D.disk.tells) (Among (is_save_name dir.now bytes.now)) (λ tree. stored tree dir.now (sha1 bytes.now) ≡ Some bytes.now) disk.old disk.new result }
{
    make_dir(alloc, disk, dir)?;
    put(alloc, disk, &Sha1Namer, dir, bytes)?;
    Ok(())
}

// Saves the content of the file that stood at the path of an entry.
fn save_old<D: TreeDisk>(alloc: Global, disk: &mut D, dir: &Path, entry: &Entry) -> Result<(), Stop>
    requires path { IsTrue (is_path dir.now) }
    requires short { length dir.now ≤ 983 }
    requires parent { IsTrue D.disk.tells → IsTrue (is_dir_at (D.disk.reads disk.old) (parent dir.now)) }
    requires free { IsTrue D.disk.tells → (bytes : List ℕ) → bytes_of entry.now.was ≡ Some bytes
        → MayHold (D.disk.reads disk.old) (content_path dir.now (sha1 bytes)) bytes }
    ensures { Prepares D.disk (IsUntoldCollision D.disk.tells) (IsSaveName dir.now entry.now.was) (IsSavedIn dir.now entry.now.was) disk.old disk.new result }
{
    let Some(bytes) = old_bytes(entry) else {
        return Ok(());
    };
    save(alloc, disk, dir, bytes)?;
    Ok(())
}

// Saves the contents of the files that stood at the paths of the entries.
fn save_all<D: TreeDisk>(
    alloc: Global,
    disk: &mut D,
    number: u32,
    entries: &[Entry],
) -> Result<(), Stop>
    requires given { All (λ (e : declared.Entry). is_staged e.was ≡ false) entries.now }
    requires agree { AllAgree entries.now }
    requires base { IsTrue D.disk.tells → IsTrue (is_dir_at (D.disk.reads disk.old) private_directory) }
    requires bare { IsTrue D.disk.tells → IsBare (D.disk.reads disk.old) (saved number) }
    ensures { Prepares D.disk (IsUntoldCollision D.disk.tells) (Among (is_within (saved number))) (AreSaved number entries.now) disk.old disk.new result }
{
    let dir = saved_path(alloc, number)?;
    for entry in entries {
        save_old(alloc, disk, &dir, entry)?;
    }
    Ok(())
}

/// Saves in the private directory what the job of this number replaces: the content of each file that stood at the path of one of
/// its entries.
///
/// Before that, what stands at the places of the job is cleared, and what stands at those of the job `dropped`, to which no
/// database refers any more; and the private directory is made one, in place of a file or a link. However it ends, at every
/// moment, no other name changes. The bytes of the old files are given, and they can be saved: `stashable` is `Ok`. `Failed` comes
/// only where the disk's count of faults rose. The only other stop is want of memory, and where the disk tells nothing also
/// `Collision`: a file may stand in a directory that was just made.
pub fn save_job<D: TreeDisk>(
    alloc: Global,
    disk: &mut D,
    number: u32,
    dropped: Option<u32>,
    entries: &[Entry],
) -> Result<(), Stop>
    requires given { All (λ (e : declared.Entry). is_staged e.was ≡ false) entries.now }
    requires agree { AllAgree entries.now }
    requires parent { IsTrue D.disk.tells → IsTrue (is_dir_at (D.disk.reads disk.old) (parent private_directory)) }
    ensures saves { Prepares D.disk (IsUntoldCollision D.disk.tells) (Among (is_saving_name number dropped)) (IsSavedJob number dropped entries.now) disk.old disk.new result }
    // What the root stores, it stores at every moment, if this is its next job.
    ensures keeps { (f : Format) (s : SystemState) → IsNextJob s number dropped → IsTrue D.disk.tells
        → ((q : Name) → counts s q ≡ true → D.disk.unsynced disk.old q ≡ false) → StoresIn f (D.disk.reads disk.old) s
        → KeepsSystem D.disk f s disk.old disk.new }
{
    make_ready(alloc, disk, number, dropped)?;
    save_all(alloc, disk, number, entries)?;
    Ok(())
}
