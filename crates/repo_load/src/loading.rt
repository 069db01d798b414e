//! All commits of a repository.
ghost use Rattle.std.specs.Prelude.{◌≡◌, ◌≢◌, ◌+◌, ◌<◌, ◌∷◌, ◌++◌, [], length, map, All, IfOk, None, OnOk, false, true};
ghost use Rattle.std.specs.FinMap.{get};
ghost use Rattle.repo_index.specs.cny-base.declared.limits.TheConstants.{COMMITS_LIMIT};
ghost use Rattle.repo_index.specs.trove-stream.Trove.{IsTrove};
ghost use Rattle.repo_load.specs.Damage.{IsBadCommit, IsDamagedCommit};
ghost use Rattle.repo_load.specs.Files.{commit_file, HoldsCatalogue};
ghost use Rattle.repo_load.specs.State.{IsCommit};
ghost use Rattle.repo_load.specs.Loading.{kept, AreRead, HoldsKept, HoldsSomeCatalogue, IsAnswer, IsCatalogue, IsKept};
ghost use Rattle.repo_load.specs.Looks.{Looks};

use crate::commit_reading::Troves;
use crate::joining::add_troves;
use crate::names::commit_path;
use crate::reading::read_commit;
use crate::resolving::first_unresolved;
use crate::state_laws::one_commit;
use journal_log::tree_disk::TreeDisk;
use repo_index::Catalogue;
use repo_index::cny_base::{COMMITS_LIMIT, OutOfMemory, Stop};
use std::alloc::Global;

/// The commits that are read so far: what is kept of them, and how many troves each has.
#[derive(Drop)]
struct ReadCommits {
    catalogue: Catalogue,
    counts: Vec<usize>,
}

// Joins a commit to those before it, and answers whether it may follow them.
fn join(
    alloc: Global,
    whole: bool,
    read: &mut ReadCommits,
    troves: Troves,
) -> Result<bool, OutOfMemory>
    requires few { read.old.catalogue.commits < COMMITS_LIMIT }
    requires full { troves ≢ [] }
    requires troves { All IsTrove troves }
    ensures answer { IfOk result (IsAnswer (IsCommit read.old.catalogue.troves troves)) }
    ensures catalogue { IfOk result (λ joined. joined ≡ true → read.new.catalogue
        ≡ record { commits = read.old.catalogue.commits + 1; troves = read.old.catalogue.troves ++ map (kept whole) troves }) }
    ensures counts { IfOk result (λ joined. joined ≡ true → read.new.counts.items ≡ read.old.counts.items ++ length troves ∷ []) }
{
    let count = troves.get().len();
    if !add_troves(alloc, whole, &mut read.catalogue, troves)? {
        return Ok(false);
    }
    read.counts.push(count)?;
    read.catalogue.count_commit();
    Ok(true)
}

// Reads the commit behind those that were read, and answers whether there is one.
fn read_next<D: TreeDisk>(
    alloc: Global,
    whole: bool,
    disk: &mut D,
    read: &mut ReadCommits,
) -> Result<bool, Stop>
    requires { AreRead whole D.disk.tells (D.disk.reads disk.old) read.old.catalogue read.old.counts.items }
    ensures looks { Looks D.disk
        (λ tree more. more ≡ false → get tree (commit_file (read.new.catalogue.commits + 1)) ≡ None) IsBadCommit
        disk.old disk.new result }
    ensures read { OnOk result (AreRead whole D.disk.tells (D.disk.reads disk.old) read.new.catalogue read.new.counts.items) }
    ensures more { IfOk result (λ more. more ≡ true → read.new.catalogue.commits ≡ read.old.catalogue.commits + 1) }
{
    one_commit();
    let before = read.catalogue.commits();
    let number = u64::from(before) + 1;
    let Some(troves) = read_commit(alloc, disk, number)? else {
        return Ok(false);
    };
    if before == COMMITS_LIMIT {
        return Err(Stop::Damaged {
            path: commit_path(alloc, number)?,
        });
    }
    if !join(alloc, whole, read, troves)? {
        return Err(Stop::Damaged {
            path: commit_path(alloc, number)?,
        });
    }
    Ok(true)
}

// Reads all commits.
fn read_commits<D: TreeDisk>(alloc: Global, whole: bool, disk: &mut D) -> Result<ReadCommits, Stop>
    ensures looks { Looks D.disk (λ tree read. get tree (commit_file (read.catalogue.commits + 1)) ≡ None) IsBadCommit
        disk.old disk.new result }
    ensures read { IfOk result (λ read. AreRead whole D.disk.tells (D.disk.reads disk.old) read.catalogue read.counts.items) }
{
    let mut read = ReadCommits {
        catalogue: Catalogue::new(alloc),
        counts: Vec::new(alloc),
    };
    'commits: loop {
        if !read_next(alloc, whole, disk, &mut read)? {
            return Ok(read);
        }
    }
}

// Reads all commits, tests them, and keeps them whole or their ids and references alone.
fn kept_commits<D: TreeDisk>(alloc: Global, whole: bool, disk: &mut D) -> Result<Catalogue, Stop>
    ensures tests { Looks D.disk (HoldsKept whole) IsDamagedCommit disk.old disk.new result }
    ensures rules { IfOk result (IsKept whole) }
{
    let read = read_commits(alloc, whole, disk)?;
    if let Some(number) = first_unresolved(&read.catalogue, &read.counts) {
        return Err(Stop::Damaged {
            path: commit_path(alloc, number)?,
        });
    }
    let ReadCommits {
        catalogue,
        counts: _counts,
    } = read;
    Ok(catalogue)
}

/// The catalogue of the commits that a disk holds, which is recovered. It reads the files of the commits alone, and neither
/// reads nor looks for contents.
///
/// `Damaged` comes exactly where one of the files isn't in its grammar, or fails a cross-check, and names the first one: in
/// the order of the commits one that isn't in its grammar, whose troves record a forbidden path, or an id that is committed
/// already; and else the first one with a trove that refers to one that isn't committed. `Failed` comes only where the
/// disk's count of faults rose. `Refused` never comes, and no name changes, however it ends.
pub fn load<D: TreeDisk>(alloc: Global, disk: &mut D) -> Result<Catalogue, Stop>
    ensures loads { Looks D.disk HoldsCatalogue IsDamagedCommit disk.old disk.new result }
    // Also where the disk tells no tree.
    ensures rules { IfOk result IsCatalogue }
{
    let catalogue = kept_commits(alloc, true, disk)?;
    Ok(catalogue)
}

/// Whether `load` answers a catalogue: it ends as that does, with the same damaged file, but keeps none. While it reads, it keeps of
/// the troves their ids and references alone.
pub fn tested<D: TreeDisk>(alloc: Global, disk: &mut D) -> Result<(), Stop>
    ensures { Looks D.disk (λ tree done. HoldsSomeCatalogue tree) IsDamagedCommit disk.old disk.new result }
{
    kept_commits(alloc, false, disk)?;
    Ok(())
}
