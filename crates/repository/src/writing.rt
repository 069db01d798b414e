//! The file of a commit, and what it needs.
ghost use Rattle.std.specs.Prelude.{◌≡◌, ◌<◌, ◌+◌, ◌∷◌, [], true, All, List, IfOk, IsTrue, OnOk};
ghost use Rattle.std.specs.List.{list_all};
ghost use Rattle.std.specs.List.Sorted.{IsStrictlySortedBy};
ghost use Rattle.sha1.specs.Sha1.{sha1};
ghost use Rattle.repo_load.specs.cny-base.declared.limits.TheConstants.{COMMITS_LIMIT};
ghost use Rattle.repo_load.specs.trove-stream.Trove.{IsTrove};
ghost use Rattle.change_set.specs.ChangeSet.{content_cmp};
ghost use Rattle.change_set.specs.declared.change.Carried.{Carried};
ghost use Rattle.repo_load.specs.tree-disk.Tree.{is_byte};
ghost use Rattle.repo_load.specs.Files.{commit_bytes, FitsTrove, repository_base};
ghost use Rattle.repo_load.specs.Steps.{commit_put};
ghost use Rattle.repository.specs.Outcome.{MayCommit};
ghost use Rattle.repository.specs.Preparing.{file_mode, WritesCommit};
ghost use Rattle.repo_load.specs.journal-log.Own.{staged};

use crate::preparing::prepare;
use change_pull::Incoming;
use repo_index::Catalogue;
use repo_load::cny_base::{Mode, OutOfMemory, Stop};
use repo_load::tree_disk::{TreeDisk, byte_ranges};
use repo_load::trove_stream::Trove;
use repo_load::{base_path, commit_path, encode_commit};
use std::alloc::Global;
use tree_journal::{Put, Puts, Want, apply};

// The one write of a commit of this number.
fn commit_puts(alloc: Global, number: u64, troves: &[Trove]) -> Result<Puts, OutOfMemory>
    ensures value { IfOk result (λ puts. puts ≡ commit_put number file_mode troves.now ∷ []) }
    ensures troves { OnOk result (All IsTrove troves.now) }
    ensures fits { OnOk result (All FitsTrove troves.now) }
    ensures bytes { OnOk result (list_all is_byte (commit_bytes troves.now) ≡ true) }
{
    let path = commit_path(alloc, number)?;
    let bytes = encode_commit(alloc, troves)?;
    byte_ranges(bytes.get());
    let Some(mode) = Mode::new(0o644) else {
        unreachable!()
    };
    let want = Want::File { mode, bytes };
    let items = vec![in alloc; Put { path, want }]?;
    match Puts::new(items) {
        Some(puts) => Ok(puts),
        None => unreachable!(),
    }
}

/// Writes a further commit of these troves, with these contents. Want of memory also where the stream of a trove has no room
/// in an item.
pub(crate) fn write<D: TreeDisk, I: Incoming>(
    alloc: Global,
    disk: &mut D,
    committed: &Catalogue,
    contents: &I,
    troves: &[Trove],
) -> Result<(), Stop>
    ghost listed: { List Carried }
    requires few { committed.now.commits < COMMITS_LIMIT }
    requires named { I.named contents.now listed }
    requires stand { IsTrue D.disk.tells → I.stand contents.now (staged repository_base) listed (D.disk.reads disk.old) }
    requires hash { IsTrue D.disk.tells → All (λ (content : Carried). content.name ≡ sha1 content.bytes) listed }
    requires rising { IsTrue D.disk.tells → IsStrictlySortedBy content_cmp listed }
    requires rests { IsTrue D.disk.tells → MayCommit D.disk committed.now disk.old }
    ensures writes { WritesCommit D.disk committed.now listed troves.now disk.old disk.new result }
    // On every disk.
    ensures troves { OnOk result (All IsTrove troves.now) }
{
    let number = u64::from(committed.commits()) + 1;
    let puts = commit_puts(alloc, number, troves)?;
    let base = base_path(alloc)?;
    prepare(alloc, disk, committed, contents)?;
    apply(alloc, disk, &base, &puts)
}
