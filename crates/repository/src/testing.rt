//! The tests of a commit.
ghost use Rattle.std.specs.Prelude.{◌≡◌, ◌≢◌, ◌<◌, ◌++◌, [], List, IfErr, IfOk, IsTrue, None, OnOk};
ghost use Rattle.std.specs.List.Sorted.{IsStrictlySortedBy};
ghost use Rattle.change_set.specs.ChangeSet.{content_cmp};
ghost use Rattle.change_set.specs.declared.change.Carried.{Carried};
ghost use Rattle.change_set.specs.declared.change.ChangeSet.{ChangeSet};
ghost use Rattle.repo_load.specs.cny-base.declared.limits.TheConstants.{COMMITS_LIMIT};
ghost use Rattle.repository.specs.Outcome.{committed_contents, AreSound, IsDamagedSource, MayBeAdded, TestsChange};
ghost use Rattle.repository.specs.Order.{later_stop, IsFirstStop, StopsAs};
ghost use Rattle.repository.specs.Tests.{later_refusal, missing_ref, refs_of, too_many};
ghost use Rattle.repository.specs.Verdict.{Checks, IsVerdict};
ghost use Rattle.repo_load.specs.Files.{repository_base};
ghost use Rattle.repo_load.specs.journal-log.Own.{staged};

use crate::colliding::check_collisions;
use crate::contents::check_contents;
use crate::parts::made_troves;
use crate::refs::check_refs;
use change_pull::Incoming;
use change_set::Part;
use repo_index::Catalogue;
use repo_load::cny_base::{COMMITS_LIMIT, Fault, Refusal, Stop, What};
use repo_load::tree_disk::TreeDisk;
use std::alloc::Global;

// Whether a further commit may be made.
fn check_count(committed: &Catalogue) -> Result<(), Fault>
    ensures { IsVerdict (too_many committed.now.commits) result }
{
    if committed.commits() < COMMITS_LIMIT {
        return Ok(());
    }
    Err(Fault::Refused(Refusal::TooLarge {
        what: What::Commits,
        size: u64::from(COMMITS_LIMIT),
    }))
}

// The tests behind those of the parts, where there are troves.
fn check_troves<D: TreeDisk, I: Incoming>(
    alloc: Global,
    disk: &mut D,
    committed: &Catalogue,
    contents: &I,
    added: &Catalogue,
) -> Result<(), Stop>
    ghost listed: { List Carried }
    requires full { added.now.troves ≢ [] }
    requires named { I.named contents.now listed }
    requires stand { IsTrue D.disk.tells → I.stand contents.now (staged repository_base) listed (D.disk.reads disk.old) }
    requires rising { IsTrue D.disk.tells → IsStrictlySortedBy content_cmp listed }
    ensures checks { Checks D.disk
        (λ tree. later_refusal committed.now (committed_contents committed.now.troves tree) listed added.now.troves)
        (IsDamagedSource listed committed.now.troves) disk.old disk.new result }
    ensures sound { IsTrue D.disk.tells → OnOk result (AreSound listed committed.now.troves (D.disk.reads disk.old)) }
    ensures first { IsTrue D.disk.tells → StopsAs (later_stop committed.now (D.disk.reads disk.old) listed added.now.troves) result }
    // On every disk.
    ensures refs { OnOk result (missing_ref (committed.now.troves ++ added.now.troves) (refs_of added.now.troves) ≡ None) }
    ensures few { OnOk result (committed.now.commits < COMMITS_LIMIT) }
{
    check_refs(alloc, committed, added)?;
    check_contents(committed, contents, added.troves())?;
    check_collisions(alloc, disk, committed, contents)?;
    check_count(committed)?;
    Ok(())
}

/// The troves that a change set adds, in a catalogue of their own, where no test fails. Nothing is written. The refusal is
/// that of the first test that fails: part by part those of `made_troves`; then those of references, of missing contents, of
/// contents that collide with committed ones, and of the number of commits. With no troves nothing more is tested.
pub(crate) fn tested<D: TreeDisk, I: Incoming>(
    alloc: Global,
    disk: &mut D,
    committed: &Catalogue,
    parts: &[Part],
    contents: &I,
) -> Result<Catalogue, Stop>
    ghost change: { ChangeSet }
    requires parts { parts.now ≡ change.parts }
    requires named { I.named contents.now change.contents }
    requires stand { IsTrue D.disk.tells → I.stand contents.now (staged repository_base) change.contents (D.disk.reads disk.old) }
    requires rising { IsTrue D.disk.tells → IsStrictlySortedBy content_cmp change.contents }
    ensures tested { TestsChange D.disk change committed.now disk.old disk.new result }
    ensures sound { IsTrue D.disk.tells → IfOk result (λ added. added.troves ≢ [] → AreSound change.contents committed.now.troves (D.disk.reads disk.old)) }
    ensures first { IsTrue D.disk.tells → IfErr result (IsFirstStop committed.now (D.disk.reads disk.old) change) }
    // On every disk.
    ensures joins { IfOk result (λ added. MayBeAdded committed.now change.parts added.troves) }
{
    let added = made_troves(alloc, committed, parts)?;
    if added.troves().is_empty() {
        return Ok(added);
    }
    check_troves(alloc, disk, committed, contents, &added)?;
    Ok(added)
}
