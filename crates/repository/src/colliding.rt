//! Contents that differ from committed ones of their names.
ghost use Rattle.std.specs.Prelude.{◌<◌, IsTrue, List, OnOk};
ghost use Rattle.repo_load.specs.tree-disk.Tree.{Name};
ghost use Rattle.change_set.specs.declared.change.Carried.{Carried};
ghost use Rattle.repo_load.specs.Contents.{IsDamagedContent};
ghost use Rattle.change_pull.specs.Incoming.{content_at};
ghost use Rattle.repository.specs.Outcome.{committed_contents, AreSound, IsDamagedSource};
ghost use Rattle.repository.specs.Order.{source_stop, sources_stop, StopsAs};
ghost use Rattle.repository.specs.Tests.{collides, collision};
ghost use Rattle.repository.specs.Verdict.{Checks};
ghost use Rattle.repo_load.specs.Files.{repository_base};
ghost use Rattle.repo_load.specs.journal-log.Own.{staged};

use change_pull::Incoming;
use repo_index::Catalogue;
use repo_load::cny_base::{Refusal, Stop};
use repo_load::content;
use repo_load::content_store::first_difference;
use repo_load::tree_disk::TreeDisk;
use std::alloc::Global;

// Whether a content is the committed one of its name, where there is one.
fn check_content<D: TreeDisk, I: Incoming>(
    alloc: Global,
    disk: &mut D,
    committed: &Catalogue,
    contents: &I,
    place: usize,
) -> Result<(), Stop>
    ghost listed: { List Carried }
    requires place { place < I.many contents.now }
    requires named { I.named contents.now listed }
    requires stand { IsTrue D.disk.tells → I.stand contents.now (staged repository_base) listed (D.disk.reads disk.old) }
    ensures checks { let carried = content_at listed place in
        Checks D.disk (λ tree. collides (committed_contents committed.now.troves tree carried.name) carried)
        (IsDamagedContent committed.now.troves carried.name) disk.old disk.new result }
    ensures sound { IsTrue D.disk.tells → OnOk result
        ((path : Name) → IsDamagedContent committed.now.troves (content_at listed place).name (D.disk.reads disk.old) path → ⊥) }
    ensures first { IsTrue D.disk.tells → StopsAs (source_stop committed.now.troves (D.disk.reads disk.old) (content_at listed place)) result }
{
    let name = contents.name(place);
    let Some(kept) = content(alloc, disk, committed, &name)? else {
        return Ok(());
    };
    let read = contents.read(alloc, disk, place)?;
    match first_difference(kept.get(), contents.bytes(place, &read)) {
        None => Ok(()),
        Some(at) => Err(Stop::Refused(Refusal::Collision {
            name,
            at: at as u64,
        })),
    }
}

/// Whether each content is the committed one of its name, where there is one. `Collision` names the first one that differs,
/// with the first difference. `Damaged` names the file of a committed content. Of several the first one stops.
pub(crate) fn check_collisions<D: TreeDisk, I: Incoming>(
    alloc: Global,
    disk: &mut D,
    committed: &Catalogue,
    contents: &I,
) -> Result<(), Stop>
    ghost listed: { List Carried }
    requires named { I.named contents.now listed }
    requires stand { IsTrue D.disk.tells → I.stand contents.now (staged repository_base) listed (D.disk.reads disk.old) }
    ensures checks { Checks D.disk (λ tree. collision (committed_contents committed.now.troves tree) listed)
        (IsDamagedSource listed committed.now.troves) disk.old disk.new result }
    ensures sound { IsTrue D.disk.tells → OnOk result (AreSound listed committed.now.troves (D.disk.reads disk.old)) }
    ensures first { IsTrue D.disk.tells → StopsAs (sources_stop committed.now.troves (D.disk.reads disk.old) listed) result }
{
    let count = contents.count();
    for place in 0..count {
        check_content(alloc, disk, committed, contents, place)?;
    }
    Ok(())
}
