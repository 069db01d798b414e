//! The change set between two lists of troves.
ghost use Rattle.std.specs.Prelude.{All, IfOk};
ghost use Rattle.change_set.specs.ChangeSet.{HasContents, IsPart};
ghost use Rattle.repo_load.specs.trove-stream.Installed.{IsRising};
ghost use Rattle.repo_load.specs.Looks.{Looks};
ghost use Rattle.repo_index.specs.Catalogue.{AreCommitted};
ghost use Rattle.repository.specs.Between.{AreContents, AreStoredIn, HasStored, LeadsBetween};
ghost use Rattle.repository.specs.Damage.{IsDamagedBetween};
ghost use Rattle.repository.specs.BetweenSteps.{IsHashed};

use crate::between_contents::read_contents;
use crate::between_parts::parts_between;
use crate::names::names_between;
use crate::sizes::other_of_troves;
use change_set::{CarriedList, ChangeSet};
use repo_index::Catalogue;
use repo_load::cny_base::Stop;
use repo_load::content_path;
use repo_load::tree_disk::TreeDisk;
use repo_load::trove_stream::Trove;
use std::alloc::Global;

// The contents that are sent, which have the sizes of all records of the new troves.
fn contents_between<D: TreeDisk>(
    alloc: Global,
    disk: &mut D,
    catalogue: &Catalogue,
    old: &[Trove],
    fresh: &[Trove],
) -> Result<CarriedList, Stop>
    requires committed { AreCommitted catalogue.now.troves fresh.now }
    requires rises { IsRising old.now }
    ensures looks { Looks D.disk AreStoredIn (IsDamagedBetween old.now fresh.now) disk.old disk.new result }
    ensures contents { IfOk result (AreContents old.now fresh.now) }
    ensures hashes { IfOk result (All IsHashed) }
{
    let names = names_between(alloc, old, fresh)?;
    let contents = read_contents(alloc, disk, catalogue, names.get())?;
    if let Some(name) = other_of_troves(contents.get(), fresh) {
        return Err(Stop::Damaged {
            path: content_path(alloc, &name)?,
        });
    }
    Ok(contents)
}

/// The change set that leads from the old troves to the new ones; with no old ones it is the absolute one. All are committed,
/// and the names of the old ones strictly rise.
///
/// Of each new trove, in their order, it has nothing where the old one of its name is the same one, the relative trove where
/// there is another one of its name, and else the whole trove. It carries the contents of which the receiver of the old troves
/// may have none: those of the files that the old trove of the name doesn't record at the same path with the same size. Old
/// troves whose names no new one has aren't told of.
///
/// `Damaged` names the file of a content, exactly where it is to be sent, and no file stands there that has the name's SHA-1
/// and the size that each record of the new troves tells with it. `Failed` comes only where the disk's count of faults rose.
/// `Refused` never comes, and no name changes, however it ends.
pub fn between<D: TreeDisk>(
    alloc: Global,
    disk: &mut D,
    catalogue: &Catalogue,
    old: &[Trove],
    fresh: &[Trove],
) -> Result<ChangeSet, Stop>
    requires old_committed { AreCommitted catalogue.now.troves old.now }
    requires fresh_committed { AreCommitted catalogue.now.troves fresh.now }
    requires old_rises { IsRising old.now }
    ensures looks { Looks D.disk HasStored (IsDamagedBetween old.now fresh.now) disk.old disk.new result }
    // On every disk.
    ensures between { IfOk result (LeadsBetween old.now fresh.now) }
    // So it is a change set, unless it is too large for one.
    ensures parts { IfOk result (λ set. All IsPart set.parts) }
    ensures contents { IfOk result HasContents }
{
    // No two of its troves have one id.
    let _troves = catalogue.troves();
    let parts = parts_between(alloc, old, fresh)?;
    let contents = contents_between(alloc, disk, catalogue, old, fresh)?;
    Ok(ChangeSet { parts, contents })
}
