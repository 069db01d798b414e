//! The change set of local changes.
ghost use Rattle.std.specs.Prelude.{◌≡◌, [], All, IfErr, IfOk, OnOk, Some, map};
ghost use Rattle.update_job.specs.trove-parts.Id.{IsTroveId};
ghost use Rattle.update_job.specs.change-set.ChangeSet.{HasContents, IsPart};
ghost use Rattle.update_job.specs.trove-stream.Installed.{IsNameless};
ghost use Rattle.tree_scan.specs.OnlyReads.{OnlyReads};
ghost use Rattle.root_edits.specs.Standing.{IsSizeStop};
ghost use Rattle.root_edits.specs.Local.{all_sights, IsLocal, IsLocalRefusal, IsLocalStop};
ghost use Rattle.root_edits.specs.Moved as moved;
ghost use Rattle.root_edits.specs.Standing.{sights, too_large};
ghost use Rattle.root_edits.specs.Steps.{HasAddedPart, HaveAddedParts};

use crate::moving::{local_ids, moved_trove};
use crate::reaching::reached;
use crate::standing::standing_files;
use change_rel::relative;
use manifest_troves::contents_of;
use std::alloc::Global;
use tree_scan::tree_disk::TreeDisk;
use update_job::change_set::{Carried, ChangeSet, Part, Parts};
use update_job::cny_base::{Name, Stop};
use update_job::trove_parts::TroveId;
use update_job::trove_stream::{Installed, Trove};

// Adds the part of one of the troves that move, whose new id this is, and the contents that it carries.
fn add_trove<T: TreeDisk>(
    alloc: Global,
    root: &mut T,
    troves: &Installed,
    ids: &[TroveId],
    trove: &Trove,
    id: &TroveId,
    parts: &mut Vec<Part>,
    carried: &mut Vec<Carried>,
) -> Result<(), Stop>
    requires ids { ids.now ≡ map (λ t. moved.local_id t.id) troves.now }
    requires valid { All IsTroveId ids.now }
    requires id { id.now ≡ moved.local_id trove.now.id }
    ensures finds { OnlyReads T.disk (λ tree done. Unit {0}) (λ tree refused. too_large (sights tree trove.now.files) ≡ Some refused) root.old root.new result }
    ensures added { OnOk result (HasAddedPart T.disk.tells (T.disk.reads root.old) troves.now trove.now parts.old.items parts.new.items carried.old.items carried.new.items) }
    ensures stops { IfErr result IsSizeStop }
{
    let files = standing_files(alloc, root, trove.files(), carried)?;
    let fresh = moved_trove(alloc, troves, ids, trove, id, files)?;
    let rel = relative(alloc, trove, &fresh)?;
    parts.push(Part::Relative(rel))?;
    Ok(())
}

// Adds the parts of all of them, in their order.
fn add_troves<T: TreeDisk>(
    alloc: Global,
    root: &mut T,
    troves: &Installed,
    ids: &[TroveId],
    parts: &mut Vec<Part>,
    carried: &mut Vec<Carried>,
) -> Result<(), Stop>
    requires ids { ids.now ≡ map (λ t. moved.local_id t.id) troves.now }
    requires valid { All IsTroveId ids.now }
    requires no_parts { parts.old.items ≡ [] }
    requires no_contents { carried.old.items ≡ [] }
    ensures finds { OnlyReads T.disk (λ tree done. Unit {0}) (λ tree refused. too_large (all_sights tree troves.now) ≡ Some refused) root.old root.new result }
    ensures added { OnOk result (HaveAddedParts T.disk.tells (T.disk.reads root.old) troves.now troves.now parts.new.items carried.new.items) }
    ensures stops { IfErr result IsSizeStop }
{
    for (place, trove) in troves.troves().iter().enumerate() {
        add_trove(alloc, root, troves, ids, trove, &ids[place], parts, carried)?;
    }
    Ok(())
}

/// The change set that leads from the installed troves which the one of this name reaches, to new ones on the branch
/// `local@local:LOCAL` that record what stands in the root: of each of them, in the order of their names, the relative trove, and
/// the contents of the files that stand where the trove doesn't record them, each once, in the order of their names.
///
/// A trove reaches the installed troves with the names of its references, whatever their versions, and what these reach. The version
/// becomes a branch onto that label. A reference whose id is that of one of these troves moves along; another one is left out of a
/// package and stays in a group; equal ones are one. A file's record is made from what stands: a path where nothing stands is left
/// out, the owner stays (root's, where a link was recorded), and a file keeps the flags of a file's record. What a trove requires and
/// provides stays.
///
/// It is refused by `NotInstalled` where there is no trove of this name; by `TooLarge` with `What::Version` for the first trove whose
/// version would have more than 512 bytes; by `TooLarge` with `What::Local` for the first recorded path, trove by trove, at which a
/// file of more than 16,777,216 bytes stands; and by `Collision` for the first path whose content is carried and differs from one of
/// the same SHA-1 that is carried for a path before it; in this order, and on no disk by anything else. `Failed` comes only where the
/// root's count of faults rose, and no other stop but want of memory. Nothing is changed, however it ends.
pub fn local<T: TreeDisk>(
    alloc: Global,
    root: &mut T,
    installed: &Installed,
    name: &Name,
) -> Result<ChangeSet, Stop>
    ensures finds { OnlyReads T.disk (IsLocal installed.now name.now) (IsLocalRefusal installed.now name.now) root.old root.new result }
    // On every disk, also on one that tells nothing.
    ensures stops { IfErr result (IsLocalStop installed.now name.now) }
    ensures installed { OnOk result (¬ (IsNameless name.now installed.now)) }
    ensures parts { IfOk result (λ set. All IsPart set.parts) }
    ensures contents { IfOk result HasContents }
{
    let troves = reached(alloc, installed, name)?;
    let ids = local_ids(alloc, troves.troves())?;
    let mut parts = Vec::new(alloc);
    let mut carried = Vec::new(alloc);
    add_troves(
        alloc,
        root,
        &troves,
        ids.as_slice(),
        &mut parts,
        &mut carried,
    )?;
    let contents = contents_of(alloc, carried)?;
    Ok(ChangeSet {
        parts: Parts::new(parts),
        contents,
    })
}
