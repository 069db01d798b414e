//! The troves that the parts of a change set make.
ghost use Rattle.std.specs.Prelude.{◌≡◌, ◌++◌, IfErr, IfOk, OnOk};
ghost use Rattle.repo_load.specs.cny-base.declared.refusal.Refusal.TheVariants as refusal;
ghost use Rattle.repo_load.specs.trove-parts.Id.{id_text_of};
ghost use Rattle.change_set.specs.Contents.{IfRefused};
ghost use Rattle.change_set.specs.Makes.{IsLedTo, LacksBase, LacksTrove, MakesTrove};
ghost use Rattle.repository.specs.Parts.{AreMade, base_among, HasPart, IsAdded, IsFirstRefused, IsPartRefused, IsTroveRefused};

use crate::refs::is_there;
use change_rel::{apply, missing_base};
use change_set::Part;
use repo_index::Catalogue;
use repo_load::cny_base::{Copies, Fault, OutOfMemory, Refusal};
use repo_load::trove_parts::{TroveId, id_text};
use repo_load::trove_stream::{RelTrove, Trove, check};
use std::alloc::Global;

// The refusal of a trove whose id is there already.
fn exists(alloc: Global, id: &TroveId) -> Result<Refusal, OutOfMemory>
    ensures { IfOk result (λ made. made ≡ refusal.Exists (id_text_of id.now)) }
{
    let trove = id_text(alloc, id)?;
    Ok(Refusal::Exists { trove })
}

// The trove to which a relative one leads from one that is committed.
fn led_to(alloc: Global, committed: &Catalogue, rel: &RelTrove) -> Result<Trove, Fault>
    ensures led { IfOk result (IsLedTo (base_among committed.now.troves) rel.now) }
    ensures missing { IfErr result (IfRefused (LacksBase (base_among committed.now.troves) rel.now)) }
{
    let Some(base) = committed.find(&rel.parts().old) else {
        return Err(missing_base(alloc, &rel.parts().old));
    };
    apply(alloc, base, rel)
}

// The trove that a part makes.
fn trove_of(alloc: Global, committed: &Catalogue, part: &Part) -> Result<Trove, Fault>
    ensures makes { IfOk result (MakesTrove (base_among committed.now.troves) part.now) }
    ensures refused { IfErr result (IfRefused (LacksTrove (base_among committed.now.troves) part.now)) }
{
    match part {
        Part::Whole(trove) => Ok(trove.copy()?),
        Part::Relative(rel) => led_to(alloc, committed, rel),
    }
}

// Adds a trove, where none of its id is there, and it records no forbidden path.
fn add_trove(
    alloc: Global,
    committed: &Catalogue,
    added: &mut Catalogue,
    trove: Trove,
) -> Result<(), Fault>
    ensures added { OnOk result (IsAdded committed.now.troves trove added.old added.new) }
    ensures refused { IfErr result (IfRefused (IsTroveRefused (committed.now.troves ++ added.old.troves) trove)) }
{
    if is_there(committed, added, trove.id()) {
        let refusal = exists(alloc, trove.id())?;
        return Err(Fault::Refused(refusal));
    }
    check(alloc, &trove)?;
    added.add(alloc, trove)
}

// Adds the trove that a part makes.
fn add_part(
    alloc: Global,
    committed: &Catalogue,
    added: &mut Catalogue,
    part: &Part,
) -> Result<(), Fault>
    ensures added { OnOk result (HasPart committed.now.troves part.now added.old added.new) }
    ensures refused { IfErr result (IfRefused (IsPartRefused committed.now.troves (committed.now.troves ++ added.old.troves) part.now)) }
{
    let trove = trove_of(alloc, committed, part)?;
    add_trove(alloc, committed, added, trove)
}

/// The troves that the parts make of the committed ones, as a catalogue of their own. The refusal is that of the first part
/// that is refused: `MissingBase` where its base isn't committed, or no trove comes of it; `Exists` where a trove of its id
/// is committed, or an earlier part makes one; `Reserved` where it records a forbidden path.
pub(crate) fn made_troves(
    alloc: Global,
    committed: &Catalogue,
    parts: &[Part],
) -> Result<Catalogue, Fault>
    ensures made { IfOk result (λ added. AreMade committed.now.troves parts.now added.troves) }
    ensures refused { IfErr result (IfRefused (IsFirstRefused committed.now.troves parts.now)) }
{
    let mut added = Catalogue::new(alloc);
    for part in parts {
        add_part(alloc, committed, &mut added, part)?;
    }
    Ok(added)
}
