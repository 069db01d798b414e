//! What a relative trove makes of a trove.
ghost use Rattle.std.specs.Prelude.{◌≡◌, IfOk, IfErr, MatchOption};
ghost use Rattle.trove_stream.specs.declared.parts.TroveParts.{TroveParts};
ghost use Rattle.trove_stream.specs.Trove.{IsTrove};
ghost use Rattle.trove_stream.specs.Rel.{IsRel};
ghost use Rattle.trove_stream.specs.Leads.{Leads, LeadsNowhere, NamesBase, IsMissingBase};
ghost use Rattle.change_rel.specs.Lists.{AreAmended};

use crate::amending::amended;
use std::alloc::Global;
use trove_stream::cny_base::{Copies, Fault, OutOfMemory, Refusal};
use trove_stream::trove_parts::{TroveId, id_text};
use trove_stream::{RelParts, RelTrove, Trove, TroveParts, one_result};

// The new id, and what is made of each list; none where one of the lists isn't that of a base.
fn amended_parts(
    alloc: Global,
    old: &Trove,
    rel: &RelParts,
) -> Result<Option<TroveParts>, OutOfMemory>
    requires { IsRel rel.now }
    ensures { IfOk result (λ made. MatchOption made (LeadsNowhere rel.now old.now) (AreAmended rel.now old.now)) }
{
    let Some(files) = amended(
        alloc,
        old.files(),
        rel.paths_gone.get(),
        rel.files_set.get(),
    )?
    else {
        return Ok(None);
    };
    let Some(refs) = amended(alloc, old.refs(), rel.refs_gone.get(), rel.refs_added.get())? else {
        return Ok(None);
    };
    let Some(requires_) = amended(
        alloc,
        old.requires_(),
        rel.requires_gone.get(),
        rel.requires_added.get(),
    )?
    else {
        return Ok(None);
    };
    let Some(provides) = amended(
        alloc,
        old.provides(),
        rel.provides_gone.get(),
        rel.provides_added.get(),
    )?
    else {
        return Ok(None);
    };
    let id = rel.fresh.copy()?;
    Ok(Some(TroveParts {
        id,
        files,
        refs,
        requires_,
        provides,
    }))
}

// The trove of these parts; none exactly where they are those of none.
fn made_of(parts: TroveParts) -> Option<Trove>
    ensures { MatchOption result (¬ IsTrove parts) (λ trove. (trove ≡ parts) × IsTrove parts) }
{
    let TroveParts {
        id,
        files,
        refs,
        requires_,
        provides,
    } = parts;
    match Trove::make(id, files, refs, requires_, provides) {
        Ok(trove) => Some(trove),
        Err(_) => None,
    }
}

// The trove that the relative one leads to; none exactly where it leads nowhere.
fn led_to(alloc: Global, old: &Trove, rel: &RelParts) -> Result<Option<Trove>, OutOfMemory>
    requires { IsRel rel.now }
    ensures { IfOk result (λ made. MatchOption made (LeadsNowhere rel.now old.now) (Leads rel.now old.now)) }
{
    if !old.id().is_same(&rel.old) {
        return Ok(None);
    }
    match amended_parts(alloc, old, rel)? {
        None => Ok(None),
        Some(parts) => Ok(made_of(parts)),
    }
}

/// The refusal of a base of this id that there is none of, or want of memory for its text.
pub fn missing_base(alloc: Global, id: &TroveId) -> Fault
    ensures { NamesBase id.now result }
{
    match id_text(alloc, id) {
        Ok(trove) => Fault::Refused(Refusal::MissingBase { trove }),
        Err(_) => Fault::Memory,
    }
}

/// The trove that the relative trove makes of the old one. `MissingBase` with the id that the relative trove starts from exactly
/// where it makes none: where the old trove has another id, lacks an element that is gone, has one that is added, or records a
/// path as it is set, or where what comes of it breaks the rules of troves. One pass over each list.
pub fn apply(alloc: Global, old: &Trove, rel: &RelTrove) -> Result<Trove, Fault>
    ensures leads { IfOk result (Leads rel.now old.now) }
    // It leads to no other trove.
    ensures only { IfOk result (λ made. (fresh : TroveParts) → Leads rel.now old.now fresh → made ≡ fresh) }
    ensures missing { IfErr result (IsMissingBase rel.now old.now) }
{
    one_result();
    let parts = rel.parts();
    match led_to(alloc, old, parts)? {
        Some(fresh) => Ok(fresh),
        None => Err(missing_base(alloc, &parts.old)),
    }
}
