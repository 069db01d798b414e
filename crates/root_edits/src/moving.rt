//! Troves that move onto the branch of local changes.
ghost use Rattle.std.specs.Prelude.{◌≡◌, ◌≤◌, ◌++◌, [], false, length, map, All, IfErr, IfNone, IfOk, IfSome, OnOk};
ghost use Rattle.std.specs.List.{cons_option};
ghost use Rattle.update_job.specs.cny-base.declared.limits.TheConstants.{VERSION_LIMIT};
ghost use Rattle.update_job.specs.trove-parts.Id.{IsTroveId};
ghost use Rattle.update_job.specs.trove-parts.Files.{AreFiles};
ghost use Rattle.root_edits.specs.Moved as spec;
ghost use Rattle.root_edits.specs.Moved.{is_moving, local_refs, local_size, too_long, AreLocalRefs};
ghost use Rattle.root_edits.specs.Steps.{HasIdAt, IsMadeOf, IsRefusalOrMemory, IsTooLong};

use cny_version::Label;
use std::alloc::Global;
use update_job::cny_base::{Copies, Fault, NameKind, OutOfMemory, TextFault};
use update_job::trove_parts::{Files, Refs, TroveId, distinct_ids};
use update_job::trove_stream::{Installed, Trove, TroveParts};

// `local@local:LOCAL`.
fn local_label(alloc: Global) -> Result<Label, OutOfMemory>
    ensures { IfOk result (λ label. label ≡ spec.local_label) }
{
    match Label::read(alloc, "local@local:LOCAL") {
        Ok(label) => Ok(label),
        Err(TextFault::Memory) => Err(OutOfMemory),
        Err(TextFault::Bad) => unreachable!(),
    }
}

// The id with its version as a branch onto the label. `TooLarge` exactly where that has more than 512 bytes, with their number.
fn local_id(alloc: Global, id: &TroveId, label: &Label) -> Result<TroveId, Fault>
    requires { label.now ≡ spec.local_label }
    ensures value { IfOk result (λ made. made ≡ spec.local_id id.now) }
    ensures valid { IfOk result IsTroveId }
    ensures fits { OnOk result (local_size id.now ≤ VERSION_LIMIT) }
    ensures fault { IfErr result (IsTooLong id.now) }
{
    let version = id.version.branch_onto(alloc, label)?;
    let made = TroveId {
        name: id.name.copy()?,
        version,
        flavor: id.flavor.copy()?,
    };
    made.is_valid();
    Ok(made)
}

/// The new ids of these troves. `TooLarge` exactly where a version would have more than 512 bytes, with the size of the first.
pub(crate) fn local_ids(alloc: Global, troves: &[Trove]) -> Result<Vec<TroveId>, Fault>
    ensures value { IfOk result (λ ids. ids.items ≡ map (λ t. spec.local_id t.id) troves.now) }
    ensures valid { IfOk result (λ ids. All IsTroveId ids.items) }
    ensures none { OnOk result (too_long troves.now ≡ None) }
    ensures fault { IfErr result (IsRefusalOrMemory (too_long troves.now)) }
{
    let label = local_label(alloc)?;
    let mut ids = Vec::new(alloc);
    for trove in troves {
        let id = local_id(alloc, trove.id(), &label)?;
        ids.push(id)?;
    }
    Ok(ids)
}

// The place of the trove with this id, if it is one of these.
fn place_of_id(troves: &Installed, id: &TroveId) -> Option<usize>
    ensures some { IfSome result (HasIdAt troves.now id.now) }
    ensures none { IfNone result (is_moving troves.now id.now ≡ false) }
{
    // Ids that are equal by their texts are one id.
    distinct_ids();
    id.is_valid();
    let place = troves.place_of(&id.name)?;
    let other = troves.troves().get(place)?.id();
    other.is_valid();
    if *other == *id { Some(place) } else { None }
}

// Appends what becomes of a reference.
fn push_ref(
    troves: &Installed,
    ids: &[TroveId],
    keeps: bool,
    id: &TroveId,
    refs: &mut Vec<TroveId>,
) -> Result<(), OutOfMemory>
    requires ids { ids.now ≡ map (λ t. spec.local_id t.id) troves.now }
    requires valid { All IsTroveId ids.now }
    ensures pushed { OnOk result (refs.new.items ≡ refs.old.items ++ cons_option (spec.local_ref keeps troves.now id.now) []) }
    ensures valid { OnOk result (All IsTroveId refs.old.items → All IsTroveId refs.new.items) }
{
    if let Some(place) = place_of_id(troves, id) {
        refs.push(ids[place].copy()?)?;
        return Ok(());
    }
    if keeps {
        id.is_valid();
        refs.push(id.copy()?)?;
    }
    Ok(())
}

// Whether a trove of this kind keeps its references to troves that don't move.
fn keeps_others(kind: NameKind) -> bool
    ensures { result ≡ spec.keeps_others kind }
{
    match kind {
        NameKind::Component => false,
        NameKind::Package => false,
        NameKind::Group => true,
    }
}

// What becomes of the trove's references, in their order.
fn pushed_refs(
    alloc: Global,
    troves: &Installed,
    ids: &[TroveId],
    trove: &Trove,
) -> Result<Vec<TroveId>, OutOfMemory>
    requires ids { ids.now ≡ map (λ t. spec.local_id t.id) troves.now }
    requires valid { All IsTroveId ids.now }
    ensures value { IfOk result (λ refs. refs.items ≡ local_refs troves.now trove.now) }
    ensures valid { IfOk result (λ refs. All IsTroveId refs.items) }
{
    let keeps = keeps_others(trove.id().name.kind());
    let mut refs = Vec::new(alloc);
    for id in trove.refs() {
        push_ref(troves, ids, keeps, id, &mut refs)?;
    }
    Ok(refs)
}

// The references of the new trove.
fn moved_refs(
    alloc: Global,
    troves: &Installed,
    ids: &[TroveId],
    trove: &Trove,
) -> Result<Refs, OutOfMemory>
    requires ids { ids.now ≡ map (λ t. spec.local_id t.id) troves.now }
    requires valid { All IsTroveId ids.now }
    ensures refs { IfOk result (AreLocalRefs troves.now trove.now) }
    ensures valid { IfOk result (λ refs. All IsTroveId refs) }
    ensures few { IfOk result (λ refs. length refs ≤ length trove.now.refs) }
{
    // Ids that are equal by their texts are one id.
    distinct_ids();
    let mut refs = pushed_refs(alloc, troves, ids, trove)?;
    refs.sort_unstable();
    refs.dedup();
    Ok(Refs::new(refs))
}

/// The new trove of one of those that move: with this id, which is its new one, with these files, and with the references that are
/// left.
pub(crate) fn moved_trove(
    alloc: Global,
    troves: &Installed,
    ids: &[TroveId],
    trove: &Trove,
    id: &TroveId,
    files: Files,
) -> Result<Trove, OutOfMemory>
    requires ids { ids.now ≡ map (λ t. spec.local_id t.id) troves.now }
    requires valid { All IsTroveId ids.now }
    requires id { id.now ≡ spec.local_id trove.now.id }
    requires files { AreFiles files }
    requires few { length files ≤ length trove.now.files }
    requires none { trove.now.files ≡ [] → files ≡ [] }
    ensures { IfOk result (IsMadeOf troves.now files trove.now) }
{
    id.is_valid();
    let refs = moved_refs(alloc, troves, ids, trove)?;
    let id = id.copy()?;
    let TroveParts {
        id: _id,
        files: _files,
        refs: _refs,
        requires_,
        provides,
    } = trove.copy()?.into_parts();
    Ok(Trove::from_parts(TroveParts {
        id,
        files,
        refs,
        requires_,
        provides,
    }))
}
