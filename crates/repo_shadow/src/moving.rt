//! Troves, moved onto a label.
ghost use Rattle.std.specs.Prelude.{◌≡◌, All, map, IfOk, IfErr};
ghost use Rattle.repo_index.specs.cny-base.declared.refusal.Fault.TheVariants as fault;
ghost use Rattle.repo_index.specs.trove-parts.Id.{IsTroveId};
ghost use Rattle.repo_shadow.specs.Moved as spec;
ghost use Rattle.repo_shadow.specs.Steps.{Fits, CanMove, wholly_moved};

use crate::way::{Way, add_moved, moved_id};
use cny_version::Label;
use repo_index::cny_base::Fault;
use repo_index::trove_parts::TroveId;
use repo_index::trove_stream::{Refs, Trove, TroveParts};
use std::alloc::Global;
use trove_spec::Troves;

// The ids, moved.
fn moved_refs(alloc: Global, refs: &[TroveId], label: &Label, way: Way) -> Result<Refs, Fault>
    requires { All (Fits way label.now) refs.now }
    ensures value { IfOk result (λ made. made ≡ map (spec.moved_id way label.now) refs.now) }
    ensures valid { IfOk result (λ made. All IsTroveId made) }
    ensures fault { IfErr result (λ error. error ≡ fault.Memory) }
{
    let mut made = Vec::new(alloc);
    for id in refs {
        add_moved(alloc, &mut made, id, label, way)?;
    }
    Ok(Refs::new(made))
}

// The trove with its id and its references moved.
fn moved_trove(alloc: Global, trove: Trove, label: &Label, way: Way) -> Result<Trove, Fault>
    requires { CanMove way label.now trove }
    ensures value { IfOk result (λ made. made ≡ wholly_moved way label.now trove) }
    ensures fault { IfErr result (λ error. error ≡ fault.Memory) }
{
    let TroveParts {
        id,
        files,
        refs,
        requires_,
        provides,
    } = trove.into_parts();
    let id = moved_id(alloc, &id, label, way)?;
    let refs = moved_refs(alloc, refs.get(), label, way)?;
    Ok(Trove::from_parts(TroveParts {
        id,
        files,
        refs,
        requires_,
        provides,
    }))
}

/// The troves with their ids and their references moved.
pub(crate) fn moved_troves(
    alloc: Global,
    troves: Troves,
    label: &Label,
    way: Way,
) -> Result<Troves, Fault>
    requires { All (CanMove way label.now) troves }
    ensures value { IfOk result (λ made. made ≡ map (wholly_moved way label.now) troves) }
    ensures fault { IfErr result (λ error. error ≡ fault.Memory) }
{
    let mut made = Vec::new(alloc);
    for trove in troves.into_vec() {
        made.push(moved_trove(alloc, trove, label, way)?)?;
    }
    Ok(Troves::new(made))
}
