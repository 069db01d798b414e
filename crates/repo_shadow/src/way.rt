//! A version and an id, moved onto a label.
ghost use Rattle.std.specs.Prelude.{◌≡◌, ◌++◌, ◌∷◌, [], false, IfOk, IfErr, OnOk};
ghost use Rattle.repo_index.specs.trove-parts.Id.{IsTroveId};
ghost use Rattle.repo_shadow.specs.Moved as spec;
ghost use Rattle.repo_shadow.specs.Steps.{Fits, IsTooLongOrMemory};

use cny_version::{Label, Version};
use repo_index::cny_base::{Copies, Fault};
use repo_index::trove_parts::TroveId;
use std::alloc::Global;

/// How versions come onto a label.
#[derive(Clone, Copy)]
pub enum Way {
    /// As shadows: the branch, `//` and the label, and the revision.
    Shadow,
    /// As branches: the version, `/` and the label, and the revision again.
    Branch,
}

// The version as a shadow on the label, or as a branch onto it.
fn moved_version(
    alloc: Global,
    version: &Version,
    label: &Label,
    way: Way,
) -> Result<Version, Fault>
    ensures value { IfOk result (λ made. made ≡ spec.moved_version way label.now version.now) }
    ensures fits { OnOk result (spec.is_long_version (spec.moved_version way label.now version.now) ≡ false) }
    ensures fault { IfErr result (IsTooLongOrMemory (spec.moved_version way label.now version.now)) }
{
    match way {
        Way::Shadow => version.shadow_onto(alloc, label),
        Way::Branch => version.branch_onto(alloc, label),
    }
}

/// The id with its version moved.
pub(crate) fn moved_id(
    alloc: Global,
    id: &TroveId,
    label: &Label,
    way: Way,
) -> Result<TroveId, Fault>
    ensures value { IfOk result (λ made. made ≡ spec.moved_id way label.now id.now) }
    ensures valid { IfOk result IsTroveId }
    ensures fits { OnOk result (Fits way label.now id.now) }
    ensures fault { IfErr result (IsTooLongOrMemory (spec.moved_version way label.now id.now.version)) }
{
    let version = moved_version(alloc, &id.version, label, way)?;
    let made = TroveId {
        name: id.name.copy()?,
        version,
        flavor: id.flavor.copy()?,
    };
    made.is_valid();
    Ok(made)
}

/// Adds an id behind the others, moved.
pub(crate) fn add_moved(
    alloc: Global,
    ids: &mut Vec<TroveId>,
    id: &TroveId,
    label: &Label,
    way: Way,
) -> Result<(), Fault>
    ensures added { OnOk result (ids.new.items ≡ ids.old.items ++ spec.moved_id way label.now id.now ∷ []) }
    ensures valid { OnOk result (IsTroveId (spec.moved_id way label.now id.now)) }
    ensures fits { OnOk result (Fits way label.now id.now) }
    ensures fault { IfErr result (IsTooLongOrMemory (spec.moved_version way label.now id.now.version)) }
{
    ids.push(moved_id(alloc, id, label, way)?)?;
    Ok(())
}
