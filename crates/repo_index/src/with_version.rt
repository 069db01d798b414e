//! Troves with another version.
ghost use Rattle.std.specs.Prelude.{◌≡◌, ◌++◌, ◌∷◌, [], All, map, is_some, IfOk, OnOk};
ghost use Rattle.trove_stream.specs.cny-base.Name.{kind_of_name};
ghost use Rattle.trove_stream.specs.trove-parts.Id.{IsTroveId};
ghost use Rattle.trove_stream.specs.Trove.{has_build};
ghost use Rattle.repo_index.specs.Next as spec;
ghost use Rattle.repo_index.specs.Next.{is_package};

use cny_version::Version;
use std::alloc::Global;
use trove_stream::cny_base::{Copies, NameKind, OutOfMemory};
use trove_stream::trove_parts::{Refs, TroveId};
use trove_stream::{Trove, TroveParts};

// The id with this version.
fn id_with(id: &TroveId, version: &Version) -> Result<TroveId, OutOfMemory>
    ensures value { IfOk result (λ made. made ≡ spec.id_with version.now id.now) }
    ensures valid { IfOk result IsTroveId }
{
    let made = TroveId {
        name: id.name.copy()?,
        version: version.copy()?,
        flavor: id.flavor.copy()?,
    };
    made.is_valid();
    Ok(made)
}

// Adds an id behind the others, with this version.
fn add_with(ids: &mut Vec<TroveId>, id: &TroveId, version: &Version) -> Result<(), OutOfMemory>
    ensures added { OnOk result (ids.new.items ≡ ids.old.items ++ spec.id_with version.now id.now ∷ []) }
    ensures valid { OnOk result (IsTroveId (spec.id_with version.now id.now)) }
{
    ids.push(id_with(id, version)?)?;
    Ok(())
}

// The ids with this version.
fn ids_with(alloc: Global, ids: &[TroveId], version: &Version) -> Result<Refs, OutOfMemory>
    ensures value { IfOk result (λ made. made ≡ map (spec.id_with version.now) ids.now) }
    ensures valid { IfOk result (λ made. All IsTroveId made) }
{
    let mut made = Vec::new(alloc);
    for id in ids {
        add_with(&mut made, id, version)?;
    }
    Ok(Refs::new(made))
}

// Whether the id is that of a package.
fn is_package_id(id: &TroveId) -> bool
    ensures { result ≡ is_package (kind_of_name id.now.name) }
{
    matches!(id.name.kind(), NameKind::Package)
}

// The references of a trove of this id, with this version where it is a package.
fn refs_with(
    alloc: Global,
    id: &TroveId,
    refs: Refs,
    version: &Version,
) -> Result<Refs, OutOfMemory>
    requires { All IsTroveId refs }
    ensures value { IfOk result (λ made. made ≡ spec.refs_with version.now id.now refs) }
    ensures valid { IfOk result (λ made. All IsTroveId made) }
{
    if is_package_id(id) {
        return ids_with(alloc, refs.get(), version);
    }
    Ok(refs)
}

/// The trove with this version.
pub(crate) fn trove_with(
    alloc: Global,
    trove: Trove,
    version: &Version,
) -> Result<Trove, OutOfMemory>
    requires { is_some version.now.revision.build ≡ has_build trove.id }
    ensures { IfOk result (λ made. made ≡ spec.trove_with version.now trove) }
{
    let TroveParts {
        id,
        files,
        refs,
        requires_,
        provides,
    } = trove.into_parts();
    let refs = refs_with(alloc, &id, refs, version)?;
    let id = id_with(&id, version)?;
    Ok(Trove::from_parts(TroveParts {
        id,
        files,
        refs,
        requires_,
        provides,
    }))
}
