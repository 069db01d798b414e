//! The troves that a manifest makes.
ghost use Rattle.std.specs.Prelude.{◌≡◌, ◌∷◌, ◌++◌, [], All, IfOk, OnOk, IsErrOf, map};
ghost use Rattle.std.specs.BTreeMap.{IsOrdered, keys};
ghost use Rattle.std.specs.Cmp.Lexicographic.{slice_cmp};
ghost use Rattle.std.specs.Ordering.{nat_cmp};
ghost use Rattle.change_set.specs.trove-stream.Trove.{IsTrove};
ghost use Rattle.manifest_troves.specs.Shares.{named_trove};
ghost use Rattle.manifest_troves.specs.Troves as spec;
ghost use Rattle.manifest_troves.specs.Troves.{with_name, AreTroves, HasRisingNames, KeepsEntries};

use crate::lines::{DepLine, DepLines, TroveLines};
use crate::shares::{Shares, shares_of};
use change_set::cny_base::{Copies, ListOf, Name, NameKind, OutOfMemory, TextFault};
use change_set::trove_parts::{Deps, Files, Refs, TroveId};
use change_set::trove_stream::Trove;
use std::alloc::Global;

/// A list of troves.
pub type Troves = ListOf<Trove>;

// The dependencies of lines.
fn deps_of(alloc: Global, lines: Vec<DepLine>) -> Result<Deps, OutOfMemory>
    ensures { IfOk result (λ deps. deps ≡ spec.deps_of lines.items) }
{
    let mut deps = Vec::with_capacity(alloc, lines.len())?;
    for line in lines {
        let DepLine { name: _name, dep } = line;
        deps.push(dep)?;
    }
    Ok(Deps::new(deps))
}

// The id with another name.
fn id_named(id: &TroveId, name: Name) -> Result<TroveId, OutOfMemory>
    ensures { IfOk result (λ made. made ≡ with_name id.now name) }
{
    Ok(TroveId {
        name,
        version: id.version.copy()?,
        flavor: id.flavor.copy()?,
    })
}

// The ids of the components that have shares.
fn refs_to(alloc: Global, id: &TroveId, shares: &Shares) -> Result<Vec<TroveId>, OutOfMemory>
    ensures refs { IfOk result (λ refs. refs.items ≡ map (with_name id.now) (keys shares.now)) }
    ensures ordered { IsOrdered (slice_cmp nat_cmp) shares.now }
{
    let mut refs = Vec::with_capacity(alloc, shares.len())?;
    for name in shares.keys() {
        refs.push(id_named(id, name.copy()?)?)?;
    }
    Ok(refs)
}

// The package, which refers to its components.
fn package_trove(alloc: Global, id: &TroveId, refs: Vec<TroveId>) -> Result<Trove, TextFault>
    ensures ok { IfOk result (λ trove. trove ≡ record { id = id.now; files = []; refs = refs.items; requires_ = []; provides = [] }) }
    ensures is { IfOk result IsTrove }
    ensures bad { IsErrOf result TextFault.Bad → ¬ IsTrove (record { id = id.now; files = []; refs = refs.items; requires_ = []; provides = [] }) }
{
    Trove::make(
        id.copy()?,
        Files::new(Vec::new(alloc)),
        Refs::new(refs),
        Deps::new(Vec::new(alloc)),
        Deps::new(Vec::new(alloc)),
    )
}

// Puts the components that have these shares behind the troves.
fn push_components(
    alloc: Global,
    troves: &mut Vec<Trove>,
    id: &TroveId,
    shares: Shares,
) -> Result<(), TextFault>
    ensures ok { OnOk result (troves.new.items ≡ troves.old.items ++ map (named_trove id.now) shares.entries) }
    ensures are { OnOk result (All IsTrove (map (named_trove id.now) shares.entries)) }
    ensures bad { IsErrOf result TextFault.Bad → ¬ All IsTrove (map (named_trove id.now) shares.entries) }
{
    for (name, share) in shares {
        let id = id_named(id, name)?;
        troves.push(share.into_trove(alloc, id)?)?;
    }
    Ok(())
}

// The package and its components.
fn package_troves(alloc: Global, lines: TroveLines) -> Result<Vec<Trove>, TextFault>
    ensures ok { IfOk result (λ troves. troves.items ≡ spec.package_troves lines (spec.component_names lines)) }
    ensures are { OnOk result (All IsTrove (spec.package_troves lines (spec.component_names lines))) }
    ensures bad { IsErrOf result TextFault.Bad → ¬ All IsTrove (spec.package_troves lines (spec.component_names lines)) }
{
    let TroveLines {
        id,
        refs: _refs,
        requires_,
        provides,
        files,
    } = lines;
    let shares = shares_of(alloc, &id.name, files, requires_, provides)?;
    let refs = refs_to(alloc, &id, &shares)?;
    let mut troves = Vec::with_capacity(alloc, refs.len() + 1)?;
    troves.push(package_trove(alloc, &id, refs)?)?;
    push_components(alloc, &mut troves, &id, shares)?;
    Ok(troves)
}

// A component, whose entries and lines are all its own.
fn component_trove(alloc: Global, lines: TroveLines) -> Result<Trove, TextFault>
    ensures ok { IfOk result (λ trove. trove ≡ spec.whole_component lines) }
    ensures is { IfOk result IsTrove }
    ensures bad { IsErrOf result TextFault.Bad → ¬ IsTrove (spec.whole_component lines) }
{
    let TroveLines {
        id,
        refs: _refs,
        requires_,
        provides,
        files,
    } = lines;
    let required = deps_of(alloc, requires_.into_vec())?;
    let provided = deps_of(alloc, provides.into_vec())?;
    Trove::make(id, files, Refs::new(Vec::new(alloc)), required, provided)
}

// A group, which refers to other troves.
fn group_trove(alloc: Global, lines: TroveLines) -> Result<Trove, TextFault>
    ensures ok { IfOk result (λ trove. trove ≡ spec.group_trove lines) }
    ensures is { IfOk result IsTrove }
    ensures bad { IsErrOf result TextFault.Bad → ¬ IsTrove (spec.group_trove lines) }
{
    let TroveLines {
        id,
        refs,
        requires_: _requires,
        provides: _provides,
        files: _files,
    } = lines;
    Trove::make(
        id,
        Files::new(Vec::new(alloc)),
        refs,
        Deps::new(Vec::new(alloc)),
        Deps::new(Vec::new(alloc)),
    )
}

// A list of one trove.
fn list_of(alloc: Global, trove: Trove) -> Result<Vec<Trove>, OutOfMemory>
    ensures { IfOk result (λ troves. troves.items ≡ trove ∷ []) }
{
    let mut troves = Vec::with_capacity(alloc, 1)?;
    troves.push(trove)?;
    Ok(troves)
}

// The troves, in name order.
fn made_troves(alloc: Global, lines: TroveLines) -> Result<Vec<Trove>, TextFault>
    ensures ok { IfOk result (λ troves. troves.items ≡ spec.troves_of lines) }
    ensures are { OnOk result (AreTroves lines) }
    ensures bad { IsErrOf result TextFault.Bad → ¬ AreTroves lines }
{
    match lines.id.name.kind() {
        NameKind::Package => package_troves(alloc, lines),
        NameKind::Component => Ok(list_of(alloc, component_trove(alloc, lines)?)?),
        NameKind::Group => Ok(list_of(alloc, group_trove(alloc, lines)?)?),
    }
}

/// The troves that these lines make, in name order: a component or a group alone, a package and each component to which an
/// entry falls or that a line names. `Bad` exactly where one of them doesn't keep the rules of troves.
pub fn troves_of(alloc: Global, lines: TroveLines) -> Result<Troves, TextFault>
    ensures value { IfOk result (λ troves. troves ≡ spec.troves_of lines) }
    // Each of them keeps the rules of troves.
    ensures ok { OnOk result (AreTroves lines) }
    ensures bad { IsErrOf result TextFault.Bad → ¬ AreTroves lines }
    // Their names strictly rise.
    ensures rising { IfOk result HasRisingNames }
    // No entry is lost.
    ensures entries { IfOk result (KeepsEntries lines) }
{
    let troves = made_troves(alloc, lines)?;
    Ok(Troves::new(troves))
}
