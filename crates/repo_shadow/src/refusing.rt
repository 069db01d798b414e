//! Why troves aren't moved onto a label.
ghost use Rattle.std.specs.Prelude.{◌≡◌, None, IfOk, IfErr, OnOk};
ghost use Rattle.std.specs.List.{list_any};
ghost use Rattle.repo_shadow.specs.Moved as spec;
ghost use Rattle.repo_shadow.specs.Steps.{IsRefusalOrMemory};

use crate::way::{Way, add_moved};
use cny_version::Label;
use repo_index::Catalogue;
use repo_index::cny_base::{Fault, Refusal, Text};
use repo_index::trove_parts::{TroveId, id_text};
use repo_index::trove_stream::Trove;
use std::alloc::Global;

// Whether the trove is on the label.
fn is_on(label: &Label, trove: &Trove) -> bool
    ensures { result ≡ spec.is_on label.now trove.now }
{
    *trove.id().version.label() == *label
}

// Whether one of the troves is on the label.
fn is_any_on(label: &Label, troves: &[Trove]) -> bool
    ensures { result ≡ list_any (spec.is_on label.now) troves.now }
{
    troves.iter().any(|trove| is_on(label, trove))
}

// `SameLabel` exactly where one of the troves is on the label already.
fn refuse_same_label(alloc: Global, label: &Label, troves: &[Trove]) -> Result<(), Fault>
    ensures none { OnOk result (spec.same_label label.now troves.now ≡ None) }
    ensures fault { IfErr result (IsRefusalOrMemory (spec.same_label label.now troves.now)) }
{
    if is_any_on(label, troves) {
        return Err(Fault::Refused(Refusal::SameLabel {
            label: Text::new(alloc, label.text())?,
        }));
    }
    Ok(())
}

// The moved ids of the troves. `TooLarge` exactly where the text of a moved version is too long, with the length of the first
// such one.
fn moved_ids(
    alloc: Global,
    troves: &[Trove],
    label: &Label,
    way: Way,
) -> Result<Vec<TroveId>, Fault>
    ensures value { IfOk result (λ ids. ids.items ≡ spec.moved_ids way label.now troves.now) }
    ensures none { OnOk result (spec.too_large (spec.moved_ids way label.now troves.now) ≡ None) }
    ensures fault { IfErr result (IsRefusalOrMemory (spec.too_large (spec.moved_ids way label.now troves.now))) }
{
    let mut ids = Vec::new(alloc);
    for trove in troves {
        add_moved(alloc, &mut ids, trove.id(), label, way)?;
    }
    Ok(ids)
}

// Whether a trove of the catalogue has the id.
fn is_taken(catalogue: &Catalogue, id: &TroveId) -> bool
    ensures { result ≡ spec.is_taken catalogue.now.troves id.now }
{
    catalogue.find(id).is_some()
}

// `Exists` exactly where a trove of the catalogue has one of the ids, with the text of the first such one.
fn refuse_taken(alloc: Global, catalogue: &Catalogue, ids: &[TroveId]) -> Result<(), Fault>
    ensures none { OnOk result (spec.taken catalogue.now.troves ids.now ≡ None) }
    ensures fault { IfErr result (IsRefusalOrMemory (spec.taken catalogue.now.troves ids.now)) }
{
    for id in ids {
        if is_taken(catalogue, id) {
            return Err(Fault::Refused(Refusal::Exists {
                trove: id_text(alloc, id)?,
            }));
        }
    }
    Ok(())
}

/// The first reason why these troves of the catalogue aren't moved onto the label, if there is one. Each test is made of all of
/// them before the next one.
#[tactic(auto, using(crate::proofs::Refusals::tests_in_turn))]
pub(crate) fn refuse_move(
    alloc: Global,
    catalogue: &Catalogue,
    troves: &[Trove],
    label: &Label,
    way: Way,
) -> Result<(), Fault>
    ensures none { OnOk result (spec.first_refusal way label.now catalogue.now.troves troves.now ≡ None) }
    ensures fault { IfErr result (IsRefusalOrMemory (spec.first_refusal way label.now catalogue.now.troves troves.now)) }
{
    refuse_same_label(alloc, label, troves)?;
    let ids = moved_ids(alloc, troves, label, way)?;
    refuse_taken(alloc, catalogue, ids.as_slice())?;
    Ok(())
}
