//! What a trove reaches by references, moved onto a label.
ghost use Rattle.std.specs.Prelude.{◌≡◌, All, None, List, IfOk, IfErr};
ghost use Rattle.repo_index.specs.cny-base.declared.refusal.Refusal.{Refusal};
ghost use Rattle.cny_version.specs.Label.{LabelParts};
ghost use Rattle.cny_version.specs.Version.{last_label};
ghost use Rattle.repo_index.specs.trove-parts.declared.id.TroveId.{TroveId};
ghost use Rattle.repo_index.specs.trove-stream.declared.parts.TroveParts.{TroveParts};
ghost use Rattle.repo_index.specs.Catalogue.{found};
ghost use Rattle.trove_spec.specs.Expansion.{HasRisingNames};
ghost use Rattle.repo_shadow.specs.declared.way.Way.{Way};
ghost use Rattle.repo_shadow.specs.Moved.{IsMovedExpansion, IsMoveRefusal, IsUnmoved};
ghost use Rattle.repo_shadow.specs.Within.{AllReferWithin};

use crate::moving::moved_troves;
use crate::refusing::refuse_move;
use crate::way::Way;
use cny_version::Label;
use repo_index::Catalogue;
use repo_index::cny_base::Fault;
use repo_index::trove_parts::TroveId;
use std::alloc::Global;
use std::slice;
use trove_spec::{Troves, expand, one_expansion};

/// The expansion of the root, moved onto the label: copies of the troves of the catalogue that the root reaches, each with its
/// version moved and its references along, all else as it was. Their names strictly rise, and they refer only to one another,
/// so that they can be committed together.
///
/// `Exists` exactly where two of the troves have one name, as in the expansion. Then each test is made of all of them in the
/// order of their ids: `SameLabel` exactly where one is on the label, `TooLarge` exactly where a moved version has more than
/// 512 bytes, with the size of the first, and `Exists` exactly where a moved id is that of a trove of the catalogue, with the
/// text of the first.
pub fn moved(
    alloc: Global,
    catalogue: &Catalogue,
    root: &TroveId,
    label: &Label,
    way: Way,
) -> Result<Troves, Fault>
    requires { AllReferWithin catalogue.now.troves }
    ensures value { IfOk result (IsMovedExpansion way label.now catalogue.now.troves root.now) }
    ensures names { IfOk result HasRisingNames }
    ensures refs { IfOk result AllReferWithin }
    ensures on_label { IfOk result (All (λ trove. last_label trove.id.version.branch ≡ label.now)) }
    ensures fresh { IfOk result (All (λ trove. found trove.id catalogue.now.troves ≡ None)) }
    ensures fault { IfErr result (IsUnmoved way label.now catalogue.now.troves root.now) }
{
    let troves = expand(alloc, catalogue, slice::from_ref(root))?;
    refuse_move(alloc, catalogue, troves.get(), label, way)?;
    Ok(moved_troves(alloc, troves, label, way)?)
}

/// What a root reaches is moved in one way at most, and isn't where a refusal comes; and there is one refusal at most.
pub fn one_move()
    ensures made { (way : Way) (label : LabelParts) (troves : List TroveParts) (root : TroveId) (one other : List TroveParts)
        → IsMovedExpansion way label troves root one → IsMovedExpansion way label troves root other → one ≡ other }
    ensures unrefused { (way : Way) (label : LabelParts) (troves : List TroveParts) (root : TroveId) (made : List TroveParts) (refused : Refusal)
        → IsMovedExpansion way label troves root made → IsMoveRefusal way label troves root refused → ⊥ }
    ensures refusal { (way : Way) (label : LabelParts) (troves : List TroveParts) (root : TroveId) (one other : Refusal)
        → IsMoveRefusal way label troves root one → IsMoveRefusal way label troves root other → one ≡ other }
{
    one_expansion();
}
