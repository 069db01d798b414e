//! References of troves that are committed.
ghost use Rattle.std.specs.Prelude.{◌≡◌, ◌↔◌, All, Bool, IsSome, IsTrue, List, length, map};
ghost use Rattle.repo_index.specs.trove-parts.declared.id.TroveId.{TroveId};
ghost use Rattle.repo_index.specs.Catalogue.{found};
ghost use Rattle.repo_load.specs.State.{troves_of, Commit, HasRefs};
ghost use Rattle.repo_load.specs.Loading.{kept, FindsUnresolved};

use repo_index::Catalogue;
use repo_index::trove_parts::TroveId;
use repo_index::trove_stream::Trove;

// Whether a trove of this id is in the catalogue.
fn is_committed(catalogue: &Catalogue, id: &TroveId) -> bool
    ensures { IsTrue result ↔ IsSome (found id.now catalogue.now.troves) }
{
    catalogue.find(id).is_some()
}

// Whether a trove of each of these ids is.
fn are_committed(catalogue: &Catalogue, ids: &[TroveId]) -> bool
    ensures { IsTrue result ↔ All (λ (id : TroveId). IsSome (found id catalogue.now.troves)) ids.now }
{
    ids.iter().all(|id| is_committed(catalogue, id))
}

// Whether each reference of the trove is the id of a trove of the catalogue.
fn has_refs(catalogue: &Catalogue, trove: &Trove) -> bool
    ensures { IsTrue result ↔ HasRefs catalogue.now.troves trove.now }
{
    are_committed(catalogue, trove.refs())
}

// Whether that holds of each of these troves.
fn have_refs(catalogue: &Catalogue, troves: &[Trove]) -> bool
    ensures { IsTrue result ↔ All (HasRefs catalogue.now.troves) troves.now }
{
    troves.iter().all(|trove| has_refs(catalogue, trove))
}

/// The number of the first commit with a trove that refers to one that isn't committed. The catalogue has what is kept of the
/// commits, and these are the numbers of their troves; the numbers of commits begin at 1.
pub(crate) fn first_unresolved(catalogue: &Catalogue, counts: &[usize]) -> Option<u64>
    ensures { (whole : Bool) (commits : List Commit) → catalogue.now.troves ≡ map (kept whole) (troves_of commits)
        → counts.now ≡ map (λ (troves : Commit). length troves) commits → FindsUnresolved commits result }
{
    let mut rest = catalogue.troves();
    let mut left = counts;
    'commits: while let Some((count, behind)) = left.split_first() {
        let (commit, after) = rest.split_at((*count).min(rest.len()));
        if !have_refs(catalogue, commit) {
            return Some((counts.len() - behind.len()) as u64);
        }
        rest = after;
        left = behind;
    }
    None
}
