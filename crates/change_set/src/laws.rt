//! Laws of change sets.
ghost use Rattle.std.specs.Prelude.{◌≡◌, ◌++◌, [], List, ℕ};
ghost use Rattle.trove_stream.specs.cny-base.declared.refusal.Refusal.{Refusal};
ghost use Rattle.change_set.specs.declared.change.ChangeSet.{ChangeSet};
ghost use Rattle.change_set.specs.ChangeSet.{IsChangeSet, IsSetStream, change_bytes};
ghost use Rattle.change_set.specs.FirstFault.{IsFirstFault};

use trove_stream::{distinct_rels, distinct_troves};

/// Bytes have one first fault at most, and none where they are the stream of a change set. No stream of a change set is a
/// proper prefix of another.
pub fn one_fault()
    ensures unique { (bytes : List ℕ) (refusal refusal' : Refusal) → IsFirstFault bytes refusal → IsFirstFault bytes refusal'
        → refusal ≡ refusal' }
    ensures excluded { (bytes : List ℕ) (refusal : Refusal) (set : ChangeSet) → IsFirstFault bytes refusal → IsSetStream set bytes → ⊥ }
    ensures no_prefix { (set set' : ChangeSet) (rest : List ℕ) → IsChangeSet set → IsChangeSet set'
        → change_bytes set ++ rest ≡ change_bytes set' → rest ≡ [] }
{}

/// Bytes are the stream of one change set at most.
pub fn unique_set()
    ensures { (set other : ChangeSet) (bytes : List ℕ) → IsSetStream set bytes → IsSetStream other bytes → set ≡ other }
{
    distinct_troves();
    distinct_rels();
}
