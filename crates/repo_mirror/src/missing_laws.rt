//! Laws of missing troves.
ghost use Rattle.std.specs.Prelude.{◌≡◌, ℕ, List, length, map, Result};
ghost use Rattle.change_set.specs.cny-base.declared.refusal.Refusal.{Refusal};
ghost use Rattle.change_set.specs.trove-parts.declared.id.TroveId.{TroveId};
ghost use Rattle.change_set.specs.trove-stream.declared.parts.TroveParts.{TroveParts};
ghost use Rattle.change_set.specs.ChangeSet.{change_bytes};
ghost use Rattle.change_set.specs.declared.change.ChangeSet.{ChangeSet};
ghost use Rattle.repo_load.specs.State.{troves_of, Commit};
ghost use Rattle.repo_mirror.specs.Lengths.{set_length};
ghost use Rattle.repo_mirror.specs.Missing.{commits_of, IsMissing};
ghost use Rattle.repo_mirror.specs.Absolute.{IsAbsoluteSet};

/// The stream of an absolute change set is as long as is told of it by the records of its troves.
pub fn sent_length()
    ensures { (troves : List TroveParts) (set : ChangeSet) → IsAbsoluteSet troves set → length (change_bytes set) ≡ set_length troves }
{}

/// One answer alone says what is missing.
pub fn one_missing()
    ensures { (ids : List TroveId) (commits : List Commit) (a b : Result (List TroveParts) Refusal) → IsMissing ids commits a → IsMissing ids commits b → a ≡ b }
{}

/// Commits are told by their troves, one behind the other, and by how many each has.
pub fn commits_told()
    ensures { (commits : List Commit) → commits_of (troves_of commits) (map (λ (troves : Commit). length troves) commits) ≡ commits }
{}
