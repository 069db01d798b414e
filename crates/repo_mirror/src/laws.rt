//! Laws of asking and of mirroring.
ghost use Rattle.std.specs.Prelude.{◌≡◌, ◌++◌, [], ℕ, true, Contains, IsSome, List, Ok, Result, Some};
ghost use Rattle.change_set.specs.cny-base.declared.refusal.Refusal.{Refusal};
ghost use Rattle.change_set.specs.trove-stream.declared.parts.TroveParts.{TroveParts};
ghost use Rattle.change_set.specs.trove-parts.declared.id.TroveId.{TroveId};
ghost use Rattle.change_set.specs.declared.change.ChangeSet.{ChangeSet};
ghost use Rattle.repo_index.specs.Catalogue.{found, has_content};
ghost use Rattle.repo_load.specs.State.{troves_of, IsRepository, RepositoryState};
ghost use Rattle.repo_mirror.specs.declared.request.Request.{Request};
ghost use Rattle.repo_mirror.specs.Replies.{IsSetReply};
ghost use Rattle.repo_mirror.specs.Requests.{IsRequestStream};
ghost use Rattle.repo_mirror.specs.Missing.{missing_of};
ghost use Rattle.repository.specs.Steps.{IsCommitStep};
ghost use Rattle.repo_mirror.specs.Asking.{AreIdsOf, AsksForOthers, IsAsked};
ghost use Rattle.repo_mirror.specs.Mirroring.{Mirrors, SendsMissing};

use change_set::unique_set;
use repo_index::trove_parts::distinct_ids;

/// One answer alone is what a repository asks for, and a stream that asks has one request: for the troves that have none of the ids
/// of its own.
pub fn one_asking()
    ensures one { (troves : List TroveParts) (a b : Result (List ℕ) Refusal) → IsAsked troves a → IsAsked troves b → a ≡ b }
    ensures stream { (troves : List TroveParts) (bytes : List ℕ) → IsAsked troves (Ok bytes) → AsksForOthers troves bytes }
{
    distinct_ids();
}

/// Bytes are the stream of one list of requests at most.
pub fn one_stream()
    ensures { (a b : List Request) (bytes : List ℕ) → IsRequestStream a bytes → IsRequestStream b bytes → a ≡ b }
{
    distinct_ids();
}

/// Where a repository asked, another one sent what it has of that, and the first one committed what it took of the reply, it
/// mirrored the other one.
pub fn taken_and_committed()
    ensures { (other own new : RepositoryState) (ids : List TroveId) (reply : List ℕ) (set : ChangeSet) → IsRepository other
        → AreIdsOf (troves_of own.commits) ids → SendsMissing other ids reply → IsSetReply set reply → IsCommitStep own set new
        → (it : Mirrors other own new) × (it.ids ≡ ids) × (it.set ≡ set) }
{
    unique_set();
}

/// What a repository has after it mirrored another one.
pub fn mirrored()
    // Its own troves, and behind them those that were missing.
    ensures troves { (other own new : RepositoryState) (it : Mirrors other own new) → troves_of new.commits ≡ troves_of own.commits ++ it.troves }
    // Each content that these name, with the other one's bytes.
    ensures contents { (other own new : RepositoryState) (it : Mirrors other own new) (name : List ℕ) → has_content name it.troves ≡ true
        → (bytes : List ℕ) × (other.contents name ≡ Some bytes) × (new.contents name ≡ Some bytes) }
    // Its own contents stay.
    ensures kept { (other own new : RepositoryState) (name bytes : List ℕ) → Mirrors other own new → own.contents name ≡ Some bytes → new.contents name ≡ Some bytes }
    // Where no commit was cut off, a trove of each id of the other one.
    ensures all { (other own new : RepositoryState) (it : Mirrors other own new) → it.troves ≡ missing_of it.ids (troves_of other.commits)
        → (t : TroveParts) → Contains (troves_of other.commits) t → IsSome (found t.id (troves_of new.commits)) }
    // And mirroring again sends nothing, and changes nothing.
    ensures again_none { (other own new last : RepositoryState) (it : Mirrors other own new) (more : Mirrors other new last)
        → it.troves ≡ missing_of it.ids (troves_of other.commits) → more.set ≡ record { parts = []; contents = [] } }
    ensures again { (other own new last : RepositoryState) (it : Mirrors other own new) → Mirrors other new last
        → it.troves ≡ missing_of it.ids (troves_of other.commits) → last ≡ new }
{}
