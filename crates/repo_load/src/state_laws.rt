//! Laws of repositories.
ghost use Rattle.std.specs.Prelude.{◌≡◌, ◌+◌, ◌++◌, ◌∷◌, [], ℕ, List, All, length};
ghost use Rattle.journal_log.specs.tree-disk.Tree.{Name, Tree};
ghost use Rattle.journal_log.specs.Targets.{with_targets};
ghost use Rattle.repo_load.specs.State.{Commit, AreCommits, RepositoryState, IsRepository};
ghost use Rattle.repo_load.specs.Files.{FitsTrove, HoldsCommits, IsCommitStream, StoresRepository};
ghost use Rattle.repo_load.specs.Damage.{IsDamagedCommit};
ghost use Rattle.repo_load.specs.Steps.{commit_put, IsCommitReady};

use repo_index::trove_stream::distinct_troves;

/// Bytes are the stream of one commit at most.
pub fn one_commit()
    ensures { (one other : Commit) (bytes : List ℕ) → IsCommitStream one bytes → IsCommitStream other bytes → one ≡ other }
{
    distinct_troves();
}

/// What a tree stores is determined by its files: two states that one tree stores are equal.
pub fn one_repository()
    ensures commits { (x : Tree) (one other : List Commit) → HoldsCommits x one → HoldsCommits x other → one ≡ other }
    ensures determined { (x : Tree) (r s : RepositoryState) → StoresRepository x r → StoresRepository x s → r ≡ s }
    // Where a file of a commit is damaged, the tree's files are those of no commits that keep the rules.
    ensures damaged { (x : Tree) (path : Name) (commits : List Commit) → IsDamagedCommit x path → HoldsCommits x commits → AreCommits commits → ⊥ }
    // One file alone is the first that is damaged.
    ensures first { (x : Tree) (path other : Name) → IsDamagedCommit x path → IsDamagedCommit x other → path ≡ other }
{
    one_commit();
}

/// A tree that is made ready for a commit still stores the state before it, and with the commit's file it stores the state
/// after it.
pub fn stored_after_commit()
    ensures before { (x x1 : Tree) (r new : RepositoryState) → StoresRepository x r → IsCommitReady r new x x1 → StoresRepository x1 r }
    ensures after { (x x1 : Tree) (r new : RepositoryState) (troves : Commit) (mode : ℕ) → StoresRepository x r → IsCommitReady r new x x1
        → IsRepository new → new.commits ≡ r.commits ++ troves ∷ [] → All FitsTrove troves
        → StoresRepository (with_targets (commit_put (length r.commits + 1) mode troves ∷ []) x1) new }
{}
