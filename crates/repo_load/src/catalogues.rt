//! The catalogue that a tree's files hold: after a further commit, and in a tree that stores the same.
ghost use Rattle.std.specs.Prelude.{◌≡◌, ◌+◌, ◌∷◌, [], ℕ, All};
ghost use Rattle.journal_log.specs.tree-disk.Tree.{Name, Tree};
ghost use Rattle.journal_log.specs.Own.{StoresSame};
ghost use Rattle.journal_log.specs.Targets.{with_targets};
ghost use Rattle.repo_index.specs.Catalogue.{CatalogueParts};
ghost use Rattle.repo_load.specs.State.{Commit, RepositoryState};
ghost use Rattle.repo_load.specs.Files.{repository_base, FitsTrove, HoldsCatalogue, StoresRepository};
ghost use Rattle.repo_load.specs.Damage.{IsDamagedCommit};
ghost use Rattle.repo_load.specs.Steps.{catalogue_with, commit_put, KeepsCommits, MayFollow};

use crate::state_laws::one_commit;

/// A tree whose commits are kept holds the catalogue that it held, and with the file of a further commit the catalogue with that
/// commit. Whether contents are damaged doesn't count.
pub fn catalogue_after_commit()
    ensures before { (x x1 : Tree) (c : CatalogueParts) → HoldsCatalogue x c → KeepsCommits c.commits x x1 → HoldsCatalogue x1 c }
    ensures after { (x x1 : Tree) (c : CatalogueParts) (troves : Commit) (mode : ℕ) → HoldsCatalogue x c → KeepsCommits c.commits x x1
        → MayFollow c troves → All FitsTrove troves
        → HoldsCatalogue (with_targets (commit_put (c.commits + 1) mode troves ∷ []) x1) (catalogue_with troves c) }
    // A tree holds one catalogue at most.
    ensures only { (x : Tree) (one other : CatalogueParts) → HoldsCatalogue x one → HoldsCatalogue x other → one ≡ other }
{
    one_commit();
}

/// What a tree holds of a repository doesn't depend on the journal's own names: trees that store the same for the journal hold
/// the same.
pub fn same_for_the_journal()
    ensures state { (x y : Tree) (r : RepositoryState) → StoresSame repository_base x y → StoresRepository x r → StoresRepository y r }
    ensures catalogue { (x y : Tree) (c : CatalogueParts) → StoresSame repository_base x y → HoldsCatalogue x c → HoldsCatalogue y c }
    ensures damaged { (x y : Tree) (path : Name) → StoresSame repository_base x y → IsDamagedCommit x path → IsDamagedCommit y path }
{}
