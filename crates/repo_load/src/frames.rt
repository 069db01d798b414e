//! Which names a stored state depends on.
ghost use Rattle.std.specs.Prelude.{◌≡◌, ◌+◌, ◌^◌, ◌<◌, List, false, length};
ghost use Rattle.std.specs.FinMap.{get};
ghost use Rattle.journal_log.specs.tree-disk.Tree.{Name, Tree};
ghost use Rattle.journal_log.specs.Own.{gate, is_own};
ghost use Rattle.repo_index.specs.Catalogue.{CatalogueParts};
ghost use Rattle.repo_load.specs.Counts.{Counts, IsCommitName, IsPreparedName};
ghost use Rattle.repo_load.specs.Files.{repository_base, HoldsCommits, StoresRepository};
ghost use Rattle.repo_load.specs.State.{catalogue_of, Commit, IsRepository, RepositoryState};

/// A tree that is equal to another at the names that count stores the same state.
pub fn counted_names()
    ensures commits { (x y : Tree) (commits : List Commit) → HoldsCommits x commits
        → ((q : Name) → IsCommitName (length commits) q → get y q ≡ get x q) → HoldsCommits y commits }
    ensures stored { (x y : Tree) (r : RepositoryState) → StoresRepository x r
        → ((q : Name) → Counts r q → get y q ≡ get x q) → StoresRepository y r }
    // None of them is one of the journal's own.
    ensures own { (r : RepositoryState) (q : Name) → Counts r q → is_own repository_base q ≡ false }
{}

/// What changes before the file of a further commit is written doesn't count for what is stored.
pub fn prepared_names()
    ensures commits { (c : CatalogueParts) (q : Name) → c.commits + 2 < 2 ^ 64 → IsPreparedName c q → IsCommitName c.commits q → ⊥ }
    ensures state { (r : RepositoryState) (q : Name) → IsRepository r → IsPreparedName (catalogue_of r.commits) q → Counts r q → ⊥ }
    // Nor is the commit flag among it.
    ensures flag { (c : CatalogueParts) → IsPreparedName c (gate repository_base) → ⊥ }
{}
