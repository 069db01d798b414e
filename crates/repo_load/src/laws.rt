//! What a tree that stores a state of a repository gives.
ghost use Rattle.std.specs.Prelude.{◌≡◌, List, Option, ℕ};
ghost use Rattle.journal_log.specs.tree-disk.Tree.{Name, Tree};
ghost use Rattle.repo_index.specs.Catalogue.{CatalogueParts};
ghost use Rattle.repo_load.specs.Damage.{IsDamagedCommit};
ghost use Rattle.repo_load.specs.Files.{HoldsCatalogue, StoresRepository};
ghost use Rattle.repo_load.specs.State.{catalogue_of, troves_of, RepositoryState};
ghost use Rattle.repo_load.specs.Contents.{FindsContent, IsDamagedContent};

use crate::state_laws::one_repository;

/// What is loaded and read from a tree that stores a state is of that state.
pub fn stored_state()
    ensures catalogue { (x : Tree) (r : RepositoryState) (c : CatalogueParts) → StoresRepository x r → HoldsCatalogue x c → c ≡ catalogue_of r.commits }
    // None of its commits is damaged.
    ensures commits { (x : Tree) (r : RepositoryState) (path : Name) → StoresRepository x r → IsDamagedCommit x path → ⊥ }
    ensures content { (x : Tree) (r : RepositoryState) (name : List ℕ) (found : Option (List ℕ)) → StoresRepository x r
        → FindsContent (troves_of r.commits) name x found → found ≡ r.contents name }
    // None of its contents is damaged.
    ensures contents { (x : Tree) (r : RepositoryState) (name : List ℕ) (path : Name) → StoresRepository x r
        → IsDamagedContent (troves_of r.commits) name x path → ⊥ }
{
    one_repository();
}
