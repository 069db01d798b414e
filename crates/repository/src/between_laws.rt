//! Laws of change sets between troves.
ghost use Rattle.std.specs.Prelude.{◌≡◌, ◌↔◌, [], All, List, Some, map, ℕ};
ghost use Rattle.repo_load.specs.trove-stream.declared.parts.TroveParts.{TroveParts};
ghost use Rattle.change_set.specs.declared.change.Carried.{Carried};
ghost use Rattle.change_set.specs.declared.change.ChangeSet.{ChangeSet};
ghost use Rattle.change_set.specs.declared.change.Part.{Part};
ghost use Rattle.change_set.specs.declared.change.Part.TheVariants.{Whole};
ghost use Rattle.repo_load.specs.tree-disk.Tree.{Name, Tree};
ghost use Rattle.repo_load.specs.State.{troves_of, RepositoryState};
ghost use Rattle.repo_load.specs.Files.{StoresRepository};
ghost use Rattle.repo_index.specs.Catalogue.{AreCommitted};
ghost use Rattle.repository.specs.Between.{ArePartsBetween, HasStored, LeadsBetween, RecordsContent, SendsContent};
ghost use Rattle.repository.specs.Damage.{IsDamagedBetween};

use change_rel::one_relative;

/// With no old troves the set has each new trove as it is, and all contents that they record.
pub fn absolute_set()
    ensures parts { (fresh : List TroveParts) (parts : List Part) → ArePartsBetween [] fresh parts → parts ≡ map Whole fresh }
    ensures contents { (fresh : List TroveParts) (name : List ℕ) → SendsContent [] fresh name ↔ ((size : ℕ) × RecordsContent fresh name size) }
{}

/// One set alone leads from some troves of a repository to others.
pub fn one_set()
    ensures { (x : Tree) (old fresh : List TroveParts) (a b : ChangeSet) → LeadsBetween old fresh a → LeadsBetween old fresh b
        → HasStored x a → HasStored x b → a ≡ b }
{
    one_relative();
}

/// In a tree that stores a repository no content that is sent is damaged, and those that are sent are the repository's.
pub fn stored_between()
    ensures undamaged { (x : Tree) (r : RepositoryState) (old fresh : List TroveParts) (path : Name) → StoresRepository x r
        → AreCommitted (troves_of r.commits) fresh → IsDamagedBetween old fresh x path → ⊥ }
    ensures contents { (x : Tree) (r : RepositoryState) (old fresh : List TroveParts) (set : ChangeSet) → StoresRepository x r
        → AreCommitted (troves_of r.commits) fresh → LeadsBetween old fresh set → HasStored x set
        → All (λ (content : Carried). r.contents content.name ≡ Some content.bytes) set.contents }
{}
