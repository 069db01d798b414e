//! Laws of commits.
ghost use Rattle.std.specs.Prelude.{◌≡◌, ◌≤◌, ℕ, true, All, Contains, List};
ghost use Rattle.repo_load.specs.cny-base.declared.limits.TheConstants.{COMMITS_LIMIT};
ghost use Rattle.repo_load.specs.cny-base.declared.refusal.Refusal.{Refusal};
ghost use Rattle.repo_load.specs.tree-disk.Tree.{Tree};
ghost use Rattle.repo_load.specs.tree-disk.Disk.{IsImageOf};
ghost use Rattle.change_set.specs.ChangeSet.{HasContents, IsPart};
ghost use Rattle.change_set.specs.declared.change.Carried.{Carried};
ghost use Rattle.change_set.specs.declared.change.ChangeSet.{ChangeSet};
ghost use Rattle.repo_load.specs.content-store.Store.{content_path, IsContentName};
ghost use Rattle.repo_index.specs.Catalogue.{has_content, CatalogueParts};
ghost use Rattle.repo_load.specs.Files.{commit_file, contents_dir, StoresRepository};
ghost use Rattle.repo_load.specs.State.{catalogue_of, troves_of, IsRepository, RepositoryState};
ghost use Rattle.repository.specs.Outcome.{committed_contents, MayCommit, IsSyncedFor};
ghost use Rattle.repository.specs.Preparing.{IsWrittenName};
ghost use Rattle.repository.specs.Steps.{IsCommitStep, RecoversAlone};
ghost use Rattle.repository.specs.Tests.{IsRefused};

use change_rel::trove_stream::one_result;
use repo_load::one_repository;
use repo_load::tree_disk::TreeDisk;

/// A commit of a repository gives a repository, one alone; or it is refused, for one reason alone.
pub fn commit_step()
    ensures repository { (r new : RepositoryState) (change : ChangeSet) → IsRepository r → HasContents change → All IsPart change.parts
        → IsCommitStep r change new → IsRepository new }
    ensures one { (r : RepositoryState) (change : ChangeSet) (a b : RepositoryState) → IsCommitStep r change a → IsCommitStep r change b → a ≡ b }
    ensures one_refusal { (r : RepositoryState) (change : ChangeSet) (a b : Refusal) → IsRefused (catalogue_of r.commits) r.contents change a
        → IsRefused (catalogue_of r.commits) r.contents change b → a ≡ b }
    // None is both made and refused.
    ensures apart { (r : RepositoryState) (change : ChangeSet) (new : RepositoryState) (refusal : Refusal) → IsCommitStep r change new
        → IsRefused (catalogue_of r.commits) r.contents change refusal → ⊥ }
{
    one_result();
}

/// Where a tree stores a repository, what stands in it under the names that troves record are the contents of that.
pub fn same_contents()
    ensures { (x : Tree) (r : RepositoryState) → StoresRepository x r → committed_contents (troves_of r.commits) x ≡ r.contents }
{}

/// What a commit leaves as it was, whatever stands there: the file of each commit that is there, and that of each content but
/// those that it carries and that no trove records.
pub fn kept_files()
    ensures commits { (c : CatalogueParts) (change : ChangeSet) (number : ℕ) → HasContents change → c.commits ≤ COMMITS_LIMIT → number ≤ c.commits
        → IsWrittenName c change.contents (commit_file number) → ⊥ }
    ensures contents { (c : CatalogueParts) (change : ChangeSet) (name : List ℕ) → HasContents change → IsContentName name
        → ((content : Carried) → Contains change.contents content → content.name ≡ name → has_content name c.troves ≡ true)
        → IsWrittenName c change.contents (content_path contents_dir name) → ⊥ }
{}

/// A disk at rest that stores a repository recovers to that alone: as it reads, and, where no name that counts for it has
/// changed since the last sync, after a crash.
pub fn at_rest<D: TreeDisk>()
    ensures reads { (d : D) (c : CatalogueParts) (r : RepositoryState) → MayCommit D.disk c d → StoresRepository (D.disk.reads d) r
        → RecoversAlone (D.disk.reads d) r }
    ensures crash { (d : D) (c : CatalogueParts) (r : RepositoryState) (image : Tree) → MayCommit D.disk c d → StoresRepository (D.disk.reads d) r
        → IsSyncedFor D.disk d r → IsImageOf D.disk d image → RecoversAlone image r }
{
    one_repository();
}
