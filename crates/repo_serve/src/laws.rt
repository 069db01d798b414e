//! Laws of the replies of repositories.
ghost use Rattle.std.specs.Prelude.{◌≡◌, List, Result, ℕ};
ghost use Rattle.repo_load.specs.cny-base.declared.refusal.Refusal.{Refusal};
ghost use Rattle.repo_load.specs.tree-disk.Tree.{Name, Tree};
ghost use Rattle.repo_load.specs.Files.{StoresRepository};
ghost use Rattle.repo_load.specs.State.{troves_of, RepositoryState};
ghost use Rattle.repo_serve.specs.Replies.{Replies};
ghost use Rattle.repo_serve.specs.Serving.{IsDamagedReply};

use repo_load::trove_parts::distinct_ids;
use repo_mirror::{one_missing, sent_length};

/// A state has one answer to a stream of requests.
pub fn one_answer()
    ensures { (r : RepositoryState) (stream : List ℕ) (a b : Result (List ℕ) Refusal) → Replies r stream a → Replies r stream b → a ≡ b }
{
    distinct_ids();
    one_missing();
    sent_length();
}

/// In a tree that stores a repository no content that is sent is damaged.
pub fn sound_replies()
    ensures { (x : Tree) (r : RepositoryState) (stream : List ℕ) (path : Name) → StoresRepository x r → IsDamagedReply (troves_of r.commits) stream x path → ⊥ }
{}
