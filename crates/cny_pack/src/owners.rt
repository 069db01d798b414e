//! Who owns what stands in a directory.
use manifest_troves::cny_stream::Owner;
use std::alloc::Global;
use tree_disk::cny_base::{OutOfMemory, Path};

/// Who owns what stands in a directory. A disk doesn't tell it.
pub trait Owners {
    ghost use Rattle.std.specs.Prelude.{ℕ, List, IfOk, MatchOption};
    ghost use Rattle.manifest_troves.specs.cny-stream.Owner.{OwnerNames};

    /// Which owners it may tell of a path.
    ghost owns: { List ℕ → OwnerNames → Type 0 };

    /// Of which paths it may tell none.
    ghost lacks: { List ℕ → Type 0 };

    /// The owner of the directory or the file at the path; none where nobody tells it.
    fn owner_at(&mut self, alloc: Global, path: &Path) -> Result<Option<Owner>, OutOfMemory>
        ensures { IfOk result (λ told. MatchOption told (lacks path.now) (λ owner. owns path.now owner)) };
}
