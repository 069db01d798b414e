//! Paths alone.
ghost use Rattle.std.specs.Prelude.{◌≡◌, ◌↔◌, ◌≤◌, ◌++◌, List, ℕ, IsTrue, All, length, drop, IfOk, OnOk, OnErr, IsErrOf};
ghost use Rattle.std.specs.Cmp.Lexicographic.{nat_list_cmp_total};
ghost use Rattle.trove_parts.specs.Items.{BeginsWithItems, AreItemsAt};
ghost use Rattle.trove_parts.specs.Paths.{IsPath, path_value, path_cmp, ArePaths, paths_bytes};

use crate::items::{Element, are_listed, put_items, take_items};
use cny_stream::{Encoding, put_item};
use cny_version::cny_base::{Bytes, OutOfMemory, Path, Paths, TextFault};
use std::alloc::Global;

impl Element for Path {
    ghost is_valid = { IsPath };

    ghost value = { λ _. path_value };

    ghost can_put = { λ _. Unit {0} };

    ghost compare = { path_cmp };

    fn read(alloc: Global, _encoding: Encoding, bytes: &[u8]) -> Result<Self, TextFault> {
        Path::read_bytes(alloc, bytes)
    }

    fn put(
        &self,
        alloc: Global,
        _encoding: Encoding,
        tag: u8,
        out: &mut Bytes,
    ) -> Result<(), OutOfMemory> {
        put_item(out, tag, self.text().as_bytes())
    }

    // What the type of a path holds is all that is asked of it.
    fn is_good(&self) -> bool {
        !self.text().is_empty()
    }

    fn is_below(&self, later: &Self) -> bool {
        self < later
    }

    fn values_fit() {}

    fn values_differ() {}

    ghost total = { nat_list_cmp_total };
}

/// Whether the paths strictly rise by their bytes. Takes no memory.
pub fn are_paths(paths: &[Path]) -> bool
    ensures { IsTrue result ↔ ArePaths paths.now }
{
    are_listed(paths)
}

/// Appends an item of this tag for each path; on want of memory `out` is as before.
pub fn put_paths(alloc: Global, out: &mut Bytes, tag: u8, paths: &[Path]) -> Result<(), OutOfMemory>
    ensures ok { OnOk result (out.new ≡ out.old ++ paths_bytes tag paths.now) }
    ensures err { OnErr result (out.new ≡ out.old) }
    ensures valid { OnOk result (All IsPath paths.now) }
{
    put_items(alloc, Encoding::Compact, out, tag, paths)
}

/// Paths whose items stand in the bytes of a stream, and their end.
#[derive(Drop)]
pub struct PathsAt {
    pub paths: Paths,
    /// The place behind the last of their items.
    pub to: usize,
}

/// The paths of all items of this tag that begin at `at`, one behind the other, and their end. `Bad` only where an
/// item of this tag there isn't a path, or where the paths don't strictly rise; want of memory may be answered then
/// instead.
pub fn take_paths(alloc: Global, bytes: &[u8], at: usize, tag: u8) -> Result<PathsAt, TextFault>
    requires { at ≤ length bytes.now }
    ensures found { IfOk result (λ found. AreItemsAt path_value bytes.now at tag found.paths found.to) }
    ensures ok { IfOk result (λ found. ArePaths found.paths) }
    ensures bad { IsErrOf result TextFault.Bad → (paths : List (List ℕ)) (rest : List ℕ) → ArePaths paths
        → BeginsWithItems path_value tag (drop at bytes.now) paths rest → ⊥ }
    // No other paths stand there, nor do their items end elsewhere.
    ensures only { IfOk result (λ found. (paths : List (List ℕ)) (rest : List ℕ) → ArePaths paths
        → BeginsWithItems path_value tag (drop at bytes.now) paths rest → (found.paths ≡ paths) × (drop found.to bytes.now ≡ rest)) }
{
    let (items, to) = take_items::<Path>(alloc, Encoding::Compact, bytes, at, tag, None)?;
    Ok(PathsAt {
        paths: Paths::new(items),
        to,
    })
}
