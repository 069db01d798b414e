//! What troves require and provide.
ghost use Rattle.std.specs.Prelude.{◌≡◌, ◌↔◌, ◌≤◌, ◌++◌, List, ℕ, IsTrue, All, length, drop, IfOk, OnOk, OnErr, IsErrOf};
ghost use Rattle.std.specs.Cmp.Lexicographic.{nat_list_cmp_total};
ghost use Rattle.std.proofs.lemmas.Cmp.{on_total};
ghost use Rattle.cny_dep.specs.Dep.{Dependency, IsDependency, dep_text};
ghost use Rattle.cny_dep.specs.Order.{dep_cmp};
ghost use Rattle.trove_parts.specs.Items.{BeginsWithItems, AreItemsAt, IsWithin};
ghost use Rattle.trove_parts.specs.Deps.{AreDeps, deps_bytes};

use crate::items::{Element, are_listed, put_items, take_items};
use cny_dep::Dep;
use cny_stream::{Encoding, put_item};
use cny_version::cny_base::{Bytes, ListOf, OutOfMemory, TextFault};
use std::alloc::Global;

/// A list of dependencies.
pub type Deps = ListOf<Dep>;

impl Element for Dep {
    ghost is_valid = { IsDependency };

    ghost value = { λ _. dep_text };

    ghost can_put = { λ _. Unit {0} };

    ghost compare = { dep_cmp };

    fn read(alloc: Global, _encoding: Encoding, bytes: &[u8]) -> Result<Self, TextFault> {
        match str::from_utf8(bytes) {
            Ok(text) => Dep::read_whole(alloc, text),
            Err(_) => Err(TextFault::Bad),
        }
    }

    fn put(
        &self,
        alloc: Global,
        _encoding: Encoding,
        tag: u8,
        out: &mut Bytes,
    ) -> Result<(), OutOfMemory> {
        put_item(out, tag, self.text().as_bytes())
    }

    // What the type of a dependency holds is all that is asked of it.
    fn is_good(&self) -> bool {
        self.flags().len() <= 64
    }

    fn is_below(&self, later: &Self) -> bool {
        self < later
    }

    fn values_fit() {}

    fn values_differ() {}

    ghost total = { on_total dep_text nat_list_cmp_total };
}

/// Whether the texts of the dependencies strictly rise by their bytes. Takes no memory.
pub fn are_deps(deps: &[Dep]) -> bool
    ensures { IsTrue result ↔ AreDeps deps.now }
{
    are_listed(deps)
}

/// Appends an item of this tag for each dependency; on want of memory `out` is as before.
pub fn put_deps(alloc: Global, out: &mut Bytes, tag: u8, deps: &[Dep]) -> Result<(), OutOfMemory>
    ensures ok { OnOk result (out.new ≡ out.old ++ deps_bytes tag deps.now) }
    ensures err { OnErr result (out.new ≡ out.old) }
    ensures valid { OnOk result (All IsDependency deps.now) }
{
    put_items(alloc, Encoding::Compact, out, tag, deps)
}

/// Dependencies whose items stand in the bytes of a stream, and their end.
#[derive(Drop)]
pub struct DepsAt {
    pub deps: Deps,
    /// The place behind the last of their items.
    pub to: usize,
}

/// The dependencies of all items of this tag that begin at `at`, one behind the other, and their end. `Bad` only where
/// an item of this tag there isn't the canonical text of one, where the texts don't strictly rise, or where there are more
/// than the limit; want of memory may be answered then instead. No dependency past the limit is read.
pub fn take_deps(
    alloc: Global,
    bytes: &[u8],
    at: usize,
    tag: u8,
    limit: Option<usize>,
) -> Result<DepsAt, TextFault>
    requires { at ≤ length bytes.now }
    ensures found { IfOk result (λ found. AreItemsAt dep_text bytes.now at tag found.deps found.to) }
    ensures ok { IfOk result (λ found. AreDeps found.deps) }
    ensures few { IfOk result (λ found. IsWithin limit (length found.deps)) }
    ensures bad { IsErrOf result TextFault.Bad → (deps : List Dependency) (rest : List ℕ) → AreDeps deps → IsWithin limit (length deps)
        → BeginsWithItems dep_text tag (drop at bytes.now) deps rest → ⊥ }
    // No other dependencies stand there, nor do their items end elsewhere.
    ensures only { IfOk result (λ found. (deps : List Dependency) (rest : List ℕ) → AreDeps deps
        → BeginsWithItems dep_text tag (drop at bytes.now) deps rest → (found.deps ≡ deps) × (drop found.to bytes.now ≡ rest)) }
{
    let (items, to) = take_items::<Dep>(alloc, Encoding::Compact, bytes, at, tag, limit)?;
    Ok(DepsAt {
        deps: Deps::new(items),
        to,
    })
}
