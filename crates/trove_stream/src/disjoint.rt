//! Whether two rising lists have an element in common.
ghost use Rattle.std.specs.Prelude.{◌≡◌, ◌↔◌, IsTrue};
ghost use Rattle.std.specs.Cmp.Lexicographic.{nat_list_cmp_total};
ghost use Rattle.std.specs.List.Sorted.{IsStrictlySortedBy};
ghost use Rattle.std.specs.declared.cmp.Ordering.{Ordering};
ghost use Rattle.std.specs.declared.cmp.Ordering.TheVariants.{Less, Equal, Greater};
ghost use Rattle.cny_dep.specs.Order.{dep_cmp};
ghost use Rattle.trove_parts.specs.Order.{id_cmp, id_total};
ghost use Rattle.trove_parts.specs.Files.{path_of, file_cmp};
ghost use Rattle.trove_parts.specs.Paths.{path_cmp};
ghost use Rattle.trove_stream.specs.Above.{above, same_tied, dep_total};
ghost use Rattle.trove_stream.specs.Disjoint.{AreDisjoint};
ghost use Rattle.trove_stream.specs.Rel.{IsPathOf, IsSameId, IsSameDep};

use cny_dep::Dep;
use std::cmp::Ordering;
use trove_parts::cny_base::Path;
use trove_parts::{FileAt, TroveId};

/// An element of one rising list, to be compared with those of another, of type `B`.
pub(crate) trait Meets<B> {
    /// Whether the two are the same element.
    ghost is_same: { Self → B → Type 0 };

    /// Which of the two comes first in the order of both lists.
    ghost across: { Self → B → Ordering };

    /// The order of this list.
    ghost order: { Self → Self → Ordering };

    /// The order of the other list.
    ghost other_order: { B → B → Ordering };

    /// Which of the two comes first in the order of both lists.
    fn meet(&self, other: &B) -> Ordering
        ensures order { result ≡ across self.now other.now }
        ensures equal { result ≡ Equal → is_same self.now other.now };

    ghost tied: { (x : Self) (y : B) → is_same x y → across x y ≡ Equal };

    ghost below: { (x : Self) (y z : B) → across x y ≡ Less → other_order y z ≡ Less → across x z ≡ Less };

    ghost beyond: { (x y : Self) (z : B) → across x z ≡ Greater → order x y ≡ Less → across y z ≡ Greater };
}

// A path that is gone, and a file that is set.
impl Meets<FileAt> for Path {
    ghost is_same = { IsPathOf };

    ghost across = { λ path file. path_cmp path (path_of file) };

    ghost order = { path_cmp };

    ghost other_order = { file_cmp };

    fn meet(&self, other: &FileAt) -> Ordering {
        self.cmp(&other.path)
    }

    ghost tied = { λ x y. same_tied path_cmp nat_list_cmp_total x (path_of y) };

    ghost below = { λ x y z. nat_list_cmp_total.trans x (path_of y) (path_of z) };

    ghost beyond = { λ x y z. above nat_list_cmp_total x y (path_of z) };
}

impl Meets<TroveId> for TroveId {
    ghost is_same = { IsSameId };

    ghost across = { id_cmp };

    ghost order = { id_cmp };

    ghost other_order = { id_cmp };

    fn meet(&self, other: &TroveId) -> Ordering {
        self.order(other)
    }

    ghost tied = { same_tied id_cmp id_total };

    ghost below = { id_total.trans };

    ghost beyond = { above id_total };
}

impl Meets<Dep> for Dep {
    ghost is_same = { IsSameDep };

    ghost across = { dep_cmp };

    ghost order = { dep_cmp };

    ghost other_order = { dep_cmp };

    fn meet(&self, other: &Dep) -> Ordering {
        self.order(other)
    }

    ghost tied = { same_tied dep_cmp dep_total };

    ghost below = { dep_total.trans };

    ghost beyond = { above dep_total };
}

/// Whether two strictly rising lists have no element in common: one pass over both. Takes no memory.
pub(crate) fn are_disjoint<A: Meets<B>, B>(ones: &[A], others: &[B]) -> bool
    requires ones { IsStrictlySortedBy A.order ones.now }
    requires others { IsStrictlySortedBy A.other_order others.now }
    ensures { IsTrue result ↔ AreDisjoint A.is_same ones.now others.now }
{
    let mut one = 0;
    let mut other = 0;
    'merge: loop {
        if one >= ones.len() {
            return true;
        }
        if other >= others.len() {
            return true;
        }
        match ones[one].meet(&others[other]) {
            Ordering::Less => one += 1,
            Ordering::Equal => return false,
            Ordering::Greater => other += 1,
        }
    }
}
