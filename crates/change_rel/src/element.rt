//! The elements of a trove's lists: each has a key, by which the lists rise and by which it is taken away.
ghost use Rattle.std.specs.Prelude.{◌≡◌, ◌↔◌, IsTrue, IfOk};
ghost use Rattle.std.specs.Cmp.{IsTotalOrder};
ghost use Rattle.std.specs.Cmp.Lexicographic.{nat_list_cmp_total};
ghost use Rattle.std.specs.declared.cmp.Ordering.{Ordering};
ghost use Rattle.std.specs.declared.cmp.Ordering.TheVariants.{Equal};
ghost use Rattle.cny_dep.specs.Order.{dep_cmp};
ghost use Rattle.trove_stream.specs.trove-parts.Order.{id_cmp, id_total};
ghost use Rattle.trove_stream.specs.trove-parts.Files.{path_of};
ghost use Rattle.trove_stream.specs.trove-parts.Paths.{path_cmp};
ghost use Rattle.trove_stream.specs.Above.{dep_total};
ghost use Rattle.trove_stream.specs.Leads.{id_key, dep_key};

use crate::same::is_same_record;
use cny_dep::Dep;
use std::cmp::Ordering;
use trove_stream::cny_base::{Copies, OutOfMemory, Path};
use trove_stream::trove_parts::{FileAt, TroveId};

/// An element of a list that strictly rises by its keys, of type `K`.
pub(crate) trait Element<K> {
    /// The key of an element.
    ghost key_of: { Self → K };

    /// The order of the keys.
    ghost order: { K → K → Ordering };

    /// The key.
    fn key(&self) -> Result<K, OutOfMemory>
        ensures { IfOk result (λ key. key ≡ key_of self.now) };

    /// Which of two elements comes first.
    fn meet(&self, other: &Self) -> Ordering
        ensures order { result ≡ order (key_of self.now) (key_of other.now) }
        ensures equal { result ≡ Equal → key_of self.now ≡ key_of other.now };

    /// Which of the element and a key comes first.
    fn meet_key(&self, key: &K) -> Ordering
        ensures order { result ≡ order (key_of self.now) key.now }
        ensures equal { result ≡ Equal → key_of self.now ≡ key.now };

    /// Whether two elements are equal.
    fn is_same(&self, other: &Self) -> bool
        ensures { IsTrue result ↔ (self.now ≡ other.now) };

    ghost total: { IsTotalOrder order };
}

impl Element<Path> for FileAt {
    ghost key_of = { path_of };

    ghost order = { path_cmp };

    fn key(&self) -> Result<Path, OutOfMemory> {
        self.path.copy()
    }

    fn meet(&self, other: &Self) -> Ordering {
        self.path.cmp(&other.path)
    }

    fn meet_key(&self, key: &Path) -> Ordering {
        self.path.cmp(key)
    }

    fn is_same(&self, other: &Self) -> bool {
        let records = is_same_record(&self.rec, &other.rec);
        self.path.text() == other.path.text() && records
    }

    ghost total = { nat_list_cmp_total };
}

// A reference is its own key.
impl Element<TroveId> for TroveId {
    ghost key_of = { id_key };

    ghost order = { id_cmp };

    fn key(&self) -> Result<TroveId, OutOfMemory> {
        self.copy()
    }

    fn meet(&self, other: &Self) -> Ordering {
        self.order(other)
    }

    fn meet_key(&self, key: &TroveId) -> Ordering {
        self.meet(key)
    }

    fn is_same(&self, other: &Self) -> bool {
        TroveId::is_same(self, other)
    }

    ghost total = { id_total };
}

// A dependency is its own key.
impl Element<Dep> for Dep {
    ghost key_of = { dep_key };

    ghost order = { dep_cmp };

    fn key(&self) -> Result<Dep, OutOfMemory> {
        self.copy()
    }

    fn meet(&self, other: &Self) -> Ordering {
        self.order(other)
    }

    fn meet_key(&self, key: &Dep) -> Ordering {
        self.meet(key)
    }

    fn is_same(&self, other: &Self) -> bool {
        Dep::is_same(self, other)
    }

    ghost total = { dep_total };
}
