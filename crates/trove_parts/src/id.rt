//! Ids of troves.
ghost use Rattle.std.specs.Prelude.{◌≡◌, ◌↔◌, ◌≤◌, ◌++◌, List, ℕ, length, Some, IsTrue, refl};
ghost use Rattle.std.specs.Cmp.{partial_equiv_from_equiv};
ghost use Rattle.std.specs.declared.cmp.Ordering.TheVariants.{Equal};
ghost use Rattle.trove_parts.specs.declared.id.TroveId.{TroveId};
ghost use Rattle.trove_parts.specs.Id.{IsTroveId, id_text_of, id_bytes};
ghost use Rattle.trove_parts.specs.Order.{id_eq, id_cmp, id_equiv, id_total, id_po, id_ties};

use cny_dep::{Flavor, one_text};
use cny_version::cny_base::{Copies, Name, OutOfMemory};
use cny_version::{Version, distinct_texts};
use std::cmp::Ordering;

/// Which trove it is: its name, its version and its flavor.
pub struct TroveId {
    pub name: Name,
    pub version: Version,
    pub flavor: Flavor,
}

// Written by hand, so that to let an id go is a single call wherever a function ends early.
impl Drop for TroveId {
    fn drop(self) {
        let TroveId {
            name: _name,
            version: _version,
            flavor: _flavor,
        } = self;
    }
}

impl TroveId {
    /// A law: each id has a name, a version and a flavor by their rules.
    pub fn is_valid(&self)
        ensures { IsTroveId self.now }
    {
        let _name = self.name.text();
        let _version = self.version.text();
        let _flavor = self.flavor.text();
    }

    /// Which of the two comes first; neither only where they are one.
    pub fn order(&self, other: &TroveId) -> Ordering
        ensures order { result ≡ id_cmp self.now other.now }
        ensures equal { result ≡ Equal → self.now ≡ other.now }
    {
        self.is_valid();
        other.is_valid();
        distinct_ids();
        self.cmp(other)
    }

    /// Whether the two are equal.
    pub fn is_same(&self, other: &TroveId) -> bool
        ensures { IsTrue result ↔ (self.now ≡ other.now) }
    {
        self.is_valid();
        other.is_valid();
        distinct_ids();
        self == other
    }
}

impl Copies for TroveId {
    fn copy(&self) -> Result<Self, OutOfMemory> {
        Ok(TroveId {
            name: self.name.copy()?,
            version: self.version.copy()?,
            flavor: self.flavor.copy()?,
        })
    }
}

// Ids are equal where the texts of their parts are, and so where the parts are (`distinct_ids`).
impl PartialEq for TroveId {
    ghost eq = { id_eq };

    ghost laws = { partial_equiv_from_equiv id_equiv };

    fn eq(&self, other: &TroveId) -> bool {
        self.name == other.name && self.version == other.version && self.flavor == other.flavor
    }
}

impl Eq for TroveId {
    ghost laws = { id_equiv };
}

impl PartialOrd for TroveId {
    ghost partial_cmp = { λ x y. Some (id_cmp x y) };

    ghost laws = { id_po };

    fn partial_cmp(&self, other: &TroveId) -> Option<Ordering> {
        Some(self.cmp(other))
    }
}

// By the name, then the text of the version, then the text of the flavor, each by its bytes.
impl Ord for TroveId {
    ghost cmp = { id_cmp };

    ghost total = { id_total };

    ghost matches_partial_cmp = { λ x y. refl };

    ghost matches_eq = { id_ties };

    fn cmp(&self, other: &TroveId) -> Ordering {
        let by_version = self.version.text().cmp(other.version.text());
        let by_flavor = self.flavor.text().cmp(other.flavor.text());
        self.name.cmp(&other.name).then(by_version).then(by_flavor)
    }
}

/// Two ids differ in their texts and in their bytes, and no bytes of one begin those of another.
pub fn distinct_ids()
    // Ids that `==` takes for equal are one id.
    ensures equal { (a b : TroveId) → IsTroveId a → IsTroveId b → IsTrue (id_eq a b) → a ≡ b }
    ensures texts { (a b : TroveId) → IsTroveId a → IsTroveId b → id_text_of a ≡ id_text_of b → a ≡ b }
    ensures bytes { (a b : TroveId) (x y : List ℕ) → IsTroveId a → IsTroveId b
        → id_bytes a ++ x ≡ id_bytes b ++ y → (a ≡ b) × (x ≡ y) }
{
    // The same of versions and flavors.
    distinct_texts();
    one_text();
}

/// The bytes of an id are at most 17,290: three fields with two bytes of length each, a name of at most 255 bytes,
/// a version of at most 512, and a flavor of at most 16,517.
pub fn short_ids()
    ensures { (id : TroveId) → IsTroveId id → length (id_bytes id) ≤ 17290 }
{}
