//! Where the trove of each id stands, by a hash of the id.
ghost use Rattle.std.specs.Prelude.{◌≡◌, nat_eq, IsTrue, OnOk};
ghost use Rattle.indexmap.specs.IndexMap.{get};
ghost use Rattle.repo_index.specs.Hashes as spec;
ghost use Rattle.repo_index.specs.Hashes.{is_kept, KeepsAll};

use indexmap::IndexMap;
use std::alloc::Global;
use std::hash::{DefaultHasher, Hash, Hasher};
use trove_stream::cny_base::OutOfMemory;
use trove_stream::trove_parts::TroveId;

/// The places of troves by the hashes of their ids. A place may be kept at which no such trove stands.
pub(crate) struct PlacesById {
    // The place that was kept first under each hash.
    firsts: IndexMap<u64, usize>,
    // Those that were kept under a hash that was there already, which is rare.
    others: Vec<usize>,
}

// Written by hand, so that to let a value go is a single call wherever a function ends early.
impl Drop for PlacesById {
    fn drop(self) {
        let PlacesById {
            firsts: _firsts,
            others: _others,
        } = self;
    }
}

impl PlacesById {
    /// No places.
    pub(crate) fn new(alloc: Global) -> Self {
        PlacesById {
            firsts: IndexMap::new(alloc),
            others: Vec::new(alloc),
        }
    }

    /// Keeps a place under a hash. What was kept is kept, on want of memory too.
    pub(crate) fn add(&mut self, hash: u64, place: usize) -> Result<(), OutOfMemory>
        ensures added { OnOk result (IsTrue (is_kept self.new hash place)) }
        ensures keeps { KeepsAll self.old self.new }
    {
        match self.first(hash) {
            None => {
                self.firsts.insert(hash, place)?;
            }
            Some(_) => {
                self.others.push(place)?;
            }
        }
        Ok(())
    }

    /// The place that was kept first under a hash.
    pub(crate) fn first(&self, hash: u64) -> Option<usize>
        ensures { result ≡ get nat_eq self.now.firsts hash }
    {
        self.firsts.get(&hash).copied()
    }

    /// All places that were kept under a hash that was there already.
    pub(crate) fn others(&self) -> &[usize]
        ensures { result.now ≡ self.now.others.items }
    {
        self.others.as_slice()
    }
}

/// The hash of an id.
pub(crate) fn hash_of(id: &TroveId) -> u64
    ensures { result ≡ spec.hash_of id.now }
{
    let mut state = DefaultHasher::new();
    id.name.text().hash(&mut state);
    id.version.text().hash(&mut state);
    id.flavor.text().hash(&mut state);
    state.finish()
}
