//! Places in a list.
ghost use Rattle.std.specs.Prelude.{◌≡◌, [], eqb, length, OnOk};
ghost use Rattle.std.specs.List.{IsDistinct, list_any};
ghost use Rattle.trove_parts.specs.Places.{with_place};

use cny_version::cny_base::OutOfMemory;
use indexmap::IndexSet;
use std::alloc::Global;
use std::marker::Model;

/// Places in a list, each once, in the order in which they came.
pub struct Places {
    set: IndexSet<usize>,
}

impl Model for Places {
    ghost use Rattle.std.specs.Prelude.{List, ℕ};

    ghost Value = { List ℕ };

    ghost view = { λ a. a.set.keys };
}

// Written by hand, so that to let the places go is a single call wherever a function ends early.
impl Drop for Places {
    fn drop(self) {
        let Places { set: _set } = self;
    }
}

impl Places {
    /// No places.
    pub fn new(alloc: Global) -> Self
        ensures empty { result ≡ [] }
    {
        Places {
            set: IndexSet::new(alloc),
        }
    }

    /// Adds a place behind the others, unless it is among them.
    pub fn insert(&mut self, place: usize) -> Result<(), OutOfMemory>
        ensures keys { OnOk result (self.new ≡ with_place self.old place) }
    {
        self.set.insert(place)?;
        Ok(())
    }

    /// Whether a place is among them.
    pub fn contains(&self, place: usize) -> bool
        ensures { result ≡ list_any (eqb place) self.now }
    {
        self.set.contains(&place)
    }

    /// How many there are.
    pub fn len(&self) -> usize
        ensures len { result ≡ length self.now }
        ensures unique { IsDistinct eqb self.now }
    {
        self.set.len()
    }

    /// The places.
    pub fn as_slice(&self) -> &[usize]
        ensures keys { result.now ≡ self.now }
    {
        self.set.as_slice()
    }
}
