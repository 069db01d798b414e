//! Lists of installed troves.
ghost use Rattle.std.specs.Prelude.{◌≡◌, ◌↔◌, ℕ, Some, IsSome, IfSome, IfNone, IsTrue};
ghost use Rattle.std.specs.Option.{option_copied};
ghost use Rattle.std.specs.Ordering.{is_lt};
ghost use Rattle.trove_stream.specs.Installed.{by_name, IsRising, IsPlaceOf, IsNameless, trove_of};

use crate::trove::Trove;
use std::marker::Model;
use trove_parts::cny_base::{Copies, ListOf, Name, OutOfMemory, copies_of};

/// A list of troves.
pub type Troves = ListOf<Trove>;

/// The troves that are installed: one of a name, each name above the one before it by its bytes.
pub struct Installed {
    troves: Vec<Trove>,
}

impl Model for Installed {
    ghost use Rattle.std.specs.Prelude.{List};
    ghost use Rattle.trove_stream.specs.declared.parts.TroveParts.{TroveParts};
    ghost use Rattle.trove_stream.specs.Installed.{IsRising};

    ghost Value = { List TroveParts };

    ghost view = { λ a. a.troves.items };

    ghost invariant = { λ a. IsRising a.troves.items };
}

// Written by hand, so that to let a value go is a single call.
impl Drop for Installed {
    fn drop(self) {
        let Installed { troves: _troves } = self;
    }
}

fn is_below(trove: &Trove, later: &Trove) -> bool
    ensures { result ≡ is_lt (by_name trove.now later.now) }
{
    trove.id().name < later.id().name
}

// Whether each name is above the one before it.
fn are_rising(troves: &[Trove]) -> bool
    ensures { IsTrue result ↔ IsRising troves.now }
{
    troves.is_sorted_by(|earlier, later| is_below(earlier, later))
}

impl Installed {
    /// The list of these troves; takes no memory. None exactly where the names don't strictly rise.
    pub fn new(items: Vec<Trove>) -> Option<Self>
        ensures value { IfSome result (λ list. list ≡ items.items) }
        ensures variant { IsSome result ↔ IsRising items.items }
    {
        if !are_rising(items.as_slice()) {
            return None;
        }
        Some(Installed { troves: items })
    }

    /// The list of these troves, whose names strictly rise; takes no memory.
    pub fn of_rising(items: Vec<Trove>) -> Self
        requires { IsRising items.items }
        ensures { result ≡ items.items }
    {
        Installed { troves: items }
    }

    /// All troves, in the order of their names.
    pub fn troves(&self) -> &[Trove]
        ensures value { result.now ≡ self.now }
        ensures rising { IsRising self.now }
    {
        self.troves.as_slice()
    }

    /// The place of the trove of this name, if it is there; there is one at most.
    pub fn place_of(&self, name: &Name) -> Option<usize>
        ensures some { IfSome result (λ place. IsPlaceOf name.now self.now place) }
        ensures only { (place : ℕ) → IsPlaceOf name.now self.now place → result ≡ Some place }
        ensures none { IfNone result (IsNameless name.now self.now) }
        ensures rising { IsRising self.now }
    {
        match self
            .troves
            .binary_search_by(|trove| trove.id().name.cmp(name))
        {
            Ok(place) => Some(place),
            Err(_) => None,
        }
    }

    /// The trove of this name, if it is installed.
    pub fn get(&self, name: &Name) -> Option<&Trove>
        ensures { option_copied result ≡ trove_of name.now self.now }
    {
        match self.place_of(name) {
            Some(place) => self.troves().get(place),
            None => None,
        }
    }
}

impl Copies for Installed {
    fn copy(&self) -> Result<Self, OutOfMemory> {
        let troves = copies_of(*self.troves.allocator(), self.troves())?;
        Ok(Installed::of_rising(troves))
    }
}
