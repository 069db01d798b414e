//! The list type of all crates, which contracts see as a list, and what can be copied.
ghost use Rattle.std.specs.Prelude.{◌≡◌, IfOk};

use crate::path::Path;
use crate::text::{OutOfMemory, Text};
use std::alloc::Global;
use std::marker::Model;

/// What can be copied where there is memory.
///
/// Bring the trait into scope to call `copy`: `use cny_base::Copies;`. A type gets it by an `impl` of
/// `copy` with no clause of its own; the trait's clause says that the copy is equal.
pub trait Copies: Drop {
    /// An equal value.
    fn copy(&self) -> Result<Self, OutOfMemory>
        ensures { IfOk result (λ made. made ≡ self.now) };
}

impl Copies for u64 {
    fn copy(&self) -> Result<Self, OutOfMemory> {
        Ok(*self)
    }
}

/// A list of items, which contracts see as the list of what they see of its items.
///
/// A crate names its lists as in `pub type Names = ListOf<Text>;`, and calls `Names::new(items)`.
/// A list can be copied where its items can, so their type needs an `impl Copies`.
#[derive(Drop)]
pub struct ListOf<T> {
    items: Vec<T>,
}

impl<T> Model for ListOf<T> {
    ghost use Rattle.std.specs.Prelude.{List};

    ghost Value = { List T };

    ghost view = { λ a. a.items.items };
}

impl<T> ListOf<T> {
    /// The list of these items; takes no memory.
    pub fn new(items: Vec<T>) -> Self
        ensures { result ≡ items.items }
    {
        ListOf { items }
    }

    /// The items as a `Vec`; takes no memory.
    pub fn into_vec(self) -> Vec<T>
        ensures { result.items ≡ self }
    {
        self.items
    }

    /// The items.
    pub fn get(&self) -> &[T]
        ensures { result.now ≡ self.now }
    {
        self.items.as_slice()
    }
}

/// Copies of these items, in their order.
pub fn copies_of<T: Copies>(alloc: Global, items: &[T]) -> Result<Vec<T>, OutOfMemory>
    ensures { IfOk result (λ copies. copies.items ≡ items.now) }
{
    let mut copies = Vec::new(alloc);
    for item in items {
        copies.push(item.copy()?)?;
    }
    Ok(copies)
}

impl<T: Copies> Copies for ListOf<T> {
    fn copy(&self) -> Result<Self, OutOfMemory> {
        let items = copies_of(*self.items.allocator(), &self.items)?;
        Ok(ListOf { items })
    }
}

/// A list of texts.
pub type Names = ListOf<Text>;

/// A list of paths.
pub type Paths = ListOf<Path>;

/// The numbers of the calls that are to fail.
pub type Fails = ListOf<u64>;
