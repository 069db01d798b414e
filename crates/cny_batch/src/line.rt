//! Lines: words and an input.
ghost use Rattle.std.specs.Prelude.{◌≡◌, ◌++◌, [], ◌∷◌, map, string_bytes, OnOk};

use cny_base::{Bytes, ListOf, OutOfMemory};
use std::marker::Model;

/// The words of a command, which contracts see as the list of their bytes.
#[derive(Drop)]
pub struct Words {
    items: Vec<String>,
}

impl Model for Words {
    ghost use Rattle.std.specs.Prelude.{List, ℕ, map, string_bytes};

    ghost Value = { List (List ℕ) };

    ghost view = { λ a. map string_bytes a.items.items };
}

impl Words {
    /// These words; takes no memory.
    pub fn new(items: Vec<String>) -> Self
        ensures { result ≡ map string_bytes items.items }
    {
        Words { items }
    }

    /// The words.
    pub fn get(&self) -> &[String]
        ensures { map string_bytes result.now ≡ self.now }
    {
        self.items.as_slice()
    }

    /// Adds a word at the end.
    pub(crate) fn push(&mut self, word: String) -> Result<(), OutOfMemory>
        ensures { OnOk result (self.new ≡ self.old ++ string_bytes word ∷ []) }
    {
        Ok(self.items.push(word)?)
    }
}

/// A line of a batch: a command and its input.
#[derive(Drop)]
pub struct Line {
    /// The words of the command, the command's name first.
    pub words: Words,
    /// What the command reads; empty where the line tells no size.
    pub input: Bytes,
}

/// The lines of a batch, in their order.
pub type Lines = ListOf<Line>;
