//! Flavors.
ghost use Rattle.std.specs.Prelude.{◌≡◌, true, List, ◌↔◌, IsTrue, IfOk};
ghost use Rattle.std.specs.Cmp.{partial_equiv_from_equiv};
ghost use Rattle.std.specs.List.Sorted.{IsPermutation};
ghost use Rattle.cny_dep.specs.declared.parts.FlavorFlag.{FlavorFlag};
ghost use Rattle.cny_dep.specs.declared.parts.InstructionSet.{InstructionSet};
ghost use Rattle.cny_dep.specs.FlavorOrder.{in_order};
ghost use Rattle.cny_dep.specs.declared.parts.Parts.{Parts};
ghost use Rattle.cny_dep.specs.Canonical as spec;
ghost use Rattle.cny_dep.specs.Canonical.{flavor_text, no_parts};
ghost use Rattle.cny_dep.specs.Equality.{same_text, same_text_equiv};
ghost use Rattle.cny_dep.specs.Spelling.{IsRelaxedText, IsCanonicalText, IsReadAs};

use crate::flavor_order::is_flavor;
use crate::flavor_reading::parts_of;
use crate::flavor_writing::text_of_parts;
use crate::parts::{Flags, InstructionSets, Parts};
use cny_base::{Copies, OutOfMemory, Text, TextFault};
use std::alloc::Global;
use std::marker::Model;

/// A flavor: flags and instruction sets, each list in the strictly rising order of its words, at most 64 in all.
/// It keeps its canonical text.
pub struct Flavor {
    parts: Parts,
    text: Text,
}

impl Model for Flavor {
    ghost use Rattle.std.specs.Prelude.{◌≡◌, true};
    ghost use Rattle.cny_dep.specs.declared.parts.Parts.{Parts};
    ghost use Rattle.cny_dep.specs.Canonical.{is_flavor, flavor_text};

    ghost Value = { Parts };

    ghost view = { λ a. a.parts };

    ghost invariant = { λ a. (is_flavor a.parts ≡ true) × (a.text ≡ flavor_text a.parts) };
}

// Written by hand, so that to let a value go is a single call wherever a function ends early.
impl Drop for Flavor {
    fn drop(self) {
        let Flavor {
            parts: _parts,
            text: _text,
        } = self;
    }
}

impl Flavor {
    /// The flavor without flags and sets, whose text is empty.
    pub fn empty(alloc: Global) -> Result<Self, OutOfMemory>
        ensures { IfOk result (λ flavor. flavor ≡ no_parts) }
    {
        let flags = Flags::new(Vec::new(alloc));
        let sets = InstructionSets::new(Vec::new(alloc));
        Ok(Flavor {
            parts: Parts { flags, sets },
            text: Text::new(alloc, "")?,
        })
    }

    /// The flavor that a relaxed text spells: words in any order, and more or fewer spaces than in the canonical text.
    /// `Bad` only where the text spells none; want of memory may be answered there instead.
    pub fn read(alloc: Global, text: &str) -> Result<Self, TextFault>
        // What is read is spelled so.
        ensures found { IfOk result (λ flavor. IsRelaxedText text.now flavor) }
        // What is spelled so is read, unless memory runs out.
        ensures only { (parts : Parts) → IsRelaxedText text.now parts → IsReadAs result parts }
    {
        let parts = parts_of(alloc, text.as_bytes())?;
        if !is_flavor(&parts) {
            return Err(TextFault::Bad);
        }
        let text = text_of_parts(alloc, &parts)?;
        Ok(Flavor { parts, text })
    }

    /// The flavor with this canonical text. `Bad` only where there is none; want of memory may be answered there instead.
    pub fn read_whole(alloc: Global, text: &str) -> Result<Self, TextFault>
        // What is read is written so.
        ensures found { IfOk result (λ flavor. IsCanonicalText text.now flavor) }
        // What is written so is read, unless memory runs out.
        ensures only { (parts : Parts) → IsCanonicalText text.now parts → IsReadAs result parts }
    {
        let flavor = Flavor::read(alloc, text)?;
        if flavor.text() != text {
            return Err(TextFault::Bad);
        }
        Ok(flavor)
    }

    /// The canonical text.
    pub fn text(&self) -> &str
        ensures value { result.now ≡ flavor_text self.now }
        ensures flavor { spec.is_flavor self.now ≡ true }
    {
        self.text.get()
    }

    /// A copy of the canonical text.
    pub fn write(&self) -> Result<Text, OutOfMemory>
        ensures value { IfOk result (λ text. text ≡ flavor_text self.now) }
        ensures canonical { IfOk result (λ text. IsCanonicalText text self.now) }
    {
        self.text.copy()
    }

    /// The flags and the instruction sets.
    pub fn parts(&self) -> &Parts
        ensures value { result.now ≡ self.now }
        ensures flavor { spec.is_flavor self.now ≡ true }
    {
        &self.parts
    }
}

impl Copies for Flavor {
    fn copy(&self) -> Result<Self, OutOfMemory> {
        Ok(Flavor {
            parts: self.parts.copy()?,
            text: self.text.copy()?,
        })
    }
}

// Flavors are equal where their canonical texts are.
impl PartialEq for Flavor {
    ghost eq = { same_text };

    ghost laws = { partial_equiv_from_equiv same_text_equiv };

    fn eq(&self, other: &Flavor) -> bool
        ensures text { result ≡ same_text self.now other.now }
        ensures same { IsTrue result ↔ (self.now ≡ other.now) }
    {
        self.text() == other.text()
    }
}

impl Eq for Flavor {
    ghost laws = { same_text_equiv };
}

/// Flavors with one canonical text are one flavor.
pub fn one_text()
    ensures { (a b : Parts) → spec.is_flavor a ≡ true → spec.is_flavor b ≡ true → flavor_text a ≡ flavor_text b → a ≡ b }
{}

/// Putting in order changes the places of flags and sets alone: none is lost, and none is added.
pub fn same_items()
    ensures flags { (fs : List FlavorFlag) → IsPermutation fs (in_order (λ f. f.word) fs) }
    ensures sets { (ss : List InstructionSet) → IsPermutation ss (in_order (λ s. s.word) ss) }
{}
