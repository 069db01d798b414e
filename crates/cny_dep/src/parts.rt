//! The flags and instruction sets of a flavor.
use cny_base::{Copies, ListOf, OutOfMemory, Text};

/// What a flag asks for.
#[derive(Clone, Copy)]
pub enum Sense {
    /// Written with nothing before the word.
    Required,
    /// Written `~`.
    Preferred,
    /// Written `~!`.
    PreferNot,
    /// Written `!`.
    Forbidden,
}

/// A sense and a word.
#[derive(Drop)]
pub struct FlavorFlag {
    pub sense: Sense,
    pub word: Text,
}

impl Copies for FlavorFlag {
    fn copy(&self) -> Result<Self, OutOfMemory> {
        Ok(FlavorFlag {
            sense: self.sense,
            word: self.word.copy()?,
        })
    }
}

/// A list of flags.
pub type Flags = ListOf<FlavorFlag>;

/// An instruction set, with flags of its own.
#[derive(Drop)]
pub struct InstructionSet {
    pub word: Text,
    pub flags: Flags,
}

impl Copies for InstructionSet {
    fn copy(&self) -> Result<Self, OutOfMemory> {
        Ok(InstructionSet {
            word: self.word.copy()?,
            flags: self.flags.copy()?,
        })
    }
}

/// A list of instruction sets.
pub type InstructionSets = ListOf<InstructionSet>;

/// The flags and the instruction sets of a flavor.
#[derive(Drop)]
pub struct Parts {
    pub flags: Flags,
    pub sets: InstructionSets,
}

impl Copies for Parts {
    fn copy(&self) -> Result<Self, OutOfMemory> {
        Ok(Parts {
            flags: self.flags.copy()?,
            sets: self.sets.copy()?,
        })
    }
}
