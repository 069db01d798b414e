//! Texts, which contracts see as their bytes, and why a text isn't made.
ghost use Rattle.std.specs.Prelude.{◌≡◌, ◌↔◌, false, IfOk, OnOk, IsErrOf, IsTrue, IfSome, IfNone, string_bytes};
ghost use Rattle.std.specs.Cmp.{partial_equiv_from_equiv};
ghost use Rattle.std.specs.Cmp.Lexicographic.{nat_list_eq_equiv};
ghost use Rattle.std.specs.Str.{bytes_eq, is_utf8};
ghost use Rattle.cny_base.specs.declared.text.TextFault.TheVariants.{Memory};

use crate::list::Copies;
use std::alloc::{AllocError, AllocFailed, Global};
use std::marker::Model;

/// No memory was left.
#[derive(Clone, Copy)]
pub struct OutOfMemory;

impl From<AllocError> for OutOfMemory {
    fn from(_: AllocError) -> Self {
        OutOfMemory
    }
}

impl<T: Drop> From<AllocFailed<T>> for OutOfMemory {
    fn from(_: AllocFailed<T>) -> Self {
        OutOfMemory
    }
}

/// Why a text isn't read.
#[derive(Clone, Copy)]
pub enum TextFault {
    /// It isn't in the grammar.
    Bad,
    /// No memory was left.
    Memory,
}

impl From<OutOfMemory> for TextFault {
    ghost from_gives = { λ _ e. e ≡ Memory };

    fn from(_: OutOfMemory) -> Self {
        TextFault::Memory
    }
}

impl From<AllocError> for TextFault {
    ghost from_gives = { λ _ e. e ≡ Memory };

    fn from(_: AllocError) -> Self {
        TextFault::Memory
    }
}

impl<T: Drop> From<AllocFailed<T>> for TextFault {
    ghost from_gives = { λ _ e. e ≡ Memory };

    fn from(_: AllocFailed<T>) -> Self {
        TextFault::Memory
    }
}

/// The text with these bytes; none exactly where they aren't UTF-8.
pub fn text_of(bytes: &[u8]) -> Option<&str>
    ensures some { IfSome result (λ text. text.now ≡ bytes.now) }
    ensures utf8 { IfSome result (λ _. IsTrue (is_utf8 bytes.now)) }
    ensures none { IfNone result (is_utf8 bytes.now ≡ false) }
{
    match str::from_utf8(bytes) {
        Ok(text) => Some(text),
        Err(_) => None,
    }
}

/// Any text; contracts see its bytes.
#[derive(Drop)]
pub struct Text {
    text: String,
}

impl Model for Text {
    ghost use Rattle.std.specs.Prelude.{List, ℕ, string_bytes};

    ghost Value = { List ℕ };

    ghost view = { λ a. string_bytes a.text };
}

impl Text {
    /// A text of its own, equal to the given one.
    pub fn new(alloc: Global, text: &str) -> Result<Self, OutOfMemory>
        ensures { IfOk result (λ made. made ≡ text.now) }
    {
        Ok(Text {
            text: String::from_str(alloc, text)?,
        })
    }

    /// The text with these bytes. `Bad` exactly where they aren't UTF-8.
    pub fn read_bytes(alloc: Global, bytes: &[u8]) -> Result<Self, TextFault>
        ensures value { IfOk result (λ text. text ≡ bytes.now) }
        ensures ok { OnOk result (IsTrue (is_utf8 bytes.now)) }
        ensures bad { IsErrOf result TextFault.Bad ↔ (is_utf8 bytes.now ≡ false) }
    {
        let text = text_of(bytes).ok_or(TextFault::Bad)?;
        Ok(Text::new(alloc, text)?)
    }

    /// The same text; takes no memory.
    pub fn from_string(text: String) -> Self
        ensures { result ≡ string_bytes text }
    {
        Text { text }
    }

    /// The text as a `String`; takes no memory.
    pub fn into_string(self) -> String
        ensures { string_bytes result ≡ self }
    {
        self.text
    }

    /// The text itself.
    pub fn get(&self) -> &str
        ensures { result.now ≡ self.now }
    {
        self.text.as_str()
    }
}

impl Copies for Text {
    fn copy(&self) -> Result<Self, OutOfMemory> {
        Ok(Text {
            text: self.text.clone()?,
        })
    }
}

// Texts are equal where their bytes are.
impl PartialEq for Text {
    ghost eq = { bytes_eq };

    ghost laws = { partial_equiv_from_equiv nat_list_eq_equiv };

    fn eq(&self, other: &Text) -> bool {
        self.text.as_str() == other.text.as_str()
    }
}

impl Eq for Text {
    ghost laws = { nat_list_eq_equiv };
}
