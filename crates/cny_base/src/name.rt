//! Names of troves.
ghost use Rattle.std.specs.Prelude.{◌≡◌, ◌<◌, ◌↔◌, false, length, Some, IfSome, IfOk, OnOk, IsErrOf, IsTrue, refl};
ghost use Rattle.std.specs.Cmp.{partial_equiv_from_equiv};
ghost use Rattle.std.specs.Cmp.Lexicographic.{slice_cmp, nat_list_cmp_total, nat_list_eq_equiv, texts_ties, texts_po};
ghost use Rattle.std.specs.List.{list_all};
ghost use Rattle.std.specs.Ordering.{nat_cmp};
ghost use Rattle.std.specs.Str.{bytes_eq};
ghost use Rattle.cny_base.specs.Name as spec;
ghost use Rattle.cny_base.specs.Name.{is_name, kind_of_name};

use crate::limits::NAME_LIMIT;
use crate::list::Copies;
use crate::text::{OutOfMemory, TextFault, text_of};
use std::alloc::Global;
use std::cmp::Ordering;
use std::marker::Model;

/// What a trove is, as its name tells.
#[derive(Clone, Copy)]
pub enum NameKind {
    /// `package:component`, which holds files.
    Component,
    /// A word, which collects the components of its name.
    Package,
    /// A word that begins with `group-`, which collects troves.
    Group,
}

/// The name of a trove: a word, or two words with a colon between them; at most 255 bytes.
#[derive(Drop)]
pub struct Name {
    text: String,
}

impl Model for Name {
    ghost use Rattle.std.specs.Prelude.{List, ℕ, string_bytes, IsTrue};
    ghost use Rattle.cny_base.specs.Name.{is_name};

    ghost Value = { List ℕ };

    ghost view = { λ a. string_bytes a.text };

    ghost invariant = { λ a. IsTrue (is_name (string_bytes a.text)) };
}

impl Name {
    /// The name with this text. `Bad` exactly where the text isn't that of a name.
    pub fn read(alloc: Global, text: &str) -> Result<Self, TextFault>
        ensures value { IfOk result (λ name. name ≡ text.now) }
        ensures ok { OnOk result (IsTrue (is_name text.now)) }
        ensures bad { IsErrOf result TextFault.Bad ↔ (is_name text.now ≡ false) }
    {
        if !is_name(text) {
            return Err(TextFault::Bad);
        }
        Ok(Name {
            text: String::from_str(alloc, text)?,
        })
    }

    /// The name with these bytes as its text. `Bad` exactly where they aren't those of a name.
    #[tactic(auto, using(crate::proofs::Utf8::no_name))]
    pub fn read_bytes(alloc: Global, bytes: &[u8]) -> Result<Self, TextFault>
        ensures value { IfOk result (λ name. name ≡ bytes.now) }
        ensures ok { OnOk result (IsTrue (is_name bytes.now)) }
        ensures bad { IsErrOf result TextFault.Bad ↔ (is_name bytes.now ≡ false) }
    {
        Name::read(alloc, text_of(bytes).ok_or(TextFault::Bad)?)
    }

    /// The text of the name.
    pub fn text(&self) -> &str
        ensures value { result.now ≡ self.now }
        ensures name { IsTrue (is_name result.now) }
    {
        self.text.as_str()
    }

    /// Whether the name is that of a component, a package or a group.
    pub fn kind(&self) -> NameKind
        ensures { result ≡ kind_of_name self.now }
    {
        kind_of(self.text.as_bytes())
    }
}

impl Copies for Name {
    fn copy(&self) -> Result<Self, OutOfMemory> {
        Ok(Name {
            text: self.text.clone()?,
        })
    }
}

// Names are equal where their bytes are, and their order is that of their bytes.
impl PartialEq for Name {
    ghost eq = { bytes_eq };

    ghost laws = { partial_equiv_from_equiv nat_list_eq_equiv };

    fn eq(&self, other: &Name) -> bool {
        self.text.as_str() == other.text.as_str()
    }
}

impl Eq for Name {
    ghost laws = { nat_list_eq_equiv };
}

impl PartialOrd for Name {
    ghost partial_cmp = { λ x y. Some (slice_cmp nat_cmp x y) };

    ghost laws = { texts_po };

    fn partial_cmp(&self, other: &Name) -> Option<Ordering> {
        Some(self.cmp(other))
    }
}

impl Ord for Name {
    ghost cmp = { slice_cmp nat_cmp };

    ghost total = { nat_list_cmp_total };

    ghost matches_partial_cmp = { λ x y. refl };

    ghost matches_eq = { texts_ties };

    fn cmp(&self, other: &Name) -> Ordering {
        self.text.as_str().cmp(other.text.as_str())
    }
}

// A letter or digit, or one of `_ - . +`.
fn is_word_byte(byte: u8) -> bool
    ensures { result ≡ spec.is_word_byte byte }
{
    byte.is_ascii_alphanumeric() || matches!(byte, b'_' | b'-' | b'.' | b'+')
}

fn are_word_bytes(bytes: &[u8]) -> bool
    ensures { result ≡ list_all spec.is_word_byte bytes.now }
{
    bytes.iter().all(|byte| is_word_byte(*byte))
}

/// Whether the bytes begin with a letter or digit.
pub fn begins_alphanumeric(bytes: &[u8]) -> bool
    ensures { result ≡ spec.begins_alphanumeric bytes.now }
{
    match bytes {
        [] => false,
        [first, ..] => first.is_ascii_alphanumeric(),
    }
}

/// Whether the bytes are a word: letters, digits and `_ - . +`, the first a letter or digit.
#[tactic(auto, using(crate::proofs::Words::word))]
pub fn is_word(bytes: &[u8]) -> bool
    ensures { result ≡ spec.is_word bytes.now }
{
    begins_alphanumeric(bytes) && are_word_bytes(bytes)
}

// Where the first colon stands.
fn colon_place(bytes: &[u8]) -> Option<usize>
    ensures place { result ≡ spec.colon_place bytes.now }
    ensures within { IfSome result (λ at. at < length bytes.now) }
{
    bytes.iter().position(|byte| *byte == b':')
}

fn begins_as_group(bytes: &[u8]) -> bool
    ensures { result ≡ spec.begins_as_group bytes.now }
{
    bytes.starts_with(b"group-")
}

// A word, or two with a colon between them.
#[tactic(auto, using(std::proofs::lemmas::List::take_rest))]
fn has_words(bytes: &[u8]) -> bool
    ensures { result ≡ spec.has_words bytes.now (spec.colon_place bytes.now) }
{
    match colon_place(bytes) {
        None => is_word(bytes),
        Some(at) => {
            let first = is_word(&bytes[..at]);
            let second = is_word(&bytes[at + 1..]);
            first && second && !begins_as_group(bytes)
        }
    }
}

fn is_name(text: &str) -> bool
    ensures { result ≡ is_name text.now }
{
    text.len() <= NAME_LIMIT && has_words(text.as_bytes())
}

fn kind_of(bytes: &[u8]) -> NameKind
    ensures { result ≡ kind_of_name bytes.now }
{
    if colon_place(bytes).is_some() {
        NameKind::Component
    } else if begins_as_group(bytes) {
        NameKind::Group
    } else {
        NameKind::Package
    }
}
