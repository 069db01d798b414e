//! Flags of dependencies, and the bytes that names and flags are made of.
ghost use Rattle.std.specs.Prelude.{◌≡◌, ◌↔◌, false, Some, IfOk, OnOk, IsErrOf, IsTrue, refl};
ghost use Rattle.std.specs.Cmp.{partial_equiv_from_equiv};
ghost use Rattle.std.specs.Cmp.Lexicographic.{slice_cmp, nat_list_cmp_total, nat_list_eq_equiv, texts_ties, texts_po};
ghost use Rattle.std.specs.List.{list_all};
ghost use Rattle.std.specs.Ordering.{nat_cmp};
ghost use Rattle.std.specs.Str.{bytes_eq};
ghost use Rattle.cny_dep.specs.Part as spec;
ghost use Rattle.cny_dep.specs.Part.{is_flag};

use cny_base::{Copies, OutOfMemory, TextFault};
use std::alloc::Global;
use std::cmp::Ordering;
use std::marker::Model;

/// A flag of a dependency: 1 to 255 bytes of visible ASCII without `(`, `)` and `,`.
#[derive(Drop)]
pub struct Flag {
    text: String,
}

impl Model for Flag {
    ghost use Rattle.std.specs.Prelude.{List, ℕ, string_bytes, IsTrue};
    ghost use Rattle.cny_dep.specs.Part.{is_flag};

    ghost Value = { List ℕ };

    ghost view = { λ a. string_bytes a.text };

    ghost invariant = { λ a. IsTrue (is_flag (string_bytes a.text)) };
}

impl Flag {
    // The flag with these bytes. `Bad` exactly where they aren't those of a flag.
    pub(crate) fn read(alloc: Global, bytes: &[u8]) -> Result<Self, TextFault>
        ensures value { IfOk result (λ flag. flag ≡ bytes.now) }
        ensures ok { OnOk result (IsTrue (is_flag bytes.now)) }
        ensures bad { IsErrOf result TextFault.Bad ↔ (is_flag bytes.now ≡ false) }
    {
        if !has_flag_form(bytes) {
            return Err(TextFault::Bad);
        }
        match str::from_utf8(bytes) {
            Ok(text) => Ok(Flag {
                text: String::from_str(alloc, text)?,
            }),
            Err(_) => Err(TextFault::Bad),
        }
    }

    /// The text of the flag.
    pub fn text(&self) -> &str
        ensures value { result.now ≡ self.now }
        ensures flag { IsTrue (is_flag result.now) }
    {
        self.text.as_str()
    }
}

impl Copies for Flag {
    fn copy(&self) -> Result<Self, OutOfMemory> {
        Ok(Flag {
            text: self.text.clone()?,
        })
    }
}

// Flags are equal where their bytes are, and their order is that of their bytes.
impl PartialEq for Flag {
    ghost eq = { bytes_eq };

    ghost laws = { partial_equiv_from_equiv nat_list_eq_equiv };

    fn eq(&self, other: &Flag) -> bool {
        self.text.as_str() == other.text.as_str()
    }
}

impl Eq for Flag {
    ghost laws = { nat_list_eq_equiv };
}

impl PartialOrd for Flag {
    ghost partial_cmp = { λ x y. Some (slice_cmp nat_cmp x y) };

    ghost laws = { texts_po };

    fn partial_cmp(&self, other: &Flag) -> Option<Ordering> {
        Some(self.cmp(other))
    }
}

impl Ord for Flag {
    ghost cmp = { slice_cmp nat_cmp };

    ghost total = { nat_list_cmp_total };

    ghost matches_partial_cmp = { λ x y. refl };

    ghost matches_eq = { texts_ties };

    fn cmp(&self, other: &Flag) -> Ordering {
        self.text.as_str().cmp(other.text.as_str())
    }
}

// Visible ASCII without `(`, `)` and `,`.
fn is_part_byte(byte: u8) -> bool
    ensures { result ≡ spec.is_part_byte byte }
{
    byte >= 33 && byte <= 126 && byte != b'(' && byte != b')' && byte != b','
}

fn are_part_bytes(bytes: &[u8]) -> bool
    ensures { result ≡ list_all spec.is_part_byte bytes.now }
{
    bytes.iter().all(|byte| is_part_byte(*byte))
}

fn has_flag_form(bytes: &[u8]) -> bool
    ensures { result ≡ is_flag bytes.now }
{
    let visible = are_part_bytes(bytes);
    bytes.len() >= 1 && bytes.len() <= 255 && visible
}

/// Whether the bytes are the name of a dependency: 1 to 1,024 of those that flags are made of.
pub(crate) fn is_dep_name(bytes: &[u8]) -> bool
    ensures { result ≡ spec.is_dep_name bytes.now }
{
    let visible = are_part_bytes(bytes);
    bytes.len() >= 1 && bytes.len() <= 1024 && visible
}
