//! Where symbolic links lead.
ghost use Rattle.std.specs.Prelude.{◌≡◌, ◌↔◌, false, IfOk, OnOk, IsErrOf, IsTrue};
ghost use Rattle.std.specs.Cmp.{partial_equiv_from_equiv};
ghost use Rattle.std.specs.Cmp.Lexicographic.{nat_list_eq_equiv};
ghost use Rattle.std.specs.List.{list_all};
ghost use Rattle.std.specs.Str.{bytes_eq};
ghost use Rattle.cny_base.specs.Target.{has_target_form, is_target, is_shown};

use crate::list::Copies;
use crate::text::{OutOfMemory, TextFault, text_of};
use std::alloc::Global;
use std::marker::Model;

/// Where a symbolic link leads: 1 to 1,024 bytes of UTF-8 without control bytes.
#[derive(Drop)]
pub struct Target {
    text: String,
}

impl Model for Target {
    ghost use Rattle.std.specs.Prelude.{List, ℕ, string_bytes, IsTrue};
    ghost use Rattle.cny_base.specs.Target.{is_target};

    ghost Value = { List ℕ };

    ghost view = { λ a. string_bytes a.text };

    ghost invariant = { λ a. IsTrue (is_target (string_bytes a.text)) };
}

impl Target {
    /// The target with this text. `Bad` exactly where the text isn't that of a target.
    pub fn read(alloc: Global, text: &str) -> Result<Self, TextFault>
        ensures value { IfOk result (λ target. target ≡ text.now) }
        ensures ok { OnOk result (IsTrue (is_target text.now)) }
        ensures bad { IsErrOf result TextFault.Bad ↔ (is_target text.now ≡ false) }
    {
        if !is_target(text) {
            return Err(TextFault::Bad);
        }
        Ok(Target {
            text: String::from_str(alloc, text)?,
        })
    }

    /// The target with these bytes as its text. `Bad` exactly where they aren't those of a target.
    #[tactic(auto, using(crate::proofs::Utf8::no_target))]
    pub fn read_bytes(alloc: Global, bytes: &[u8]) -> Result<Self, TextFault>
        ensures value { IfOk result (λ target. target ≡ bytes.now) }
        ensures ok { OnOk result (IsTrue (is_target bytes.now)) }
        ensures bad { IsErrOf result TextFault.Bad ↔ (is_target bytes.now ≡ false) }
    {
        Target::read(alloc, text_of(bytes).ok_or(TextFault::Bad)?)
    }

    /// The text of the target.
    pub fn text(&self) -> &str
        ensures value { result.now ≡ self.now }
        ensures target { IsTrue (is_target result.now) }
    {
        self.text.as_str()
    }
}

impl Copies for Target {
    fn copy(&self) -> Result<Self, OutOfMemory> {
        Ok(Target {
            text: self.text.clone()?,
        })
    }
}

// Targets are equal where their bytes are.
impl PartialEq for Target {
    ghost eq = { bytes_eq };

    ghost laws = { partial_equiv_from_equiv nat_list_eq_equiv };

    fn eq(&self, other: &Target) -> bool {
        self.text.as_str() == other.text.as_str()
    }
}

impl Eq for Target {
    ghost laws = { nat_list_eq_equiv };
}

// No control byte.
fn are_shown(bytes: &[u8]) -> bool
    ensures { result ≡ list_all is_shown bytes.now }
{
    bytes.iter().all(|byte| *byte >= 32 && *byte != 127)
}

fn has_target_form(bytes: &[u8]) -> bool
    ensures { result ≡ has_target_form bytes.now }
{
    let shown = are_shown(bytes);
    !bytes.is_empty() && bytes.len() <= 1024 && shown
}

fn is_target(text: &str) -> bool
    ensures { result ≡ is_target text.now }
{
    has_target_form(text.as_bytes())
}
