//! Labels.
ghost use Rattle.std.specs.Prelude.{◌≡◌, ◌+◌, ◌≤◌, ◌↔◌, true, length, IfOk, IfSome, IsErrOf, IsTrue};
ghost use Rattle.std.specs.Cmp.{partial_equiv_from_equiv, on_equiv};
ghost use Rattle.std.specs.Cmp.Lexicographic.{nat_list_eq_equiv};
ghost use Rattle.std.specs.Str.{bytes_eq};
ghost use Rattle.std.specs.List.{list_all};
ghost use Rattle.std.specs.Option.{option_map};
ghost use Rattle.cny_version.specs.Filled.{no_label};
ghost use Rattle.cny_version.specs.Label as spec;
ghost use Rattle.cny_version.specs.Label.{LabelParts, label_text, is_label, IsLabelText};
ghost use Rattle.cny_version.specs.Reading.{Reads, checked_label, label_found};
ghost use Rattle.cny_version.specs.Slices.{parts_of};

use crate::cut::cut;
use cny_base::{Copies, OutOfMemory, TextFault};
use std::alloc::Global;
use std::marker::Model;

/// Where versions are made: `host@namespace:tag`, of at most 255 bytes.
pub struct Label {
    host: String,
    namespace: String,
    tag: String,
    text: String,
}

impl Model for Label {
    ghost use Rattle.std.specs.Prelude.{◌≡◌, string_bytes, IsTrue};
    ghost use Rattle.cny_version.specs.Label.{LabelParts, label_text, is_label};

    ghost Value = { LabelParts };

    ghost view = { λ a. record { host = string_bytes a.host; namespace = string_bytes a.namespace; tag = string_bytes a.tag } };

    ghost invariant = { λ a.
        let parts : LabelParts = record { host = string_bytes a.host; namespace = string_bytes a.namespace; tag = string_bytes a.tag } in
        (string_bytes a.text ≡ label_text parts) × IsTrue (is_label parts) };
}

// Written by hand, so that to let a value go is a single call wherever a function ends early.
impl Drop for Label {
    fn drop(self) {
        let Label {
            host: _host,
            namespace: _namespace,
            tag: _tag,
            text: _text,
        } = self;
    }
}

impl Label {
    /// The label with this text. `Bad` exactly where the text isn't that of a label.
    pub fn read(alloc: Global, text: &str) -> Result<Self, TextFault>
        ensures value { IfOk result (λ label. text.now ≡ label_text label) }
        ensures ok { IfOk result (λ label. IsTrue (is_label label)) }
        ensures only { (label : LabelParts) → IsTrue (is_label label) → text.now ≡ label_text label → IfOk result (λ read. read ≡ label) }
        ensures bad { IsErrOf result TextFault.Bad ↔ ¬ IsLabelText text.now }
    {
        Label::found(alloc, text)
    }

    // What `read` answers, as what is found in the text.
    fn found(alloc: Global, text: &str) -> Result<Self, TextFault>
        ensures { Reads result (label_found true no_label text.now) }
    {
        match LabelText::NONE.next(true, text) {
            None => Err(TextFault::Bad),
            Some(parts) => Ok(Label::of(alloc, parts)?),
        }
    }

    /// The label of these parts.
    pub(crate) fn of(alloc: Global, parts: LabelText<'_>) -> Result<Self, OutOfMemory>
        requires { IsTrue (is_label (parts_of parts)) }
        ensures { IfOk result (λ label. label ≡ parts_of parts.entry) }
    {
        let mut text = String::from_str(alloc, parts.host)?;
        text.push('@')?;
        text.push_str(parts.namespace)?;
        text.push(':')?;
        text.push_str(parts.tag)?;
        Ok(Label {
            host: String::from_str(alloc, parts.host)?,
            namespace: String::from_str(alloc, parts.namespace)?,
            tag: String::from_str(alloc, parts.tag)?,
            text,
        })
    }

    /// The text of the label, `host@namespace:tag`.
    pub fn text(&self) -> &str
        ensures value { result.now ≡ label_text self.now }
        ensures label { IsTrue (is_label self.now) }
    {
        self.text.as_str()
    }
}

impl Copies for Label {
    fn copy(&self) -> Result<Self, OutOfMemory> {
        Ok(Label {
            host: self.host.clone()?,
            namespace: self.namespace.clone()?,
            tag: self.tag.clone()?,
            text: self.text.clone()?,
        })
    }
}

// Labels are equal where their texts are.
impl PartialEq for Label {
    ghost eq = { λ l m. bytes_eq (label_text l) (label_text m) };

    ghost laws = { partial_equiv_from_equiv (on_equiv label_text nat_list_eq_equiv) };

    fn eq(&self, other: &Label) -> bool {
        self.text.as_str() == other.text.as_str()
    }
}

impl Eq for Label {
    ghost laws = { on_equiv label_text nat_list_eq_equiv };
}

/// The parts of a label, lent from a text.
#[derive(Clone, Copy)]
pub(crate) struct LabelText<'a> {
    pub host: &'a str,
    pub namespace: &'a str,
    pub tag: &'a str,
}

// A letter or digit, or one of `. _ -`.
fn is_label_byte(byte: u8) -> bool
    ensures { result ≡ spec.is_label_byte byte }
{
    byte.is_ascii_alphanumeric() || matches!(byte, b'.' | b'_' | b'-')
}

fn are_label_bytes(bytes: &[u8]) -> bool
    ensures { result ≡ list_all spec.is_label_byte bytes.now }
{
    bytes.iter().all(|byte| is_label_byte(*byte))
}

fn is_label_part(bytes: &[u8]) -> bool
    ensures { result ≡ spec.is_label_part bytes.now }
{
    match bytes {
        [] => false,
        [first, rest @ ..] => first.is_ascii_alphanumeric() && are_label_bytes(rest),
    }
}

// At most 255 bytes with the `@` and the `:`.
fn are_short(host: &str, namespace: &str, tag: &str) -> bool
    ensures { IsTrue result ↔ (length host.now + length namespace.now + length tag.now ≤ 253) }
{
    host.len() <= 253
        && namespace.len() <= 253
        && tag.len() <= 253
        && host.len() + namespace.len() + tag.len() <= 253
}

impl<'a> LabelText<'a> {
    /// What stands before the first label: nothing that a label could take over.
    pub const NONE: LabelText<'static> = LabelText {
        host: "",
        namespace: "",
        tag: "",
    };

    /// The length of the label's text.
    pub fn len(&self) -> usize
        requires { IsTrue (is_label (parts_of self.now)) }
        ensures len { result ≡ length (label_text (parts_of self.now)) }
        ensures short { result ≤ 255 }
    {
        self.host.len() + self.namespace.len() + self.tag.len() + 2
    }

    // These parts, where they are those of a label.
    fn checked(host: &'a str, namespace: &'a str, tag: &'a str) -> Option<Self>
        ensures found { option_map parts_of result ≡ checked_label host.now namespace.now tag.now }
        ensures label { IfSome result (λ label. IsTrue (is_label (parts_of label))) }
    {
        let host_is = is_label_part(host.as_bytes());
        let namespace_is = is_label_part(namespace.as_bytes());
        let tag_is = is_label_part(tag.as_bytes());
        if host_is && namespace_is && tag_is && are_short(host, namespace, tag) {
            Some(LabelText {
                host,
                namespace,
                tag,
            })
        } else {
            None
        }
    }

    /// The label of a text that comes after this one: a whole label, or where that isn't asked
    /// for also `namespace:tag` or `tag`, which take over the rest. None where it is no label.
    pub fn next(&self, whole: bool, text: &'a str) -> Option<Self>
        ensures found { option_map parts_of result ≡ label_found whole (parts_of self.now) text.now }
        ensures label { IfSome result (λ label. IsTrue (is_label (parts_of label))) }
    {
        if let Some((host, rest)) = cut(text, '@') {
            let (namespace, tag) = cut(rest, ':')?;
            return LabelText::checked(host, namespace, tag);
        }
        if whole {
            return None;
        }
        match cut(text, ':') {
            Some((namespace, tag)) => LabelText::checked(self.host, namespace, tag),
            None => LabelText::checked(self.host, self.namespace, text),
        }
    }
}
