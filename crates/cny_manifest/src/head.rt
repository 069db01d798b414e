//! The first three lines of a manifest, and the values of other crates in lines.
ghost use Rattle.std.specs.Prelude.{◌≡◌};
ghost use Rattle.cny_manifest.specs.Grammar as spec;
ghost use Rattle.cny_manifest.specs.Grammar.{IsVersionField, IsVersionLine, IsFlavorField, IsRefField};
ghost use Rattle.cny_manifest.specs.Reading.{ReadsAs, ReadsOnly};

use crate::fields::{field_of, is_same, strip};
use cny_dep::Flavor;
use cny_version::Version;
use manifest_troves::cny_base::{Name, NameKind, TextFault, text_of};
use manifest_troves::trove_parts::{TroveId, read_id};
use std::alloc::Global;

/// Whether owners are named, by the first line.
#[tactic(auto, unfolding(crate::specs::Grammar::magic_of))]
pub(crate) fn magic_of(line: &[u8]) -> Option<bool>
    ensures { result ≡ spec.magic_of line.now }
{
    if is_same(line, b"manifest 1") {
        Some(false)
    } else if is_same(line, b"manifest 2") {
        Some(true)
    } else {
        None
    }
}

// The word of the second line.
fn kind_word(kind: NameKind) -> &'static [u8]
    ensures { result.now ≡ spec.kind_word kind }
{
    match kind {
        NameKind::Component => b"component",
        NameKind::Package => b"package",
        NameKind::Group => b"group",
    }
}

// The name, where the word is that of its kind.
fn name_if(alloc: Global, word: &[u8], name: &[u8]) -> Result<Name, TextFault>
    ensures { ReadsAs (spec.name_if (word.now, name.now)) result }
{
    let name = Name::read_bytes(alloc, name)?;
    if !is_same(word, kind_word(name.kind())) {
        return Err(TextFault::Bad);
    }
    Ok(name)
}

/// The name on the second line.
#[tactic(auto, unfolding(crate::specs::Grammar::name_of))]
pub(crate) fn name_of(alloc: Global, line: &[u8]) -> Result<Name, TextFault>
    ensures { ReadsAs (spec.name_of line.now) result }
{
    match field_of(line) {
        Some((word, name)) => name_if(alloc, word, name),
        None => Err(TextFault::Bad),
    }
}

// The version with this text, in which labels may be abbreviated.
fn version_field(alloc: Global, text: &[u8]) -> Result<Version, TextFault>
    ensures { ReadsOnly (IsVersionField text.now) result }
{
    let Some(text) = text_of(text) else {
        return Err(TextFault::Bad);
    };
    Version::read(alloc, text)
}

/// The version on the third line.
pub(crate) fn version_of(alloc: Global, line: &[u8]) -> Result<Version, TextFault>
    ensures { ReadsOnly (IsVersionLine line.now) result }
{
    match strip(b"version ", line) {
        Some(version) => version_field(alloc, version),
        None => Err(TextFault::Bad),
    }
}

/// The flavor with this relaxed text, where it isn't empty.
pub(crate) fn flavor_field(alloc: Global, text: &[u8]) -> Result<Flavor, TextFault>
    ensures { ReadsOnly (IsFlavorField text.now) result }
{
    let Some(text) = text_of(text) else {
        return Err(TextFault::Bad);
    };
    let flavor = Flavor::read(alloc, text)?;
    if flavor.text().is_empty() {
        return Err(TextFault::Bad);
    }
    Ok(flavor)
}

/// The id with this text.
pub(crate) fn ref_field(alloc: Global, text: &[u8]) -> Result<TroveId, TextFault>
    ensures { ReadsOnly (IsRefField text.now) result }
{
    let Some(text) = text_of(text) else {
        return Err(TextFault::Bad);
    };
    read_id(alloc, text)
}
