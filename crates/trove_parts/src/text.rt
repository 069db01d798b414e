//! Texts of ids.
ghost use Rattle.std.specs.Prelude.{◌≡◌, ◌++◌, ◌∷◌, List, ℕ, IfOk, OnOk, IfSome, IfNone, IsErrOf, IsTrue, string_bytes};
ghost use Rattle.cny_version.specs.cny-base.Name.{is_name};
ghost use Rattle.cny_version.specs.Version.{IsVersionText};
ghost use Rattle.trove_parts.specs.declared.id.TroveId.{TroveId};
ghost use Rattle.trove_parts.specs.Id.{IsTroveId, in_brackets, id_text_of};
ghost use Rattle.trove_parts.specs.Parts.{AreTextsOf, IsCutAtBracket};

use crate::id::TroveId;
use cny_dep::Flavor;
use cny_version::Version;
use cny_version::cny_base::{Name, OutOfMemory, Text, TextFault};
use std::alloc::Global;

// Adds the text of a flavor in brackets, where it isn't empty.
fn push_in_brackets(out: &mut String, flavor: &str) -> Result<(), OutOfMemory>
    ensures { OnOk result (string_bytes out.new ≡ string_bytes out.old ++ in_brackets flavor.now) }
{
    if flavor.is_empty() {
        return Ok(());
    }
    out.push('[')?;
    out.push_str(flavor)?;
    out.push(']')?;
    Ok(())
}

/// The text of an id: `name=version`, followed by `[flavor]` where the flavor isn't empty.
pub fn id_text(alloc: Global, id: &TroveId) -> Result<Text, OutOfMemory>
    ensures value { IfOk result (λ text. text ≡ id_text_of id.now) }
    ensures id { OnOk result (IsTroveId id.now) }
{
    let mut text = String::from_str(alloc, id.name.text())?;
    text.push('=')?;
    text.push_str(id.version.text())?;
    push_in_brackets(&mut text, id.flavor.text())?;
    Ok(Text::from_string(text))
}

/// The id whose parts have these texts. `Bad` only where they are those of none; for a text of no name or of no version
/// always, for a text of no flavor want of memory may be answered instead.
pub fn id_of_texts(
    alloc: Global,
    name: &str,
    version: &str,
    flavor: &str,
) -> Result<TroveId, TextFault>
    ensures value { IfOk result (λ id. AreTextsOf id name.now version.now flavor.now) }
    ensures bad { IsErrOf result TextFault.Bad
        → (id : TroveId) → AreTextsOf id name.now version.now flavor.now → ⊥ }
    ensures early { (IsTrue (is_name name.now) → IsVersionText version.now → ⊥) → IsErrOf result TextFault.Bad }
    // They are those of no other id.
    ensures only { IfOk result (λ read.
        (id : TroveId) → AreTextsOf id name.now version.now flavor.now → read ≡ id) }
{
    // Before the first allocation, so that memory doesn't decide between the two faults.
    if !Version::is_whole(version) {
        return Err(TextFault::Bad);
    }
    let name = Name::read(alloc, name)?;
    let version = Version::read_whole(alloc, version)?;
    let flavor = Flavor::read_whole(alloc, flavor)?;
    Ok(TroveId {
        name,
        version,
        flavor,
    })
}

// The text of a version, and that of the flavor in brackets behind it, empty where nothing is.
fn version_and_flavor(text: &str) -> Option<(&str, &str)>
    ensures some { IfSome result (λ found. IsCutAtBracket text.now found.0.now found.1.now) }
    ensures none { IfNone result ((version flavor : List ℕ) → IsCutAtBracket text.now version flavor → ⊥) }
{
    match text.split_once('[') {
        None => Some((text, "")),
        Some((version, rest)) => {
            let flavor = rest.strip_suffix(']')?;
            if flavor.is_empty() {
                return None;
            }
            Some((version, flavor))
        }
    }
}

/// The id with this text. `Bad` only where the text is that of none; always where it isn't a name, `=` and a version,
/// with or without something in brackets behind it, while for a text of no flavor in them want of memory may be
/// answered instead. A text with `[]` is none's.
pub fn read_id(alloc: Global, text: &str) -> Result<TroveId, TextFault>
    ensures value { IfOk result (λ id. text.now ≡ id_text_of id) }
    ensures ok { IfOk result IsTroveId }
    ensures bad { IsErrOf result TextFault.Bad
        → (id : TroveId) → IsTroveId id → text.now ≡ id_text_of id → ⊥ }
    ensures early { ((name version flavor : List ℕ) → IsTrue (is_name name) → IsVersionText version
        → text.now ≡ name ++ 61 ∷ (version ++ in_brackets flavor) → ⊥) → IsErrOf result TextFault.Bad }
    // The text is that of no other id.
    ensures only { IfOk result (λ read.
        (id : TroveId) → IsTroveId id → text.now ≡ id_text_of id → read ≡ id) }
{
    let Some((name, rest)) = text.split_once('=') else {
        return Err(TextFault::Bad);
    };
    let Some((version, flavor)) = version_and_flavor(rest) else {
        return Err(TextFault::Bad);
    };
    id_of_texts(alloc, name, version, flavor)
}
