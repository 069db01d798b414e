//! Specifications and their texts.
ghost use Rattle.std.specs.Prelude.{◌≡◌, true, false, List, ℕ, Option, IfOk, IfSome, IfNone};
ghost use Rattle.std.specs.Option.{option_copied};
ghost use Rattle.cny_dep.specs.declared.parts.Parts.{Parts};
ghost use Rattle.trove_spec.specs.declared.spec.Spec.{Spec};
ghost use Rattle.trove_spec.specs.declared.spec.Place.{Place};
ghost use Rattle.trove_spec.specs.Spec as spec;
ghost use Rattle.trove_spec.specs.Spec.{IsSpecText, ArePartsOf, IsPlaceText, IsFlavorText, IsCutAtEquals, IsCutAtBracket, IsReadAs};

use cny_dep::Flavor;
use cny_version::{Label, Version};
use repo_index::cny_base::{Copies, Name, OutOfMemory, TextFault};
use std::alloc::Global;

/// Where a trove is looked for.
pub enum Place {
    /// On the first label of the configuration that has a candidate.
    Any,
    /// On this label.
    OnLabel(Label),
    /// Wherever, with this version.
    At(Version),
}

// Written by hand, so that to let a value go is a single call wherever a function ends early.
impl Drop for Place {
    fn drop(self) {
        match self {
            Place::Any => {}
            Place::OnLabel(_label) => {}
            Place::At(_version) => {}
        }
    }
}

impl Copies for Place {
    fn copy(&self) -> Result<Self, OutOfMemory> {
        Ok(match self {
            Place::Any => Place::Any,
            Place::OnLabel(label) => Place::OnLabel(label.copy()?),
            Place::At(version) => Place::At(version.copy()?),
        })
    }
}

/// Which trove is meant: its name, and where and for which flavor it is looked for.
pub struct Spec {
    pub name: Name,
    pub place: Place,
    /// The flavor that the trove has to fit; none for that of the system.
    pub flavor: Option<Flavor>,
}

// Written by hand, so that to let a value go is a single call wherever a function ends early.
impl Drop for Spec {
    fn drop(self) {
        let Spec {
            name: _name,
            place: _place,
            flavor: _flavor,
        } = self;
    }
}

impl Spec {
    /// The specification with this text: a name; `=` and a whole label, or `=` and a version whose labels may be abbreviated,
    /// or neither; a flavor in brackets, or none. `Bad` only where the text is that of none; want of memory may be answered
    /// there instead.
    pub fn read(alloc: Global, text: &str) -> Result<Self, TextFault>
        // What is read has this text.
        ensures found { IfOk result (IsSpecText text.now) }
        // What has this text is read, unless memory runs out.
        ensures only { (meant : Spec) → IsSpecText text.now meant → IsReadAs result meant }
    {
        let Some((front, flavor)) = cut_at_bracket(text) else {
            return Err(TextFault::Bad);
        };
        let (name, place) = cut_at_equals(front);
        spec_of(alloc, name, place, flavor)
    }
}

impl Copies for Spec {
    fn copy(&self) -> Result<Self, OutOfMemory> {
        let flavor = match &self.flavor {
            None => None,
            Some(flavor) => Some(flavor.copy()?),
        };
        Ok(Spec {
            name: self.name.copy()?,
            place: self.place.copy()?,
            flavor,
        })
    }
}

// What stands before the first `[`, and what stands between it and a `]` at the end, where there is one. None where the text
// doesn't end so.
fn cut_at_bracket(text: &str) -> Option<(&str, Option<&str>)>
    ensures some { IfSome result (λ cut. IsCutAtBracket text.now cut.0.now (option_copied cut.1)) }
    ensures none { IfNone result ((front : List ℕ) (flavor : Option (List ℕ)) → IsCutAtBracket text.now front flavor → ⊥) }
{
    match text.split_once('[') {
        None => Some((text, None)),
        Some((front, rest)) => {
            let flavor = rest.strip_suffix(']')?;
            Some((front, Some(flavor)))
        }
    }
}

// What stands before the first `=`, and what stands behind it, where there is one.
fn cut_at_equals(text: &str) -> (&str, Option<&str>)
    ensures { IsCutAtEquals text.now result.0.now (option_copied result.1) }
{
    match text.split_once('=') {
        None => (text, None),
        Some((name, place)) => (name, Some(place)),
    }
}

// The specification of these texts: a name, what stands behind `=`, and what stands in brackets.
fn spec_of(
    alloc: Global,
    name: &str,
    place: Option<&str>,
    flavor: Option<&str>,
) -> Result<Spec, TextFault>
    ensures found { IfOk result (ArePartsOf name.now (option_copied place.entry) (option_copied flavor.entry)) }
    ensures only { (meant : Spec) → ArePartsOf name.now (option_copied place.entry) (option_copied flavor.entry) meant → IsReadAs result meant }
{
    let name = Name::read(alloc, name)?;
    let place = read_place(alloc, place)?;
    let flavor = read_flavor(alloc, flavor)?;
    Ok(Spec {
        name,
        place,
        flavor,
    })
}

// The place of the text behind `=`, where there is one.
fn read_place(alloc: Global, text: Option<&str>) -> Result<Place, TextFault>
    ensures found { IfOk result (IsPlaceText (option_copied text.entry)) }
    ensures only { (meant : Place) → IsPlaceText (option_copied text.entry) meant → IsReadAs result meant }
{
    match text {
        None => Ok(Place::Any),
        Some(text) => read_behind_equals(alloc, text),
    }
}

// The version or the label of a text: those of versions begin with `/`, and no label does.
fn read_behind_equals(alloc: Global, text: &str) -> Result<Place, TextFault>
    ensures found { IfOk result (spec.IsLabelOrVersion text.now) }
    ensures only { (meant : Place) → spec.IsLabelOrVersion text.now meant → IsReadAs result meant }
{
    if begins_with_slash(text.as_bytes()) {
        read_version(alloc, text)
    } else {
        read_label(alloc, text)
    }
}

fn read_version(alloc: Global, text: &str) -> Result<Place, TextFault>
    requires { spec.begins_with_slash text.now ≡ true }
    ensures found { IfOk result (spec.IsLabelOrVersion text.now) }
    ensures only { (meant : Place) → spec.IsLabelOrVersion text.now meant → IsReadAs result meant }
{
    match Version::read(alloc, text) {
        Ok(version) => Ok(Place::At(version)),
        Err(fault) => Err(fault),
    }
}

fn read_label(alloc: Global, text: &str) -> Result<Place, TextFault>
    requires { spec.begins_with_slash text.now ≡ false }
    ensures found { IfOk result (spec.IsLabelOrVersion text.now) }
    ensures only { (meant : Place) → spec.IsLabelOrVersion text.now meant → IsReadAs result meant }
{
    match Label::read(alloc, text) {
        Ok(label) => Ok(Place::OnLabel(label)),
        Err(fault) => Err(fault),
    }
}

fn begins_with_slash(bytes: &[u8]) -> bool
    ensures { result ≡ spec.begins_with_slash bytes.now }
{
    match bytes {
        [] => false,
        [first, ..] => *first == b'/',
    }
}

// The flavor of the text in brackets, where there is one.
fn read_flavor(alloc: Global, text: Option<&str>) -> Result<Option<Flavor>, TextFault>
    ensures found { IfOk result (IsFlavorText (option_copied text.entry)) }
    ensures only { (meant : Option Parts) → IsFlavorText (option_copied text.entry) meant → IsReadAs result meant }
{
    match text {
        None => Ok(None),
        Some(text) => Ok(Some(Flavor::read(alloc, text)?)),
    }
}
