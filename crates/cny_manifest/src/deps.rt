//! The lines of what troves require and provide.
ghost use Rattle.cny_manifest.specs.Grammar.{IsDepField, IsDepFields};
ghost use Rattle.cny_manifest.specs.Reading.{ReadsOnly};

use crate::fields::field_of;
use cny_dep::Dep;
use manifest_troves::DepLine;
use manifest_troves::cny_base::{Name, TextFault, text_of};
use std::alloc::Global;

// The dependency with this relaxed text.
fn dep_of(alloc: Global, text: &[u8]) -> Result<Dep, TextFault>
    ensures { ReadsOnly (IsDepField text.now) result }
{
    let Some(text) = text_of(text) else {
        return Err(TextFault::Bad);
    };
    Dep::read(alloc, text)
}

/// What the fields of a `requires` or `provides` line say.
pub(crate) fn dep_fields(alloc: Global, fields: &[u8]) -> Result<DepLine, TextFault>
    ensures { ReadsOnly (IsDepFields fields.now) result }
{
    let Some((name, rest)) = field_of(fields) else {
        return Err(TextFault::Bad);
    };
    let name = Name::read_bytes(alloc, name)?;
    let dep = dep_of(alloc, rest)?;
    Ok(DepLine { name, dep })
}
