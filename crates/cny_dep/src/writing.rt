//! The canonical text of a dependency.
ghost use Rattle.std.specs.Prelude.{◌≡◌, ◌++◌, ◌∷◌, IfOk, OnOk, string_bytes};
ghost use Rattle.std.specs.List.{flat_map};
ghost use Rattle.cny_dep.specs.Dep.{dep_text, flags_text};

use crate::class::Class;
use crate::flag::Flag;
use cny_base::{OutOfMemory, Text};
use std::alloc::Global;

// Appends each of these flags behind a space.
fn push_spaced(text: &mut String, flags: &[Flag]) -> Result<(), OutOfMemory>
    ensures { OnOk result (string_bytes text.new ≡ string_bytes text.old ++ flat_map (λ flag. 32 ∷ flag) flags.now) }
{
    for flag in flags {
        text.push(' ')?;
        text.push_str(flag.text())?;
    }
    Ok(())
}

// Appends the flags in parentheses; where there are none, nothing.
fn push_flags(text: &mut String, flags: &[Flag]) -> Result<(), OutOfMemory>
    ensures { OnOk result (string_bytes text.new ≡ string_bytes text.old ++ flags_text flags.now) }
{
    let [first, rest @ ..] = flags else {
        return Ok(());
    };
    text.push('(')?;
    text.push_str(first.text())?;
    push_spaced(text, rest)?;
    text.push(')')?;
    Ok(())
}

/// The canonical text of the dependency of this class, name and flags.
pub(crate) fn text_of(
    alloc: Global,
    class: Class,
    name: &str,
    flags: &[Flag],
) -> Result<Text, OutOfMemory>
    ensures { IfOk result (λ text. text ≡ dep_text (record { class = class; name = name.now; flags = flags.now })) }
{
    let mut text = String::from_str(alloc, class.word())?;
    text.push_str(": ")?;
    text.push_str(name)?;
    push_flags(&mut text, flags)?;
    Ok(Text::from_string(text))
}
