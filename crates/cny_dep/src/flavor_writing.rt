//! Writing the canonical text of a flavor.
ghost use Rattle.std.specs.Prelude.{◌≡◌, ◌++◌, string_bytes, IfOk, OnOk};
ghost use Rattle.cny_dep.specs.Canonical as spec;
ghost use Rattle.cny_dep.specs.Canonical.{flag_text, flags_text, set_text, sets_text, sets_part, flavor_text};

use crate::parts::{FlavorFlag, InstructionSet, Parts, Sense};
use cny_base::{OutOfMemory, Text};
use std::alloc::Global;

fn sense_text(sense: Sense) -> &'static str
    ensures { result.now ≡ spec.sense_text sense }
{
    match sense {
        Sense::Required => "",
        Sense::Preferred => "~",
        Sense::PreferNot => "~!",
        Sense::Forbidden => "!",
    }
}

fn push_flag(out: &mut String, flag: &FlavorFlag) -> Result<(), OutOfMemory>
    ensures { OnOk result (string_bytes out.new ≡ string_bytes out.old ++ flag_text flag.now) }
{
    out.push_str(sense_text(flag.sense))?;
    out.push_str(flag.word.get())?;
    Ok(())
}

fn push_flags(out: &mut String, flags: &[FlavorFlag]) -> Result<(), OutOfMemory>
    ensures { OnOk result (string_bytes out.new ≡ string_bytes out.old ++ flags_text flags.now) }
{
    let [first, rest @ ..] = flags else {
        return Ok(());
    };
    push_flag(out, first)?;
    for flag in rest {
        out.push_str(",")?;
        push_flag(out, flag)?;
    }
    Ok(())
}

fn push_set(out: &mut String, set: &InstructionSet) -> Result<(), OutOfMemory>
    ensures { OnOk result (string_bytes out.new ≡ string_bytes out.old ++ set_text set.now) }
{
    out.push_str(set.word.get())?;
    let flags = set.flags.get();
    if flags.is_empty() {
        return Ok(());
    }
    out.push_str("(")?;
    push_flags(out, flags)?;
    out.push_str(")")?;
    Ok(())
}

fn push_sets(out: &mut String, sets: &[InstructionSet]) -> Result<(), OutOfMemory>
    ensures { OnOk result (string_bytes out.new ≡ string_bytes out.old ++ sets_text sets.now) }
{
    let [first, rest @ ..] = sets else {
        return Ok(());
    };
    push_set(out, first)?;
    for set in rest {
        out.push_str(" ")?;
        push_set(out, set)?;
    }
    Ok(())
}

fn push_sets_part(out: &mut String, parts: &Parts) -> Result<(), OutOfMemory>
    ensures { OnOk result (string_bytes out.new ≡ string_bytes out.old ++ sets_part parts.now.flags parts.now.sets) }
{
    let sets = parts.sets.get();
    if sets.is_empty() {
        return Ok(());
    }
    if parts.flags.get().is_empty() {
        out.push_str("is: ")?;
    } else {
        out.push_str(" is: ")?;
    }
    push_sets(out, sets)
}

/// The canonical text of the parts.
pub(crate) fn text_of_parts(alloc: Global, parts: &Parts) -> Result<Text, OutOfMemory>
    ensures { IfOk result (λ text. text ≡ flavor_text parts.now) }
{
    let mut out = String::new(alloc);
    push_flags(&mut out, parts.flags.get())?;
    push_sets_part(&mut out, parts)?;
    Ok(Text::from_string(out))
}
