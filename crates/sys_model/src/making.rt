//! What a line of a model makes of a list.
ghost use Rattle.std.specs.Prelude.{◌≡◌, [], ◌∷◌, ◌++◌, map, IfOk, OnOk};
ghost use Rattle.trove_spec.specs.AndThen.{EndsAs};
ghost use Rattle.trove_spec.specs.Meant.{Expands};
ghost use Rattle.sys_model.specs.Wanted.{given, in_place_of, PutsIn, TakesOut, Makes};

use crate::directive::ModelLine;
use repo_index::Catalogue;
use repo_index::cny_base::{Copies, Fault, Name, OutOfMemory, Text};
use repo_index::trove_stream::{Installed, Trove};
use std::alloc::Global;
use std::slice;
use trove_spec::{Config, Spec, expand, resolve};
use update_job::{erased, updated};

// The trove that the specification of this text means, with all that it reaches.
fn expanded(
    alloc: Global,
    catalogue: &Catalogue,
    spec: &Spec,
    text: &Text,
    config: &Config,
) -> Result<Installed, Fault>
    ensures { EndsAs (Expands catalogue.now.troves config.now (given spec.now text.now)) result }
{
    let root = resolve(alloc, catalogue, spec, text.get(), config)?;
    let found = expand(alloc, catalogue, slice::from_ref(&root))?;
    Ok(Installed::of_rising(found.into_vec()))
}

// The list with these troves put in.
fn with_put_in(alloc: Global, list: &Installed, found: &Installed) -> Result<Installed, Fault>
    ensures { EndsAs (PutsIn list.now found.now) result }
{
    let new = updated(alloc, list, found.troves())?;
    Ok(new)
}

// Puts a copy of the trove behind the others, or of the one of its name among these, if there is one.
fn push_in_place(
    troves: &mut Vec<Trove>,
    found: &Installed,
    trove: &Trove,
) -> Result<(), OutOfMemory>
    ensures { OnOk result (troves.new.items ≡ troves.old.items ++ in_place_of found.now trove.now ∷ []) }
{
    let copy = match found.get(&trove.id().name) {
        Some(other) => other.copy()?,
        None => trove.copy()?,
    };
    troves.push(copy)?;
    Ok(())
}

// The list in which each of these troves whose name it has takes that name's place.
fn with_replaced(
    alloc: Global,
    list: &Installed,
    found: &Installed,
) -> Result<Installed, OutOfMemory>
    ensures { IfOk result (λ new. new ≡ map (in_place_of found.now) list.now) }
{
    let mut troves = Vec::new(alloc);
    for trove in list.troves() {
        push_in_place(&mut troves, found, trove)?;
    }
    Ok(Installed::of_rising(troves))
}

// The list without the trove of this name, and what it alone keeps.
fn taken_out(alloc: Global, list: &Installed, name: &Name) -> Result<Installed, Fault>
    ensures { EndsAs (TakesOut list.now name.now) result }
{
    let new = erased(alloc, list, slice::from_ref(name))?;
    Ok(new)
}

/// What the line makes of the list.
pub(crate) fn made(
    alloc: Global,
    catalogue: &Catalogue,
    config: &Config,
    list: &Installed,
    line: &ModelLine,
) -> Result<Installed, Fault>
    ensures { EndsAs (Makes catalogue.now.troves config.now list.now line.now) result }
{
    match line {
        ModelLine::Install { spec, text } => {
            let found = expanded(alloc, catalogue, spec, text, config)?;
            with_put_in(alloc, list, &found)
        }
        ModelLine::Update { spec, text } => {
            let found = expanded(alloc, catalogue, spec, text, config)?;
            Ok(with_replaced(alloc, list, &found)?)
        }
        ModelLine::Erase { name } => taken_out(alloc, list, name),
    }
}
