//! The troves that are asked for by their names.
ghost use Rattle.std.specs.Prelude.{◌≡◌, ◌-◌, ◌^◌, length, min, IfErr, OnOk};
ghost use Rattle.std.specs.List.{list_any};
ghost use Rattle.std.specs.Str.{bytes_eq};
ghost use Rattle.update_job.specs.Lists.{AreInstalled, IsUnerased};
ghost use Rattle.root_edits.specs.Verify as spec;
ghost use Rattle.root_edits.specs.Verify.{records};

use std::alloc::Global;
use update_job::cny_base::{Fault, Name, Refusal, Text};
use update_job::trove_stream::{Installed, Trove};

/// `NotInstalled` exactly where one of the names isn't installed, with the first such name.
pub(crate) fn check_names(alloc: Global, installed: &Installed, names: &[Name]) -> Result<(), Fault>
    ensures installed { OnOk result (AreInstalled installed.now names.now) }
    ensures refused { IfErr result (IsUnerased installed.now names.now) }
{
    for name in names {
        if installed.place_of(name).is_none() {
            return Err(Fault::Refused(Refusal::NotInstalled {
                name: Text::new(alloc, name.text())?,
            }));
        }
    }
    Ok(())
}

// Whether one of the names is the trove's.
fn is_named(names: &[Name], trove: &Trove) -> bool
    ensures { result ≡ list_any (bytes_eq trove.now.id.name) names.now }
{
    let name = &trove.id().name;
    names.iter().any(|other| name == other)
}

/// Whether the trove is asked for by these names; with no names all are.
pub(crate) fn is_asked(names: &[Name], trove: &Trove) -> bool
    ensures { result ≡ spec.is_asked names.now trove.now }
{
    names.is_empty() || is_named(names, trove)
}

/// How many paths the troves that are asked for record. The count stays at its greatest value.
pub(crate) fn count_paths(troves: &[Trove], names: &[Name]) -> u64
    ensures { result ≡ min (length (records (spec.asked names.now troves.now))) (2 ^ 64 - 1) }
{
    let mut count = 0_u64;
    let mut rest = troves;
    while let [trove, after @ ..] = rest {
        if is_asked(names, trove) {
            count = count.saturating_add(trove.files().len() as u64);
        }
        rest = after;
    }
    count
}
