//! The installed troves that one of them reaches.
ghost use Rattle.std.specs.Prelude.{◌≡◌, IfOk, IfErr, OnOk};
ghost use Rattle.update_job.specs.cny-base.declared.refusal.Refusal.TheVariants as refusal;
ghost use Rattle.update_job.specs.trove-stream.Installed.{IsNameless};
ghost use Rattle.root_edits.specs.Reached.{AreReached};
ghost use Rattle.root_edits.specs.Steps as spec;
ghost use Rattle.root_edits.specs.Steps.{IsUninstalled};

use std::alloc::Global;
use update_job::cny_base::{Copies, Fault, Name, OutOfMemory, Refusal, Text};
use update_job::places_from;
use update_job::trove_parts::Places;
use update_job::trove_stream::Installed;

// The troves at these places, in the order of the list.
fn chosen(alloc: Global, installed: &Installed, places: &Places) -> Result<Installed, OutOfMemory>
    ensures { IfOk result (λ troves. troves ≡ spec.chosen places.now 0 installed.now) }
{
    let mut troves = Vec::new(alloc);
    for (place, trove) in installed.troves().iter().enumerate() {
        if places.contains(place) {
            troves.push(trove.copy()?)?;
        }
    }
    Ok(Installed::of_rising(troves))
}

// The refusal of a name of which no trove is installed.
fn not_installed(alloc: Global, name: &Name) -> Result<Refusal, OutOfMemory>
    ensures { IfOk result (λ made. made ≡ refusal.NotInstalled name.now) }
{
    Ok(Refusal::NotInstalled {
        name: Text::new(alloc, name.text())?,
    })
}

/// The installed troves that the one of this name reaches by references, whatever their versions, in the order of their names.
/// `NotInstalled` exactly where there is none of this name.
pub(crate) fn reached(alloc: Global, installed: &Installed, name: &Name) -> Result<Installed, Fault>
    ensures value { IfOk result (AreReached installed.now name.now) }
    ensures installed { OnOk result (¬ (IsNameless name.now installed.now)) }
    ensures fault { IfErr result (IsUninstalled installed.now name.now) }
{
    let Some(start) = installed.place_of(name) else {
        let refusal = not_installed(alloc, name)?;
        return Err(Fault::Refused(refusal));
    };
    let places = places_from(alloc, installed, start)?;
    Ok(chosen(alloc, installed, &places)?)
}
