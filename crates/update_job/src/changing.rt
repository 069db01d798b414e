//! The installed lists after an update and an erasure.
ghost use Rattle.std.specs.Prelude.{◌≡◌, Contains, IfOk, IfErr, OnOk};
ghost use Rattle.change_set.specs.cny-base.declared.refusal.Refusal.TheVariants as refusal;
ghost use Rattle.update_job.specs.Lists.{AreInstalled, IsErased, IsUnerased, IsUpdated, IsUnupdated, IsOneOfEach, HasTroveOf};
ghost use Rattle.update_job.specs.Places.{ArePlacesOf};

use crate::by_name::{by_name, in_order, put_all};
use crate::reaching::places_left;
use change_set::cny_base::{Fault, Name, OutOfMemory, Refusal, Text};
use change_set::trove_parts::Places;
use change_set::trove_stream::{Installed, Trove};
use std::alloc::Global;
use std::collections::BTreeMap;

// The refusal of a name of which no trove is installed.
fn not_installed(alloc: Global, name: &Name) -> Result<Refusal, OutOfMemory>
    ensures { IfOk result (λ made. made ≡ refusal.NotInstalled name.now) }
{
    Ok(Refusal::NotInstalled {
        name: Text::new(alloc, name.text())?,
    })
}

// The places of the installed troves of these names. `NotInstalled` for the first name of which none is installed.
fn places_of_names(alloc: Global, installed: &Installed, names: &[Name]) -> Result<Places, Fault>
    ensures value { IfOk result (λ places. ArePlacesOf installed.now (Contains names.now) places) }
    ensures all { OnOk result (AreInstalled installed.now names.now) }
    ensures fault { IfErr result (IsUnerased installed.now names.now) }
{
    let mut places = Places::new(alloc);
    for name in names {
        let Some(place) = installed.place_of(name) else {
            let refusal = not_installed(alloc, name)?;
            return Err(Fault::Refused(refusal));
        };
        places.insert(place)?;
    }
    Ok(places)
}

// The places of the installed troves that have the names of these.
fn places_of_troves(
    alloc: Global,
    installed: &Installed,
    troves: &[Trove],
) -> Result<Places, OutOfMemory>
    ensures { IfOk result (λ places. ArePlacesOf installed.now (HasTroveOf troves.now) places) }
{
    let mut places = Places::new(alloc);
    for trove in troves {
        if let Some(place) = installed.place_of(&trove.id().name) {
            places.insert(place)?;
        }
    }
    Ok(places)
}

/// The list after an erasure: the troves of these names go, and with them what they reach by references and no other installed
/// trove keeps. A reference leads to the installed trove of its name, whatever its version. What isn't reached from the names
/// stays, and so does what it reaches without passing through a trove of these names. A trove of these names goes also where
/// another one refers to it.
///
/// `NotInstalled` exactly where one of the names isn't installed, with the first such name.
pub fn erased(alloc: Global, installed: &Installed, names: &[Name]) -> Result<Installed, Fault>
    ensures value { IfOk result (IsErased installed.now names.now) }
    ensures all { OnOk result (AreInstalled installed.now names.now) }
    ensures fault { IfErr result (IsUnerased installed.now names.now) }
{
    let roots = places_of_names(alloc, installed, names)?;
    let left = places_left(alloc, installed, &roots)?;
    let mut troves = BTreeMap::new(alloc);
    put_all(installed, left.as_slice(), &mut troves)?;
    let list = in_order(alloc, troves)?;
    Ok(list)
}

/// The list after an update: the new troves, and of the others those that an erasure of the names of the new ones would leave.
/// Troves of one name that are equal count as one.
///
/// `Exists` exactly where two of the new troves have one name and differ, with the text of the first that differs from one of
/// its name before it.
pub fn updated(alloc: Global, installed: &Installed, come: &[Trove]) -> Result<Installed, Fault>
    ensures value { IfOk result (IsUpdated installed.now come.now) }
    ensures once { OnOk result (IsOneOfEach come.now) }
    ensures fault { IfErr result (IsUnupdated come.now) }
{
    let mut troves = by_name(alloc, come)?;
    let roots = places_of_troves(alloc, installed, come)?;
    let left = places_left(alloc, installed, &roots)?;
    put_all(installed, left.as_slice(), &mut troves)?;
    let list = in_order(alloc, troves)?;
    Ok(list)
}
