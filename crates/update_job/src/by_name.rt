//! Troves in a map by their names, and the list of such a map.
ghost use Rattle.std.specs.Prelude.{◌≡◌, ◌↔◌, IsTrue, OnOk, IfOk, IfErr};
ghost use Rattle.std.specs.BTreeMap.{values, IsOrdered};
ghost use Rattle.std.specs.Cmp.Lexicographic.{slice_cmp};
ghost use Rattle.std.specs.Ordering.{nat_cmp};
ghost use Rattle.update_job.specs.Lists.{IsOneOfEach, IsUnupdated};
ghost use Rattle.update_job.specs.Places.{ArePlaces};
ghost use Rattle.update_job.specs.ByName.{AreNamed, HasPut, HasPutAt, HasPutAll, AreByName, HasAdmitted, IsNotAdmitted};

use change_set::cny_base::{Bytes, Copies, Fault, Name, OutOfMemory, Refusal};
use change_set::trove_parts::id_text;
use change_set::trove_stream::{Installed, Trove, distinct_troves, encode};
use std::alloc::Global;
use std::collections::BTreeMap;

/// Troves by their names.
pub(crate) type ByName = BTreeMap<Name, Trove>;

/// Whether two troves are equal in all that they hold, by their streams.
pub(crate) fn are_equal(alloc: Global, one: &Trove, other: &Trove) -> Result<bool, OutOfMemory>
    ensures { IfOk result (λ equal. IsTrue equal ↔ (one.now ≡ other.now)) }
{
    distinct_troves();
    let mut stream = Bytes::new(alloc, b"")?;
    encode(alloc, one, &mut stream)?;
    let mut other_stream = Bytes::new(alloc, b"")?;
    encode(alloc, other, &mut other_stream)?;
    Ok(stream == other_stream)
}

// Puts a copy of a trove under its name.
fn put(troves: &mut ByName, trove: &Trove) -> Result<(), OutOfMemory>
    requires { IsOrdered (slice_cmp nat_cmp) troves.old }
    ensures put { OnOk result (HasPut trove.now troves.old troves.new) }
    ensures ordered { IsOrdered (slice_cmp nat_cmp) troves.new }
{
    let name = trove.id().name.copy()?;
    let copy = trove.copy()?;
    troves.insert(name, copy)?;
    Ok(())
}

// Puts a copy of the installed trove at a place under its name.
fn put_at(installed: &Installed, place: usize, troves: &mut ByName) -> Result<(), OutOfMemory>
    requires { IsOrdered (slice_cmp nat_cmp) troves.old }
    ensures put { OnOk result (HasPutAt installed.now place troves.old troves.new) }
    ensures ordered { IsOrdered (slice_cmp nat_cmp) troves.new }
{
    if let Some(trove) = installed.troves().get(place) {
        put(troves, trove)?;
    }
    Ok(())
}

/// Puts copies of the installed troves at these places under their names.
pub(crate) fn put_all(
    installed: &Installed,
    places: &[usize],
    troves: &mut ByName,
) -> Result<(), OutOfMemory>
    requires places { ArePlaces installed.now places.now }
    requires ordered { IsOrdered (slice_cmp nat_cmp) troves.old }
    ensures put { OnOk result (HasPutAll installed.now places.now troves.old troves.new) }
    ensures ordered { IsOrdered (slice_cmp nat_cmp) troves.new }
{
    // No two installed troves have one name.
    let _all = installed.troves();
    for place in places {
        put_at(installed, *place, troves)?;
    }
    Ok(())
}

// Puts a copy of a trove under its name, where none stands there. `Exists` where another one stands there.
fn admit(alloc: Global, troves: &mut ByName, trove: &Trove) -> Result<(), Fault>
    requires { IsOrdered (slice_cmp nat_cmp) troves.old }
    ensures ok { OnOk result (HasAdmitted troves.old trove.now troves.new) }
    ensures fault { IfErr result (IsNotAdmitted troves.old trove.now) }
    ensures ordered { IsOrdered (slice_cmp nat_cmp) troves.new }
{
    if let Some(first) = troves.get(&trove.id().name) {
        if !are_equal(alloc, first, trove)? {
            let text = id_text(alloc, trove.id())?;
            return Err(Fault::Refused(Refusal::Exists { trove: text }));
        }
    }
    Ok(put(troves, trove)?)
}

/// These troves by their names. `Exists` exactly where two troves of one name differ, with the text of the first trove that
/// differs from one of its name before it.
pub(crate) fn by_name(alloc: Global, list: &[Trove]) -> Result<ByName, Fault>
    ensures value { IfOk result (AreByName list.now) }
    ensures ordered { IfOk result (IsOrdered (slice_cmp nat_cmp)) }
    ensures once { OnOk result (IsOneOfEach list.now) }
    ensures fault { IfErr result (IsUnupdated list.now) }
{
    let mut troves = BTreeMap::new(alloc);
    for trove in list {
        admit(alloc, &mut troves, trove)?;
    }
    Ok(troves)
}

// The troves of a map, in the order of their names.
fn values_of(alloc: Global, troves: ByName) -> Result<Vec<Trove>, OutOfMemory>
    ensures { IfOk result (λ list. list.items ≡ values troves) }
{
    Ok(troves.into_values().collect(alloc)?)
}

/// The installed list of the troves of a map, each of which stands under its name.
pub(crate) fn in_order(alloc: Global, troves: ByName) -> Result<Installed, OutOfMemory>
    requires ordered { IsOrdered (slice_cmp nat_cmp) troves }
    requires named { AreNamed troves }
    ensures { IfOk result (λ list. list ≡ values troves) }
{
    let list = values_of(alloc, troves)?;
    Ok(Installed::of_rising(list))
}
