//! A list that is taken back by the deltas of a record.
ghost use Rattle.std.specs.Prelude.{◌≡◌, ◌↔◌, ◌++◌, List, Option, None, Some, All, Contains, map, option_to_list, IfOk, OnOk, IsErrOf, IsTrue, if◌then◌else◌};
ghost use Rattle.std.specs.List.Sorted.{IsStrictlySortedBy};
ghost use Rattle.std.specs.Option.{option_copied};
ghost use Rattle.local_db.specs.tree-disk.Tree as tree;
ghost use Rattle.local_db.specs.trove-stream.Forbidden.{first_forbidden};
ghost use Rattle.local_db.specs.trove-stream.declared.parts.TroveParts.{TroveParts};
ghost use Rattle.local_db.specs.trove-stream.Installed.{IsRising, trove_of};
ghost use Rattle.local_db.specs.Formats.{TroveCanTell};
ghost use Rattle.local_db.specs.Record.{TakesBack, TakesBackAt};
ghost use Rattle.local_db.specs.declared.format.Format.TheVariants.{One};
ghost use Rattle.local_db.specs.RecordText as text;
ghost use Rattle.local_db.specs.RecordText.{delta_of};
ghost use Rattle.past_jobs.specs.Table.{AreMade, IsIndexed, IsSound, MayJoin, has_delta, id_of, ids_at, or_else, trove_at, troves_of};

use crate::table::{Table, may_join, put_trove, take_trove};
use crate::turning::before_of;
use local_db::cny_base::{Copies, Name, OutOfMemory, TextFault};
use local_db::cny_stream::FileRec;
use local_db::trove_parts::TroveId;
use local_db::trove_stream::{Trove, check};
use local_db::{Delta, Format, are_roots};
use std::alloc::Global;

/// What deltas take back: the troves before the job, and the ids of those after it.
#[derive(Drop)]
pub(crate) struct Taken {
    pub(crate) made: Vec<Trove>,
    pub(crate) after: Vec<TroveId>,
}

// The name whose trove a delta takes back.
fn name_of(delta: &Delta) -> &Name
    ensures { result.now ≡ text.name_of delta.now }
{
    match delta {
        Delta::Came(id) => &id.name,
        Delta::Was(trove) => &trove.id().name,
        Delta::Turned(rel) => &rel.parts().old.name,
    }
}

fn push_id(ids: &mut Vec<TroveId>, trove: Option<&Trove>) -> Result<(), OutOfMemory>
    ensures { OnOk result (ids.new.items ≡ ids.old.items ++ id_of (option_copied trove.entry)) }
{
    let Some(trove) = trove else {
        return Ok(());
    };
    ids.push(trove.id().copy()?)?;
    Ok(())
}

fn can_tell(format: Format, trove: &Trove) -> bool
    ensures { IsTrue result ↔ TroveCanTell format trove.now }
{
    match format {
        Format::One => are_roots(trove.files()),
        Format::Two => true,
    }
}

fn is_allowed(alloc: Global, trove: &Trove) -> bool
    ensures { IsTrue result ↔ (first_forbidden trove.now.files ≡ None) }
{
    check(alloc, trove).is_ok()
}

// Takes away the trove of the delta's name, notes its id, and what the delta makes of it.
fn take_one(
    alloc: Global,
    format: Format,
    table: &mut Table,
    delta: &Delta,
    taken: &mut Taken,
) -> Result<(), TextFault>
    requires { IsIndexed format table.old.troves table.old.marks table.old.len }
    ensures indexed { OnOk result (IsIndexed format table.new.troves table.new.marks table.new.len) }
    ensures troves { OnOk result ((name : tree.Name) → trove_at table.new.troves name
        ≡ (if tree.same_name (text.name_of delta.now) name then None else trove_at table.old.troves name)) }
    ensures made { OnOk result ((made : Option TroveParts) × (taken.new.made.items ≡ taken.old.made.items ++ option_to_list made)
        × TakesBackAt (Some (delta_of delta.now)) (trove_at table.old.troves (text.name_of delta.now)) made) }
    ensures after { OnOk result (taken.new.after.items ≡ taken.old.after.items ++ id_of (trove_at table.old.troves (text.name_of delta.now))) }
    ensures bad { IsErrOf result TextFault.Bad → (before : Option TroveParts)
        → TakesBackAt (Some (delta_of delta.now)) (trove_at table.old.troves (text.name_of delta.now)) before → ⊥ }
{
    let after = take_trove(alloc, format, table, name_of(delta))?;
    let before = before_of(alloc, delta, after.as_ref())?;
    push_id(&mut taken.after, after.as_ref())?;
    if let Some(trove) = before {
        taken.made.push(trove)?;
    }
    Ok(())
}

/// Takes away the trove of each delta's name, and makes of them the troves before the job.
pub(crate) fn take_all(
    alloc: Global,
    format: Format,
    table: &mut Table,
    deltas: &[Delta],
) -> Result<Taken, TextFault>
    requires indexed { IsIndexed format table.old.troves table.old.marks table.old.len }
    requires rising { IsStrictlySortedBy text.by_name deltas.now }
    ensures indexed { OnOk result (IsIndexed format table.new.troves table.new.marks table.new.len) }
    ensures troves { OnOk result ((name : tree.Name) → trove_at table.new.troves name
        ≡ (if has_delta deltas.now name then None else trove_at table.old.troves name)) }
    ensures made { IfOk result (λ taken. AreMade (troves_of table.old.troves) deltas.now taken.made.items) }
    ensures after { IfOk result (λ taken. taken.after.items ≡ ids_at (troves_of table.old.troves) deltas.now) }
    ensures bad { IsErrOf result TextFault.Bad → (before : List TroveParts)
        → TakesBack (map delta_of deltas.now) (troves_of table.old.troves) before → ⊥ }
{
    let mut taken = Taken {
        made: Vec::new(alloc),
        after: Vec::new(alloc),
    };
    for delta in deltas {
        take_one(alloc, format, table, delta, &mut taken)?;
    }
    Ok(taken)
}

// Adds a trove where the list may have it.
fn add_one(alloc: Global, format: Format, table: &mut Table, trove: &Trove) -> Result<(), TextFault>
    requires indexed { IsIndexed format table.old.troves table.old.marks table.old.len }
    requires sound { IsSound format (troves_of table.old.troves) }
    requires absent { trove_at table.old.troves trove.now.id.name ≡ None }
    ensures indexed { OnOk result (IsIndexed format table.new.troves table.new.marks table.new.len) }
    ensures sound { OnOk result (IsSound format (troves_of table.new.troves)) }
    ensures troves { OnOk result ((name : tree.Name) → trove_at table.new.troves name
        ≡ (if tree.same_name trove.now.id.name name then Some trove.now else trove_at table.old.troves name)) }
    ensures bad { IsErrOf result TextFault.Bad → MayJoin format (troves_of table.old.troves) trove.now → ⊥ }
{
    if !is_allowed(alloc, trove) {
        return Err(TextFault::Bad);
    }
    if !can_tell(format, trove) {
        return Err(TextFault::Bad);
    }
    if !may_join(format, table, trove) {
        return Err(TextFault::Bad);
    }
    put_trove(alloc, format, table, trove)?;
    Ok(())
}

/// Adds the troves where the list may have them all.
pub(crate) fn add_all(
    alloc: Global,
    format: Format,
    table: &mut Table,
    troves: &[Trove],
) -> Result<(), TextFault>
    requires indexed { IsIndexed format table.old.troves table.old.marks table.old.len }
    requires sound { IsSound format (troves_of table.old.troves) }
    requires rising { IsRising troves.now }
    requires absent { All (λ t. trove_at table.old.troves t.id.name ≡ None) troves.now }
    ensures indexed { OnOk result (IsIndexed format table.new.troves table.new.marks table.new.len) }
    ensures sound { OnOk result (IsSound format (troves_of table.new.troves)) }
    ensures troves { OnOk result ((name : tree.Name) → trove_at table.new.troves name
        ≡ or_else (trove_of name troves.now) (trove_at table.old.troves name)) }
    ensures bad { IsErrOf result TextFault.Bad → (whole : List TroveParts) → IsSound format whole
        → All (Contains whole) troves.now → All (Contains whole) (troves_of table.old.troves) → ⊥ }
{
    for trove in troves {
        add_one(alloc, format, table, trove)?;
    }
    Ok(())
}
