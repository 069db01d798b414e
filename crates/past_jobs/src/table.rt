//! Troves by their names, with what they record of each path and the length of their database.
ghost use Rattle.std.specs.Prelude.{◌≡◌, ◌↔◌, [], None, Some, All, IfOk, OnOk, IsTrue, if◌then◌else◌};
ghost use Rattle.std.specs.Option.{option_copied};
ghost use Rattle.local_db.specs.tree-disk.Tree as tree;
ghost use Rattle.local_db.specs.trove-stream.Trove.{IsTrove};
ghost use Rattle.local_db.specs.trove-stream.Installed.{IsRising};
ghost use Rattle.local_db.specs.Installed.{recorded, IsInstalled, SharesDirsAlone};
ghost use Rattle.past_jobs.specs.Table as spec;
ghost use Rattle.past_jobs.specs.Table.{IsIndexed, trove_at, troves_of};

use crate::past_marks::{Marks, add_files, first_of, remove_files};
use crate::turning::item_len;
use local_db::Format;
use local_db::cny_base::{Copies, Name, OutOfMemory, Path};
use local_db::trove_parts::FileAt;
use local_db::trove_stream::Trove;
use std::alloc::Global;
use std::collections::BTreeMap;
use tree_scan::Mark;

/// How many bytes a database has beside the items of its troves.
const REST: usize = 26;

/// Troves by their names, the fingerprints that they record, and how many bytes their database has in a format.
#[derive(Drop)]
pub(crate) struct Table {
    pub(crate) troves: BTreeMap<Name, Trove>,
    pub(crate) marks: Marks,
    pub(crate) len: usize,
}

/// The table of no troves.
pub(crate) fn empty_table(alloc: Global, format: Format) -> Table
    ensures indexed { IsIndexed format result.troves result.marks result.len }
    ensures empty { troves_of result.troves ≡ [] }
{
    let _ = format;
    Table {
        troves: BTreeMap::new(alloc),
        marks: BTreeMap::new(alloc),
        len: REST,
    }
}

/// The fingerprint that the first trove by name records at the path.
pub(crate) fn recorded_in<'a>(format: Format, table: &'a Table, path: &Path) -> Option<&'a Mark>
    requires { IsIndexed format table.now.troves table.now.marks table.now.len }
    ensures { option_copied result ≡ recorded (troves_of table.now.troves) path.now }
{
    let _ = format;
    first_of(&table.marks, path)
}

// Whether the file may be there with what the troves record.
fn may_stand(format: Format, table: &Table, file: &FileAt) -> bool
    requires { IsIndexed format table.now.troves table.now.marks table.now.len }
    ensures { result ≡ spec.may_stand (recorded (troves_of table.now.troves) file.now.path) file.now.rec }
{
    match recorded_in(format, table, &file.path) {
        Some(mark) => file.rec.is_dir() && mark.is_dir(),
        None => true,
    }
}

/// Whether the trove records no path with one of the troves, but as a directory.
pub(crate) fn may_join(format: Format, table: &Table, trove: &Trove) -> bool
    requires indexed { IsIndexed format table.now.troves table.now.marks table.now.len }
    requires installed { IsInstalled (troves_of table.now.troves) }
    ensures { IsTrue result ↔ All (SharesDirsAlone trove.now) (troves_of table.now.troves) }
{
    for file in trove.files() {
        if !may_stand(format, table, file) {
            return false;
        }
    }
    true
}

/// Adds a copy of the trove, where none of its name is.
pub(crate) fn put_trove(
    alloc: Global,
    format: Format,
    table: &mut Table,
    trove: &Trove,
) -> Result<(), OutOfMemory>
    requires indexed { IsIndexed format table.old.troves table.old.marks table.old.len }
    requires absent { trove_at table.old.troves trove.now.id.name ≡ None }
    ensures indexed { OnOk result (IsIndexed format table.new.troves table.new.marks table.new.len) }
    ensures troves { OnOk result ((name : tree.Name) → trove_at table.new.troves name
        ≡ (if tree.same_name trove.now.id.name name then Some trove.now else trove_at table.old.troves name)) }
    ensures trove { OnOk result (IsTrove trove.now) }
{
    let by = item_len(alloc, format, trove)?;
    let Some(len) = table.len.checked_add(by) else {
        return Err(OutOfMemory);
    };
    add_files(alloc, &mut table.marks, &trove.id().name, trove.files())?;
    table.troves.insert(trove.id().name.copy()?, trove.copy()?)?;
    table.len = len;
    Ok(())
}

/// Takes the trove of this name away, if there is one.
pub(crate) fn take_trove(
    alloc: Global,
    format: Format,
    table: &mut Table,
    name: &Name,
) -> Result<Option<Trove>, OutOfMemory>
    requires { IsIndexed format table.old.troves table.old.marks table.old.len }
    ensures value { IfOk result (λ taken. taken ≡ trove_at table.old.troves name.now) }
    ensures indexed { OnOk result (IsIndexed format table.new.troves table.new.marks table.new.len) }
    ensures troves { OnOk result ((n : tree.Name) → trove_at table.new.troves n
        ≡ (if tree.same_name name.now n then None else trove_at table.old.troves n)) }
{
    let Some(trove) = table.troves.remove(name) else {
        return Ok(None);
    };
    remove_files(alloc, &mut table.marks, name, trove.files())?;
    table.len -= item_len(alloc, format, &trove)?;
    Ok(Some(trove))
}

/// Adds copies of the troves, none of whose names is there.
pub(crate) fn put_troves(
    alloc: Global,
    format: Format,
    table: &mut Table,
    troves: &[Trove],
) -> Result<(), OutOfMemory>
    requires indexed { IsIndexed format table.old.troves table.old.marks table.old.len }
    requires empty { troves_of table.old.troves ≡ [] }
    requires rising { IsRising troves.now }
    ensures indexed { OnOk result (IsIndexed format table.new.troves table.new.marks table.new.len) }
    ensures troves { OnOk result (troves_of table.new.troves ≡ troves.now) }
{
    for trove in troves {
        put_trove(alloc, format, table, trove)?;
    }
    Ok(())
}
