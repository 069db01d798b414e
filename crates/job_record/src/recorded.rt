//! What a list of troves records at the paths that a job changed.
ghost use Rattle.std.specs.Prelude.{◌≡◌, [], ◌∷◌, true, IfOk, OnOk};
ghost use Rattle.std.specs.List.Sorted.{IsStrictlySortedBy};
ghost use Rattle.local_db.specs.Record.{entry_cmp};
ghost use Rattle.job_record.specs.Recorded.{AreMarks, HasNoted, HasNotedAll, IsEntryPath};

use local_db::cny_base::{Copies, OutOfMemory, Path};
use local_db::trove_parts::FileAt;
use local_db::trove_stream::Trove;
use local_db::{PathChange, mark_of_record};
use std::alloc::Global;
use std::collections::BTreeMap;
use tree_scan::Mark;

/// Fingerprints by their paths.
pub(crate) type Marks = BTreeMap<Path, Mark>;

// Whether a change is at the path.
fn has_change(changes: &[PathChange], path: &Path) -> bool
    requires { IsStrictlySortedBy entry_cmp changes.now }
    ensures { IsEntryPath changes.now path.now → result ≡ true }
{
    match changes.binary_search_by(|change| change.path().cmp(path)) {
        Ok(_) => true,
        Err(_) => false,
    }
}

// Notes what the file records, where a change is at its path and nothing was noted there.
fn note_file(marks: &mut Marks, changes: &[PathChange], file: &FileAt) -> Result<(), OutOfMemory>
    requires { IsStrictlySortedBy entry_cmp changes.now }
    ensures { OnOk result (HasNoted changes.now (file.now ∷ []) marks.old marks.new) }
{
    if !has_change(changes, &file.path) {
        return Ok(());
    }
    if marks.contains_key(&file.path) {
        return Ok(());
    }
    let path = file.path.copy()?;
    let mark = mark_of_record(&file.rec)?;
    marks.insert(path, mark)?;
    Ok(())
}

fn note_files(
    marks: &mut Marks,
    changes: &[PathChange],
    files: &[FileAt],
) -> Result<(), OutOfMemory>
    requires { IsStrictlySortedBy entry_cmp changes.now }
    ensures { OnOk result (HasNoted changes.now files.now marks.old marks.new) }
{
    for file in files {
        note_file(marks, changes, file)?;
    }
    Ok(())
}

fn note_troves(marks: &mut Marks, changes: &[PathChange], list: &[Trove]) -> Result<(), OutOfMemory>
    requires { IsStrictlySortedBy entry_cmp changes.now }
    ensures { OnOk result (HasNotedAll changes.now list.now marks.old marks.new) }
{
    for trove in list {
        note_files(marks, changes, trove.files())?;
    }
    Ok(())
}

/// The fingerprints that the list records at the paths of the changes, which rise: each is that of the first trove by name which
/// records the path. It makes one pass over what the list records.
pub(crate) fn recorded(
    alloc: Global,
    list: &[Trove],
    changes: &[PathChange],
) -> Result<Marks, OutOfMemory>
    requires { IsStrictlySortedBy entry_cmp changes.now }
    ensures { IfOk result (AreMarks changes.now list.now) }
{
    let mut marks = BTreeMap::new(alloc);
    note_troves(&mut marks, changes, list)?;
    Ok(marks)
}
