//! What the troves of a list record of each path.
ghost use Rattle.std.specs.Prelude.{◌≡◌, ◌&&◌, None, Option, Some, IfNone, IfOk, IfSome, OnOk, if◌then◌else◌, is_some};
ghost use Rattle.std.specs.BTreeMap.{get};
ghost use Rattle.std.specs.Cmp.Lexicographic.{slice_cmp};
ghost use Rattle.std.specs.Ordering.{nat_cmp};
ghost use Rattle.local_db.specs.tree-disk.Tree as tree;
ghost use Rattle.local_db.specs.Installed.{record_at, first_mark};
ghost use Rattle.tree_scan.specs.declared.mark.Mark as declared;
ghost use Rattle.past_jobs.specs.Table.{IsFirst, IsFirstOf, mark_at, mark_beside, mark_in, recorders_at};

use local_db::cny_base::{Copies, Name, OutOfMemory, Path};
use local_db::mark_of_record;
use local_db::trove_parts::FileAt;
use std::alloc::Global;
use std::collections::BTreeMap;
use tree_scan::Mark;

/// The fingerprint that the trove of a name records.
#[derive(Drop)]
pub(crate) struct Recorder {
    name: Name,
    mark: Mark,
}

/// The fingerprints that troves record at one path: that of one trove, and those of the others by their names. Most paths are those
/// of one trove alone, and a map without entries takes no memory.
#[derive(Drop)]
pub(crate) struct Recorders {
    one: Option<Recorder>,
    others: BTreeMap<Name, Mark>,
}

/// The fingerprints that troves record, by the paths.
pub(crate) type Marks = BTreeMap<Path, Recorders>;

// The fingerprint of the first by name of the others.
fn first_other(others: &BTreeMap<Name, Mark>) -> Option<&Mark>
    ensures some { IfSome result (λ mark. IsFirstOf (get (slice_cmp nat_cmp) others.now) mark.now) }
    ensures none { IfNone result ((name : tree.Name) → get (slice_cmp nat_cmp) others.now name ≡ None) }
{
    match others.first_key_value() {
        Some((_, mark)) => Some(mark),
        None => None,
    }
}

// The fingerprint of the first by name of all, where there is the one.
fn first_beside<'a>(one: &'a Recorder, others: &'a BTreeMap<Name, Mark>) -> &'a Mark
    ensures { IsFirstOf (λ name. mark_beside (Some one.now) (get (slice_cmp nat_cmp) others.now name) name) result.now }
{
    let Some((name, mark)) = others.first_key_value() else {
        return &one.mark;
    };
    if name.cmp(&one.name).is_lt() {
        return mark;
    }
    &one.mark
}

// The fingerprint of the first trove by name.
fn first_in(recorders: &Recorders) -> Option<&Mark>
    ensures some { IfSome result (λ mark. IsFirstOf (mark_in (Some recorders.now)) mark.now) }
    ensures none { IfNone result ((name : tree.Name) → mark_in (Some recorders.now) name ≡ None) }
{
    match &recorders.one {
        Some(one) => Some(first_beside(one, &recorders.others)),
        None => first_other(&recorders.others),
    }
}

// The fingerprint of the first trove by name that records the path.
pub(crate) fn first_of<'a>(marks: &'a Marks, path: &Path) -> Option<&'a Mark>
    ensures some { IfSome result (λ mark. IsFirst marks.now path.now mark.now) }
    ensures none { IfNone result ((name : tree.Name) → mark_at marks.now path.now name ≡ None) }
{
    let recorders = marks.get(path)?;
    first_in(recorders)
}

// Takes away what is recorded at the path.
fn take_recorders(alloc: Global, marks: &mut Marks, path: &Path) -> Recorders
    ensures taken { (name : tree.Name) → mark_in (Some result) name ≡ mark_at marks.old path.now name }
    ensures kept { (p : tree.Name) → recorders_at marks.new p ≡ (if tree.same_name path.now p then None else recorders_at marks.old p) }
{
    match marks.remove(path) {
        Some(recorders) => recorders,
        None => Recorders {
            one: None,
            others: BTreeMap::new(alloc),
        },
    }
}

// These with the fingerprint that the trove of this name records.
fn with_mark(recorders: Recorders, name: &Name, mark: Mark) -> Result<Recorders, OutOfMemory>
    ensures { IfOk result (λ more. (n : tree.Name) → mark_in (Some more) n
        ≡ (if tree.same_name name.now n then Some mark else mark_in (Some recorders) n)) }
{
    let Recorders { one, mut others } = recorders;
    let Some(first) = one else {
        let name = name.copy()?;
        return Ok(Recorders {
            one: Some(Recorder { name, mark }),
            others,
        });
    };
    let Recorder {
        name: own,
        mark: of_own,
    } = first;
    if own == *name {
        return Ok(Recorders {
            one: Some(Recorder { name: own, mark }),
            others,
        });
    }
    others.insert(name.copy()?, mark)?;
    Ok(Recorders {
        one: Some(Recorder {
            name: own,
            mark: of_own,
        }),
        others,
    })
}

// Adds the fingerprint that the trove of this name records at the path.
fn add_mark(
    alloc: Global,
    marks: &mut Marks,
    path: &Path,
    name: &Name,
    mark: Mark,
) -> Result<(), OutOfMemory>
    ensures { OnOk result ((p n : tree.Name) → mark_at marks.new p n
        ≡ (if tree.same_name path.now p && tree.same_name name.now n then Some mark else mark_at marks.old p n)) }
{
    let recorders = take_recorders(alloc, marks, path);
    let more = with_mark(recorders, name, mark)?;
    marks.insert(path.copy()?, more)?;
    Ok(())
}

// The one, where it isn't of this name.
fn one_but(one: Option<Recorder>, name: &Name) -> Option<Recorder>
    ensures { (n : tree.Name) (other : Option declared.Mark)
        → mark_beside result (if tree.same_name name.now n then None else other) n
        ≡ (if tree.same_name name.now n then None else mark_beside one other n) }
{
    let Some(first) = one else {
        return None;
    };
    if first.name == *name {
        return None;
    }
    Some(first)
}

// These without what the trove of this name records.
fn without_mark(recorders: Recorders, name: &Name) -> Recorders
    ensures { (n : tree.Name) → mark_in (Some result) n
        ≡ (if tree.same_name name.now n then None else mark_in (Some recorders) n) }
{
    let Recorders { one, mut others } = recorders;
    others.remove(name);
    let one = one_but(one, name);
    Recorders { one, others }
}

// Takes away the fingerprint that the trove of this name records at the path.
fn remove_mark(
    alloc: Global,
    marks: &mut Marks,
    path: &Path,
    name: &Name,
) -> Result<(), OutOfMemory>
    ensures { OnOk result ((p n : tree.Name) → mark_at marks.new p n
        ≡ (if tree.same_name path.now p && tree.same_name name.now n then None else mark_at marks.old p n)) }
{
    let recorders = take_recorders(alloc, marks, path);
    let fewer = without_mark(recorders, name);
    marks.insert(path.copy()?, fewer)?;
    Ok(())
}

/// Adds what the trove of this name records.
pub(crate) fn add_files(
    alloc: Global,
    marks: &mut Marks,
    name: &Name,
    files: &[FileAt],
) -> Result<(), OutOfMemory>
    ensures { OnOk result ((p n : tree.Name) → mark_at marks.new p n
        ≡ (if tree.same_name name.now n then first_mark (record_at files.now p) (mark_at marks.old p n) else mark_at marks.old p n)) }
{
    // From the last on, so that a file outweighs those behind it.
    for behind in 0..files.len() {
        let file = &files[files.len() - 1 - behind];
        let mark = mark_of_record(&file.rec)?;
        add_mark(alloc, marks, &file.path, name, mark)?;
    }
    Ok(())
}

/// Takes away what the trove of this name records.
pub(crate) fn remove_files(
    alloc: Global,
    marks: &mut Marks,
    name: &Name,
    files: &[FileAt],
) -> Result<(), OutOfMemory>
    ensures { OnOk result ((p n : tree.Name) → mark_at marks.new p n
        ≡ (if tree.same_name name.now n && is_some (record_at files.now p) then None else mark_at marks.old p n)) }
{
    for behind in 0..files.len() {
        let file = &files[files.len() - 1 - behind];
        remove_mark(alloc, marks, &file.path, name)?;
    }
    Ok(())
}
