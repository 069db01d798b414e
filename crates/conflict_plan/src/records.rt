//! What two lists of troves record of each path, in an ordered map.
ghost use Rattle.std.specs.Prelude.{◌≡◌, List, ℕ, [], ◌∷◌, None, Some, IfOk, OnOk};
ghost use Rattle.std.specs.BTreeMap.{get};
ghost use Rattle.std.specs.Cmp.Lexicographic.{slice_cmp};
ghost use Rattle.std.specs.Ordering.{nat_cmp};
ghost use Rattle.conflict_plan.specs.Claims.{claims, claims_in};
ghost use Rattle.conflict_plan.specs.Records as spec;
ghost use Rattle.conflict_plan.specs.Records.{noted, noted_all};

use std::alloc::Global;
use std::collections::BTreeMap;
use trove_stream::Trove;
use trove_stream::cny_base::{Copies, Name, OutOfMemory, Path};
use trove_stream::cny_stream::FileRec;
use trove_stream::trove_parts::FileAt;

/// What the new list records of a path.
#[derive(Drop)]
pub struct Shared {
    /// The record of the first trove that has the path.
    pub rec: FileRec,
    /// The name of that trove.
    pub first: Name,
    /// The name of the first later trove with which it can't share the path.
    pub second: Option<Name>,
}

/// What both lists record of a path.
#[derive(Drop)]
pub struct Recorded {
    pub old: Option<FileRec>,
    pub fresh: Option<Shared>,
}

/// One of the two lists.
#[derive(Clone, Copy)]
pub enum Side {
    Old,
    Fresh,
}

/// What the lists record, by the paths.
pub type Records = BTreeMap<Path, Recorded>;

// What the old list records, after one more record.
fn kept(before: Option<FileRec>, rec: &FileRec) -> Result<FileRec, OutOfMemory>
    ensures { IfOk result (λ made. made ≡ spec.kept before rec.now) }
{
    match before {
        Some(first) => Ok(first),
        None => rec.copy(),
    }
}

// What the new list records, after one more record.
fn claimed(before: Option<Shared>, name: &Name, rec: &FileRec) -> Result<Shared, OutOfMemory>
    ensures { IfOk result (λ made. made ≡ spec.shared before name.now rec.now) }
{
    let Some(before) = before else {
        return first_of(name, rec);
    };
    let dirs = before.rec.is_dir() && rec.is_dir();
    if dirs || before.second.is_some() {
        return Ok(before);
    }
    with_second(before, name)
}

fn first_of(name: &Name, rec: &FileRec) -> Result<Shared, OutOfMemory>
    ensures { IfOk result (λ made. made ≡ spec.shared None name.now rec.now) }
{
    let rec = rec.copy()?;
    let first = name.copy()?;
    Ok(Shared {
        rec,
        first,
        second: None,
    })
}

fn with_second(before: Shared, name: &Name) -> Result<Shared, OutOfMemory>
    ensures { IfOk result (λ made. made ≡ record before { second = Some name.now }) }
{
    let Shared { rec, first, .. } = before;
    let second = name.copy()?;
    Ok(Shared {
        rec,
        first,
        second: Some(second),
    })
}

// What both lists record, after one more record of a side.
fn noted(side: Side, before: Recorded, name: &Name, rec: &FileRec) -> Result<Recorded, OutOfMemory>
    ensures { IfOk result (λ made. made ≡ noted side before (name.now, rec.now)) }
{
    let Recorded { old, fresh } = before;
    match side {
        Side::Old => {
            let first = kept(old, rec)?;
            Ok(Recorded {
                old: Some(first),
                fresh,
            })
        }
        Side::Fresh => {
            let all = claimed(fresh, name, rec)?;
            Ok(Recorded {
                old,
                fresh: Some(all),
            })
        }
    }
}

fn or_nothing(before: Option<Recorded>) -> Recorded
    ensures { result ≡ spec.or_nothing before }
{
    before.unwrap_or(Recorded {
        old: None,
        fresh: None,
    })
}

// Notes what a trove of a side records of a path.
fn add_file(
    records: &mut Records,
    side: Side,
    name: &Name,
    file: &FileAt,
) -> Result<(), OutOfMemory>
    ensures { OnOk result ((path : List ℕ) → get (slice_cmp nat_cmp) records.new path
        ≡ noted_all side (claims_in name.now (file.now ∷ []) path) (get (slice_cmp nat_cmp) records.old path)) }
{
    let before = or_nothing(records.remove(&file.path));
    let now = noted(side, before, name, &file.rec)?;
    let path = file.path.copy()?;
    records.insert(path, now)?;
    Ok(())
}

// Notes what a trove of a side records of its paths.
fn add_files(
    records: &mut Records,
    side: Side,
    name: &Name,
    files: &[FileAt],
) -> Result<(), OutOfMemory>
    ensures { OnOk result ((path : List ℕ) → get (slice_cmp nat_cmp) records.new path
        ≡ noted_all side (claims_in name.now files.now path) (get (slice_cmp nat_cmp) records.old path)) }
{
    for file in files {
        add_file(records, side, name, file)?;
    }
    Ok(())
}

// Notes what the troves of a side record.
fn add_troves(records: &mut Records, side: Side, list: &[Trove]) -> Result<(), OutOfMemory>
    ensures { OnOk result ((path : List ℕ) → get (slice_cmp nat_cmp) records.new path
        ≡ noted_all side (claims list.now path) (get (slice_cmp nat_cmp) records.old path)) }
{
    for trove in list {
        add_files(records, side, &trove.id().name, trove.files())?;
    }
    Ok(())
}

/// What the old and the new list record of each path that one of them has.
pub fn records_of(alloc: Global, old: &[Trove], fresh: &[Trove]) -> Result<Records, OutOfMemory>
    ensures { IfOk result (λ records. (path : List ℕ) → get (slice_cmp nat_cmp) records path
        ≡ noted_all Side.Fresh (claims fresh.now path) (noted_all Side.Old (claims old.now path) None)) }
{
    let mut records = BTreeMap::new(alloc);
    add_troves(&mut records, Side::Old, old)?;
    add_troves(&mut records, Side::Fresh, fresh)?;
    Ok(records)
}
