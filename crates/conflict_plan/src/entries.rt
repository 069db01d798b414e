//! The paths that the lists record, in their order.
ghost use Rattle.std.specs.Prelude.{◌≡◌, All, IfOk, IfErr, IsTrue, OnOk, None, map};
ghost use Rattle.std.specs.BTreeMap.{IsOrdered};
ghost use Rattle.std.specs.Cmp.Lexicographic.{slice_cmp};
ghost use Rattle.std.specs.Ordering.{nat_cmp};
ghost use Rattle.trove_stream.specs.cny-base.Path.{is_path};
ghost use Rattle.trove_stream.specs.cny-base.declared.refusal.Refusal.TheVariants as refusal;
ghost use Rattle.conflict_plan.specs.Entries as spec;
ghost use Rattle.conflict_plan.specs.Entries.{first_shared, IsOwnedOrMemory, IsFirstOwnedOrMemory};
ghost use Rattle.conflict_plan.specs.Records.{record_of, second_of};

use crate::records::{Recorded, Records, Shared};
use std::alloc::Global;
use trove_stream::cny_base::{Fault, Name, OutOfMemory, Path, Refusal, Text};
use trove_stream::cny_stream::FileRec;

/// A path, with what both lists record of it.
pub struct Entry {
    pub path: Path,
    pub old: Option<FileRec>,
    pub fresh: Option<FileRec>,
}

// Written by hand, so that to let a value go is a single call wherever a function ends early.
impl Drop for Entry {
    fn drop(self) {
        let Entry {
            path: _path,
            old: _old,
            fresh: _fresh,
        } = self;
    }
}

impl Entry {
    /// The path, and what the old and the new list record of it.
    pub(crate) fn into_parts(self) -> (Path, Option<FileRec>, Option<FileRec>)
        ensures { result ≡ (self.path, self.old, self.fresh) }
    {
        let Entry { path, old, fresh } = self;
        (path, old, fresh)
    }
}

// The refusal of a path that these two troves have.
fn owned(alloc: Global, path: &Path, first: &Name, second: &Name) -> Result<Refusal, OutOfMemory>
    ensures { IfOk result (λ made. made ≡ refusal.Owned path.now first.now second.now) }
{
    let path = Text::new(alloc, path.text())?;
    let first = Text::new(alloc, first.text())?;
    let second = Text::new(alloc, second.text())?;
    Ok(Refusal::Owned {
        path,
        first,
        second,
    })
}

// The record of a path in the new list. `Owned` exactly where two troves can't share the path.
fn unshared(alloc: Global, path: &Path, fresh: Option<Shared>) -> Result<Option<FileRec>, Fault>
    ensures record_ { IfOk result (λ rec. rec ≡ record_of fresh) }
    ensures none { OnOk result (second_of fresh ≡ None) }
    ensures refused { IfErr result (IsOwnedOrMemory path.now fresh) }
{
    let Some(shared) = fresh else {
        return Ok(None);
    };
    let Shared { rec, first, second } = shared;
    match second {
        None => Ok(Some(rec)),
        Some(second) => Err(Fault::Refused(owned(alloc, path, &first, &second)?)),
    }
}

// The entry of a path.
fn entry_of(alloc: Global, path: Path, recorded: Recorded) -> Result<Entry, Fault>
    ensures entry { IfOk result (λ entry. entry ≡ spec.entry_of (path, recorded)) }
    ensures path { OnOk result (IsTrue (is_path path)) }
    ensures none { OnOk result (second_of recorded.fresh ≡ None) }
    ensures refused { IfErr result (IsOwnedOrMemory path recorded.fresh) }
{
    let _text = path.text();
    let Recorded { old, fresh } = recorded;
    let fresh = unshared(alloc, &path, fresh)?;
    Ok(Entry { path, old, fresh })
}

/// The paths in their order, each with what both lists record of it. `Owned` exactly where two troves of the new list can't
/// share a path, with the first such path.
pub fn entries_of(alloc: Global, records: Records) -> Result<Vec<Entry>, Fault>
    ensures entries { IfOk result (λ entries. entries.items ≡ map spec.entry_of records.entries) }
    ensures paths { IfOk result (λ entries. All (λ e. IsTrue (is_path e.path)) entries.items) }
    ensures none { OnOk result (first_shared records.entries ≡ None) }
    ensures ordered { IsOrdered (slice_cmp nat_cmp) records }
    ensures refused { IfErr result (IsFirstOwnedOrMemory records.entries) }
{
    let mut entries = Vec::new(alloc);
    for (path, recorded) in records {
        let entry = entry_of(alloc, path, recorded)?;
        entries.push(entry)?;
    }
    Ok(entries)
}
