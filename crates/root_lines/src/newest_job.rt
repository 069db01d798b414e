//! The newest job of a root, by its record and the contents that it saved.
ghost use Rattle.std.specs.Prelude.{◌≡◌, ◌≤◌, false, All, IfOk, OnOk};
ghost use Rattle.job_targets.specs.Old.{is_staged};
ghost use Rattle.job_targets.specs.declared.entry.Entry as declared;
ghost use Rattle.local_db.specs.Installed.{IsInstalled};
ghost use Rattle.local_db.specs.Stores.{IsDatabase};
ghost use Rattle.local_db.specs.declared.format.Format.TheVariants.{Two};
ghost use Rattle.job_record.specs.Changed.{AreChangedNames};
ghost use Rattle.rollback_stack.specs.Entries as spec;
ghost use Rattle.rollback_stack.specs.Entries.{AreEntries};

use job_targets::{Entries, Entry, old_node};
use local_db::{Db, Format, PathChange};
use past_jobs::PastList;
use rollback_stack::{Job, read_job};
use root_words::Quiet;
use std::alloc::Global;
use system_core::changed_names;
use system_core::cny_base::{Copies, Name, OutOfMemory, Refusal, Stop};
use system_core::trove_stream::Installed;
use update_job::changed;

/// What is pushed of a job: the list before it, the names whose trove it changed, and its entries.
#[derive(Drop)]
pub struct NewestJob {
    pub before: Installed,
    pub names: Vec<Name>,
    pub entries: Entries,
}

// The entry of a change, with what was saved of it.
fn entry_of(
    alloc: Global,
    disk: &mut Quiet,
    number: u32,
    change: &PathChange,
) -> Result<Entry, Stop>
    ensures entry { IfOk result (λ entry. spec.entry_of entry ≡ change.now) }
    ensures given { IfOk result (λ entry. is_staged entry.was ≡ false) }
{
    let was = old_node(alloc, disk, number, change.old_mark())?;
    let path = change.path().copy()?;
    let mark = change.new_mark().copy()?;
    Ok(Entry { path, was, mark })
}

// The entries of the changes, each with what was saved of it.
fn entries_of(
    alloc: Global,
    disk: &mut Quiet,
    number: u32,
    changes: Vec<PathChange>,
) -> Result<Vec<Entry>, Stop>
    ensures entries { IfOk result (λ entries. spec.entries_of entries.items ≡ changes.items) }
    ensures given { IfOk result (λ entries. All (λ (e : declared.Entry). is_staged e.was ≡ false) entries.items) }
{
    let mut entries = Vec::new(alloc);
    for change in changes {
        entries.push(entry_of(alloc, disk, number, &change)?)?;
    }
    Ok(entries)
}

// The names whose trove changed since this list.
fn names_of(alloc: Global, before: &Installed, db: &Db) -> Result<Vec<Name>, OutOfMemory>
    requires before { IsInstalled before.now }
    requires after { IsInstalled db.now.installed }
    ensures { IfOk result (λ names. AreChangedNames before.now db.now.installed names.items) }
{
    let changes = changed(alloc, before, &db.installed)?;
    changed_names(alloc, before, &db.installed, changes.get())
}

/// The newest job, by its record.
pub fn newest_job(alloc: Global, root: &mut Quiet, db: &Db) -> Result<NewestJob, Stop>
    requires { IsDatabase Two db.now.installed db.now.oldest db.now.newest }
    ensures number { OnOk result (1 ≤ db.now.newest) }
    ensures names { IfOk result (λ job. AreChangedNames job.before db.now.installed job.names.items) }
    ensures entries { IfOk result (λ job. AreEntries job.entries) }
{
    if db.newest == 0 {
        return Err(Stop::Refused(Refusal::StackEmpty));
    }
    let mut list = PastList::of(alloc, Format::Two, &db.installed)?;
    let job = read_job(alloc, root, Format::Two, &mut list, db.newest)?;
    let Job { changes, .. } = job;
    let before = list.into_installed()?;
    let names = names_of(alloc, &before, db)?;
    let entries = entries_of(alloc, root, db.newest, changes)?;
    let entries = Entries::new(entries);
    Ok(NewestJob {
        before,
        names,
        entries,
    })
}
