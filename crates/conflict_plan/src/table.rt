//! What becomes of a path: the first row of the conflict table that applies.
ghost use Rattle.std.specs.Prelude.{◌≡◌};
ghost use Rattle.conflict_plan.specs.Table as spec;
ghost use Rattle.conflict_plan.specs.Table.{recorded_outcome, unrecorded_outcome, path_outcome};

use tree_scan::{Mark, are_same_marks};
use trove_stream::cny_base::{Options, Path};
use trove_stream::cny_stream::FileRec;

/// What becomes of a path.
#[derive(Clone, Copy)]
pub enum Outcome {
    /// There is nothing to do.
    Stays,
    /// What stands there is to go.
    Removed,
    /// What the new list records is to stand there.
    Written,
    /// The job is refused: what stands there belongs to no trove.
    Unowned,
    /// The job is refused: what stands there was changed, or is gone.
    Edited,
}

// What becomes of a path that the new list doesn't record, and where something stands.
fn unrecorded_outcome(old: &FileRec, was: &Mark, remains: bool, options: &Options) -> Outcome
    ensures { result ≡ unrecorded_outcome old.now was.now remains options.now }
{
    let flags = old.flags();
    let recorded_dir = old.is_dir();
    let dir = was.is_dir();
    let unchanged = was.is_of(old);
    if recorded_dir && dir {
        return if remains {
            Outcome::Stays
        } else {
            Outcome::Removed
        };
    }
    if unchanged || flags.transient || options.replace {
        return Outcome::Removed;
    }
    if flags.initial {
        return Outcome::Stays;
    }
    Outcome::Edited
}

// What becomes of a path that only the new list records.
fn new_outcome(was: &Mark, options: &Options) -> Outcome
    ensures { result ≡ spec.new_outcome was.now options.now }
{
    if was.is_nothing() || options.replace {
        return Outcome::Written;
    }
    Outcome::Unowned
}

// What becomes of a path that both lists record, and where something else stands than the new one records.
fn changed_outcome(old: &FileRec, fresh: &FileRec, was: &Mark, options: &Options) -> Outcome
    ensures { result ≡ spec.changed_outcome old.now fresh.now was.now options.now }
{
    let flags = fresh.flags();
    if was.is_of(old) || flags.transient {
        return Outcome::Written;
    }
    if flags.config && options.keep {
        return Outcome::Stays;
    }
    if options.replace {
        return Outcome::Written;
    }
    Outcome::Edited
}

// Whether the old list has a record with the same fingerprint.
fn is_recorded_so(old: &Option<FileRec>, fresh: &FileRec) -> bool
    ensures { result ≡ spec.is_recorded_so old.now fresh.now }
{
    match old {
        Some(old) => are_same_marks(old, fresh),
        None => false,
    }
}

// What becomes of a path that the new list records.
fn recorded_outcome(
    old: &Option<FileRec>,
    fresh: &FileRec,
    was: &Mark,
    options: &Options,
) -> Outcome
    ensures { result ≡ recorded_outcome old.now fresh.now was.now options.now }
{
    let recorded_dir = fresh.is_dir();
    let dir = was.is_dir();
    let unchanged = is_recorded_so(old, fresh);
    let flags = fresh.flags();
    let file = was.is_file();
    let same = was.is_of(fresh);
    if (recorded_dir && dir) || unchanged || (flags.initial && file) || same {
        return Outcome::Stays;
    }
    match old {
        None => new_outcome(was, options),
        Some(old) => changed_outcome(old, fresh, was, options),
    }
}

/// What becomes of a path: the first row of the conflict table that applies, by what the old list records there, what the new
/// one does, the fingerprint of what stands, whether a name directly below remains, and the options of the job.
pub fn outcome_of(
    path: &Path,
    old: &Option<FileRec>,
    fresh: &Option<FileRec>,
    was: &Mark,
    remains: bool,
    options: &Options,
) -> Outcome
    ensures { result ≡ path_outcome path.now old.now fresh.now was.now remains options.now }
{
    if path.is_pinned() {
        return Outcome::Stays;
    }
    if let Some(fresh) = fresh {
        return recorded_outcome(old, fresh, was, options);
    }
    match old {
        None => Outcome::Stays,
        Some(_) if was.is_nothing() => Outcome::Stays,
        Some(old) => unrecorded_outcome(old, was, remains, options),
    }
}
