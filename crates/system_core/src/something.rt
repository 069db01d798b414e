//! Entries at whose path something stands before or after the job.
ghost use Rattle.std.specs.Prelude.{◌≡◌, true, IfErr, OnOk, All};
ghost use Rattle.rollback_stack.specs.Entries.{entries_of};
ghost use Rattle.rollback_stack.specs.change-set.Contents.{IfRefused};
ghost use Rattle.system_core.specs.JobWriting.{StandsBeforeOrAfter};
ghost use Rattle.system_core.specs.Something.{is_something, IsNothing, LacksSomething};

use job_targets::Entry;
use rollback_stack::cny_base::{Fault, Refusal, Text};
use rollback_stack::journal_log::Want;
use std::alloc::Global;

// Whether something stands at the path before the job or after it.
fn is_something(entry: &Entry) -> bool
    ensures { result ≡ is_something entry.now }
{
    match entry.was {
        Want::Nothing => !entry.mark.is_nothing(),
        _ => true,
    }
}

// `Edited` where nothing stands at the path that is to go.
fn check_entry(alloc: Global, entry: &Entry) -> Result<(), Fault>
    ensures something { OnOk result (is_something entry.now ≡ true) }
    ensures refused { IfErr result (IfRefused (IsNothing entry.now)) }
{
    if is_something(entry) {
        return Ok(());
    }
    let path = Text::new(alloc, entry.path.text())?;
    Err(Fault::Refused(Refusal::Edited { path }))
}

/// `Edited` for the first path at which nothing stands that is to go. (Of a disk that tells its tree no plan has such a path; of
/// another one it is a path that was taken away since the plan was made.)
pub(crate) fn check_something(alloc: Global, entries: &[Entry]) -> Result<(), Fault>
    ensures something { OnOk result (All StandsBeforeOrAfter (entries_of entries.now)) }
    ensures refused { IfErr result (IfRefused (LacksSomething entries.now)) }
{
    for entry in entries {
        check_entry(alloc, entry)?;
    }
    Ok(())
}
