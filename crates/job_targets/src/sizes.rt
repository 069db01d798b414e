//! Whether the files that a job replaces can be saved.
ghost use Rattle.std.specs.Prelude.{◌≡◌, IfErr, None, OnOk};
ghost use Rattle.job_targets.specs.Outcome.{IsLargeFault};
ghost use Rattle.job_targets.specs.Targets as spec;
ghost use Rattle.job_targets.specs.Targets.{first_large};

use conflict_plan::Planned;
use local_db::cny_base::{CONTENT_LIMIT, Fault, Refusal, What};
use tree_scan::Mark;

// The size of a file above the limit.
fn large_size(mark: &Mark) -> Option<u64>
    ensures { result ≡ spec.large_size mark.now }
{
    match mark {
        Mark::File { size, .. } => {
            if *size > u64::from(CONTENT_LIMIT) {
                Some(*size)
            } else {
                None
            }
        }
        Mark::Nothing => None,
        Mark::Dir { .. } => None,
        Mark::Link { .. } => None,
    }
}

/// Whether no file above the limit stands at a planned path: `TooLarge` with the size of the first such file. It needs no look at
/// the disk: the fingerprints have the sizes.
pub(crate) fn check_sizes(planned: &[Planned]) -> Result<(), Fault>
    ensures small { OnOk result (first_large planned.now ≡ None) }
    ensures large { IfErr result (IsLargeFault (first_large planned.now)) }
{
    for one in planned {
        if let Some(size) = large_size(&one.was) {
            return Err(Fault::Refused(Refusal::TooLarge {
                what: What::Local,
                size,
            }));
        }
    }
    Ok(())
}
