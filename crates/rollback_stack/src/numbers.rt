//! The numbers of jobs.
ghost use Rattle.std.specs.Prelude.{◌≡◌, ◌≢◌, ◌+◌, IfErr, IfOk, OnOk};
ghost use Rattle.job_targets.specs.cny-base.declared.limits.TheConstants.{JOBS_LIMIT};
ghost use Rattle.rollback_stack.specs.Numbers.{IsFull};

use job_targets::cny_base::{Fault, JOBS_LIMIT, Refusal, What};
use local_db::Db;

/// The number of the next job: one more than that of the newest, and 1 on an empty stack. `TooLarge` with the greatest number,
/// 4,294,967,295, exactly where the newest job has that. It takes no memory, so `Memory` never comes.
pub fn next_number(db: &Db) -> Result<u32, Fault>
    ensures value { IfOk result (λ number. number ≡ db.now.newest + 1) }
    ensures room { OnOk result (db.now.newest ≢ JOBS_LIMIT) }
    ensures full { IfErr result (IsFull db.now.newest) }
{
    if db.newest == JOBS_LIMIT {
        return Err(Fault::Refused(Refusal::TooLarge {
            what: What::Jobs,
            size: u64::from(JOBS_LIMIT),
        }));
    }
    Ok(db.newest + 1)
}
