//! The last tests of a job, and the database after it.
ghost use Rattle.std.specs.Prelude.{◌≡◌, ◌≢◌, IfErr, IfOk, OnOk};
ghost use Rattle.rollback_stack.specs.cny-base.declared.limits.TheConstants.{JOBS_LIMIT};
ghost use Rattle.local_db.specs.declared.format.Format.TheVariants.{Two};
ghost use Rattle.local_db.specs.Formats.{database_bytes, Fits};
ghost use Rattle.system_core.specs.Last as spec;
ghost use Rattle.system_core.specs.Last.{IsLastOrMemory};

use local_db::{Db, distinct_databases, encode};
use rollback_stack::cny_base::{Bytes, Fault, STACK_LIMIT};
use rollback_stack::next_number;
use rollback_stack::trove_stream::Installed;
use std::alloc::Global;

// The greatest difference between the numbers of two jobs of a stack.
const SPAN: u32 = (STACK_LIMIT - 1) as u32;

/// The database with this list after one more job. Where the stack had as many jobs as it has room for, the oldest one is dropped.
pub(crate) fn db_after(db: &Db, installed: Installed) -> Db
    ensures { result ≡ spec.db_after db.now installed }
{
    let newest = db.newest.saturating_add(1);
    let oldest = db.oldest.max(newest.saturating_sub(SPAN)).max(1);
    Db {
        installed,
        oldest,
        newest,
    }
}

/// The bytes of the database after a job, in format 2. `TooLarge` where they are more than a database has at most, else where the
/// newest job before it has the greatest number.
pub(crate) fn database_of(alloc: Global, db: &Db, after: &Db) -> Result<Bytes, Fault>
    ensures value { IfOk result (λ bytes. bytes ≡ database_bytes Two after.now.installed after.now.oldest after.now.newest) }
    ensures fits { OnOk result (Fits Two after.now.installed) }
    ensures room { OnOk result (db.now.newest ≢ JOBS_LIMIT) }
    ensures refused { IfErr result (IsLastOrMemory db.now.newest after.now.installed) }
{
    // The numbers don't change the size.
    distinct_databases();
    let bytes = encode(alloc, after)?;
    next_number(db)?;
    Ok(bytes)
}
