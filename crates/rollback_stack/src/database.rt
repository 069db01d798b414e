//! The database once jobs are taken back.
ghost use Rattle.std.specs.Prelude.{◌≡◌};
ghost use Rattle.rollback_stack.specs.Database as spec;

use job_targets::trove_stream::Installed;
use local_db::Db;

/// The database with this list once the jobs from this number on are gone. The number is one of a job of the stack.
pub fn db_below(db: &Db, installed: Installed, number: u32) -> Db
    ensures { result ≡ spec.db_below db.now installed number }
{
    if db.oldest < number {
        return Db {
            installed,
            oldest: db.oldest,
            newest: number - 1,
        };
    }
    Db {
        installed,
        oldest: 0,
        newest: 0,
    }
}
