//! The root of a line: its disk, and its database.
ghost use Rattle.std.specs.Prelude.{IfOk, IfSome};
ghost use Rattle.local_db.specs.Database.{IsDb};
ghost use Rattle.local_db.specs.declared.format.Format.TheVariants.{Two};
ghost use Rattle.local_db.specs.Stores.{IsDatabase};

use line_words::{Answer, Line, Why};
use local_db::{Db, distinct_databases, encode, load};
use root_words::{Quiet, disk_of};
use std::alloc::Global;
use system_core::cny_base::Stop;
use system_core::ready;

/// The private directory of a root.
pub const PRIVATE: &str = "/var/lib/conarydb";

/// `FAILS TREE`: the root of the tree of the second argument. Its call of the number FAILS fails; none does where it is 0.
pub fn root_of(line: &mut Line) -> Option<Quiet> {
    let fails = line.number(0);
    disk_of(line, 1, fails)
}

// Nothing, where the database fits format 2: that of each line does.
fn check_room(alloc: Global, db: &Db) -> Result<(), Stop>
    requires { IsDb db.now }
    ensures { IfOk result (λ done. IsDatabase Two db.now.installed db.now.oldest db.now.newest) }
{
    distinct_databases();
    encode(alloc, db)?;
    Ok(())
}

/// The database of a root of format 2, which isn't made ready.
pub fn database_of(alloc: Global, disk: &mut Quiet) -> Result<Db, Stop>
    ensures { IfOk result (λ db. IsDatabase Two db.installed db.oldest db.newest) }
{
    let db = load(alloc, disk)?;
    check_room(alloc, &db)?;
    Ok(db)
}

/// The database of a root once it is made ready for a command; else there is none, and why stands in the answer.
pub fn readied(disk: &mut Quiet, answer: &mut Answer) -> Option<Db>
    ensures { IfSome result (λ db. IsDatabase Two db.installed db.oldest db.newest) }
{
    match ready(answer.alloc(), disk) {
        Ok(db) => Some(db),
        Err(why) => {
            why.tell(answer);
            None
        }
    }
}

/// Appends the numbers of the stack, and the ids of the troves.
pub fn push_db(db: &Db, answer: &mut Answer) {
    answer.number(u64::from(db.oldest));
    answer.text(" ");
    answer.number(u64::from(db.newest));
    answer.trove_ids(" ", db.installed.troves());
}
