//! What a rollback record says.
ghost use Rattle.std.specs.Prelude.{◌≡◌};
ghost use Rattle.local_db.specs.RecordText as spec;

use tree_scan::Mark;
use trove_stream::cny_base::{Copies, ListOf, Name, OutOfMemory, Path};
use trove_stream::trove_parts::TroveId;
use trove_stream::{RelTrove, Trove};

/// How the trove of one name is taken back.
pub enum Delta {
    /// The trove with this id came; none of its name was installed before.
    Came(TroveId),
    /// This trove was installed. After the job none of its name is, or another one of the same id.
    Was(Trove),
    /// It leads from the trove after the job to the one before it.
    Turned(RelTrove),
}

// Written by hand, so that to let a value go is a single call.
impl Drop for Delta {
    fn drop(self) {
        match self {
            Delta::Came(_id) => {}
            Delta::Was(_trove) => {}
            Delta::Turned(_rel) => {}
        }
    }
}

impl Delta {
    /// The name whose trove it takes back.
    pub fn name(&self) -> &Name
        ensures { result.now ≡ spec.name_of self.now }
    {
        match self {
            Delta::Came(id) => &id.name,
            Delta::Was(trove) => &trove.id().name,
            Delta::Turned(rel) => &rel.parts().old.name,
        }
    }
}

/// A list of deltas.
pub type Deltas = ListOf<Delta>;

/// A fingerprint as a record tells it.
#[derive(Drop)]
pub enum Told {
    /// The list of troves records it at the path.
    Listed,
    /// It is this one.
    Own(Mark),
}

/// A path that a job changed, with the fingerprints before and after it.
#[derive(Drop)]
pub struct ToldEntry {
    pub path: Path,
    pub before: Told,
    pub after: Told,
}

/// A list of entries.
pub type ToldEntries = ListOf<ToldEntry>;

/// What a rollback record says: the number of its job, a delta for each name whose trove the job changed, and an entry for each
/// path that it changed.
#[derive(Drop)]
pub struct Record {
    pub number: u32,
    pub deltas: Deltas,
    pub entries: ToldEntries,
}

impl Copies for Delta {
    fn copy(&self) -> Result<Self, OutOfMemory> {
        Ok(match self {
            Delta::Came(id) => Delta::Came(id.copy()?),
            Delta::Was(trove) => Delta::Was(trove.copy()?),
            Delta::Turned(rel) => Delta::Turned(rel.copy()?),
        })
    }
}

impl Copies for Told {
    fn copy(&self) -> Result<Self, OutOfMemory> {
        Ok(match self {
            Told::Listed => Told::Listed,
            Told::Own(mark) => Told::Own(mark.copy()?),
        })
    }
}

impl Copies for ToldEntry {
    fn copy(&self) -> Result<Self, OutOfMemory> {
        Ok(ToldEntry {
            path: self.path.copy()?,
            before: self.before.copy()?,
            after: self.after.copy()?,
        })
    }
}
