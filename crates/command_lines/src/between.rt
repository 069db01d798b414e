//! The change set between troves of a catalogue.
ghost use Rattle.std.specs.Prelude.{Contains, IfOk};
ghost use Rattle.repo_index.specs.Catalogue.{AreCommitted};
ghost use Rattle.repository.specs.change-set.ChangeSet.{HasContents};

use line_words::{Answer, Line, Stop, Why};
use repo_index::Catalogue;
use repository::between;
use repository::change_set::{ChangeSet, encode};
use repository::cny_base::{Copies, Fault};
use repository::trove_parts::TroveId;
use repository::trove_stream::{Installed, Trove};
use root_words::{Quiet, disk_of};
use std::alloc::Global;

// A copy of the trove of an id.
fn trove_of(catalogue: &Catalogue, id: &TroveId) -> Result<Trove, Stop>
    ensures { IfOk result (Contains catalogue.now.troves) }
{
    for trove in catalogue.troves() {
        if *trove.id() == *id {
            return Ok(trove.copy()?);
        }
    }
    Err(Stop::Unreadable)
}

// Copies of the troves of these ids.
fn troves_of(alloc: Global, catalogue: &Catalogue, ids: &[TroveId]) -> Result<Vec<Trove>, Stop>
    ensures { IfOk result (λ troves. AreCommitted catalogue.now.troves troves.items) }
{
    let mut troves = Vec::new(alloc);
    for id in ids {
        let trove = trove_of(catalogue, id)?;
        troves.push(trove)?;
    }
    Ok(troves)
}

// The troves of these ids, whose names rise.
fn committed(alloc: Global, catalogue: &Catalogue, ids: &[TroveId]) -> Result<Installed, Stop>
    ensures { IfOk result (AreCommitted catalogue.now.troves) }
{
    match Installed::new(troves_of(alloc, catalogue, ids)?) {
        Some(list) => Ok(list),
        None => Err(Stop::Unreadable),
    }
}

// The stream of a change set.
fn told_set(set: &ChangeSet, answer: &mut Answer)
    requires { HasContents set.now }
{
    match encode(answer.alloc(), set) {
        Ok(bytes) => {
            answer.field("ok");
            answer.field_hex(bytes.get());
        }
        Err(Fault::Refused(_)) => answer.field("too large"),
        Err(Fault::Memory) => answer.memory(),
    }
}

// Tells the set between these troves.
fn told_between(
    disk: &mut Quiet,
    catalogue: &Catalogue,
    old: &Installed,
    fresh: &Installed,
    answer: &mut Answer,
)
    requires old { AreCommitted catalogue.now.troves old.now }
    requires fresh { AreCommitted catalogue.now.troves fresh.now }
{
    let (old, fresh) = (old.troves(), fresh.troves());
    match between(answer.alloc(), disk, catalogue, old, fresh) {
        Ok(set) => told_set(&set, answer),
        Err(why) => why.tell(answer),
    }
}

// Tells the set between the troves of these ids.
fn set_of(
    disk: &mut Quiet,
    catalogue: &Catalogue,
    old: &[TroveId],
    fresh: &[TroveId],
    answer: &mut Answer,
) -> Result<(), Stop> {
    let old = committed(answer.alloc(), catalogue, old)?;
    let fresh = committed(answer.alloc(), catalogue, fresh)?;
    told_between(disk, catalogue, &old, &fresh, answer);
    Ok(())
}

/// `between TREE IDS IDS`: the stream of the change set from the troves of some ids to those of others; with a further argument the
/// first call of the disk fails after the catalogue was loaded.
pub fn set_between(catalogue: &Catalogue, line: &mut Line, answer: &mut Answer) {
    let failing = u64::from(line.has(3));
    if let Some(mut disk) = disk_of(line, 0, failing) {
        let (old, fresh) = (line.list::<TroveId>(1), line.list::<TroveId>(2));
        let told = set_of(&mut disk, catalogue, &old, &fresh, answer);
        answer.kept(told);
    }
}
