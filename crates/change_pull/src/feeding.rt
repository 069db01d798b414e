//! Bytes given to a reading.
ghost use Rattle.std.specs.Prelude.{◌≡◌, ◌≢◌, ◌<◌, ◌≤◌, ◌+◌, ◌++◌, [], List, Option, ℕ, IfErr, IfOk, IsTrue, OnOk, length, take, true, false};
ghost use Rattle.cny_stream.specs.Decided.{Decided};
ghost use Rattle.change_set.specs.FirstFault.{IsFirstFault};
ghost use Rattle.journal_log.specs.cny-base.Below.{is_below};
ghost use Rattle.journal_log.specs.cny-base.Path.{root};
ghost use Rattle.change_pull.specs.Files.{HasRoomFrom};
ghost use Rattle.change_pull.specs.Gathered.{HasRoom};
ghost use Rattle.change_pull.specs.Halts.{IfRefusal, IsNoRefusal};
ghost use Rattle.change_pull.specs.Open.{Advances, Gains, Gathers, IsOpen};
ghost use Rattle.change_pull.specs.Writes.{Keeps};

use crate::checks::{decide, tags_of};
use crate::halt::Halt;
use crate::reading::Reading;
use crate::write::write;
use change_set::cny_base::Path;
use cny_stream::{Event, Step};
use journal_log::tree_disk::TreeDisk;
use std::alloc::Global;

// Writes what waits of a content, where it is a whole piece or the value is whole.
fn write_due<D: TreeDisk>(
    alloc: Global,
    disk: &mut D,
    dir: &Path,
    reading: &mut Reading,
    whole: bool,
) -> Result<(), Halt>
    requires short { length dir.now ≤ 1013 }
    requires not_root { dir.now ≢ root }
    requires room { IsTrue D.disk.tells → HasRoomFrom (D.disk.reads disk.old) dir.now (length reading.old.staged.items) }
    ensures keeps { Keeps D.disk (is_below dir.now) disk.old disk.new result }
    ensures room { IsTrue D.disk.tells → OnOk result (HasRoomFrom (D.disk.reads disk.new) dir.now (length reading.old.staged.items)) }
    ensures same { reading.new ≡ record reading.old { item = record reading.old.item { piece = reading.new.item.piece } } }
    ensures fails { IfErr result IsNoRefusal }
    ensures gains { OnOk result (Gains D.disk dir.now disk.old disk.new reading.old reading.new [] whole) }
{
    if !reading.item.is_due(whole) {
        return Ok(());
    }
    let number = reading.staged.len();
    write(alloc, disk, dir, number, reading.item.piece.as_slice())?;
    reading.item.piece.clear();
    Ok(())
}

// Keeps the bytes that belong to a value.
fn gather<D: TreeDisk>(
    alloc: Global,
    disk: &mut D,
    dir: &Path,
    reading: &mut Reading,
    bytes: &[u8],
    event: Event,
) -> Result<(), Halt>
    requires short { length dir.now ≤ 1013 }
    requires not_root { dir.now ≢ root }
    requires room { IsTrue D.disk.tells → HasRoomFrom (D.disk.reads disk.old) dir.now (length reading.old.staged.items) }
    requires count { HasRoom reading.old.item (length bytes.now) }
    ensures keeps { Keeps D.disk (is_below dir.now) disk.old disk.new result }
    ensures room { IsTrue D.disk.tells → OnOk result (HasRoomFrom (D.disk.reads disk.new) dir.now (length reading.old.staged.items)) }
    ensures same { OnOk result (reading.new ≡ record reading.old { item = reading.new.item }) }
    ensures fails { IfErr result IsNoRefusal }
    ensures gathers { OnOk result (Gathers D.disk dir.now disk.old disk.new reading.old reading.new bytes.now event) }
{
    let Event::Value { whole } = event else {
        return Ok(());
    };
    reading.item.add(bytes)?;
    write_due(alloc, disk, dir, reading, whole)
}

// Gives it some of the next bytes, and answers how many.
#[tactic(none)]
fn take_some<D: TreeDisk>(
    alloc: Global,
    disk: &mut D,
    dir: &Path,
    reading: &mut Reading,
    piece: &[u8],
) -> Result<usize, Halt>
    requires short { length dir.now ≤ 1013 }
    requires not_root { dir.now ≢ root }
    requires room { IsTrue D.disk.tells → HasRoomFrom (D.disk.reads disk.old) dir.now (length reading.old.staged.items) }
    requires some { 0 < length piece.now }
    requires count { (count : ℕ) → count ≤ length piece.now → HasRoom reading.old.item count }
    ensures keeps { Keeps D.disk (is_below dir.now) disk.old disk.new result }
    ensures room { IsTrue D.disk.tells → OnOk result (HasRoomFrom (D.disk.reads disk.new) dir.now (length reading.new.staged.items)) }
    ensures used { IfOk result (λ used. used ≤ length piece.now) }
    ensures goes_on { IfOk result (λ used. 0 < used) }
    ensures advances { (given : List ℕ) → IfOk result (λ used. Advances D.disk dir.now disk.old disk.new
        reading.old reading.new given (given ++ take used piece.now)) }
    ensures refused { (given : List ℕ) → IsOpen reading.old dir.now given
        → IfErr result (IfRefusal (Decided IsFirstFault (given ++ piece.now))) }
{
    let tags = tags_of(reading);
    let Step { used, event } = reading.cutter.push(piece, tags);
    let Some(given) = reading.given.checked_add(used as u64) else {
        return Err(Halt::Memory);
    };
    reading.given = given;
    gather(alloc, disk, dir, reading, &piece[..used], event)?;
    decide(alloc, reading, dir, event)?;
    Ok(used)
}

/// Gives it the next bytes.
pub(crate) fn take_all<D: TreeDisk>(
    alloc: Global,
    disk: &mut D,
    dir: &Path,
    reading: &mut Reading,
    piece: &[u8],
) -> Result<(), Halt>
    requires short { length dir.now ≤ 1013 }
    requires not_root { dir.now ≢ root }
    requires room { IsTrue D.disk.tells → HasRoomFrom (D.disk.reads disk.old) dir.now (length reading.old.staged.items) }
    ensures keeps { Keeps D.disk (is_below dir.now) disk.old disk.new result }
    ensures room { IsTrue D.disk.tells → OnOk result (HasRoomFrom (D.disk.reads disk.new) dir.now (length reading.new.staged.items)) }
    ensures advances { (given : List ℕ) → OnOk result (Advances D.disk dir.now disk.old disk.new
        reading.old reading.new given (given ++ piece.now)) }
    ensures refused { (given : List ℕ) → IsOpen reading.old dir.now given
        → IfErr result (IfRefusal (Decided IsFirstFault (given ++ piece.now))) }
{
    let mut at = 0;
    'pieces: while at < piece.len() {
        let left = piece.len() - at;
        let room = reading.item.room();
        let count = if room < left { room } else { left };
        at += take_some(alloc, disk, dir, reading, &piece[at..at + count])?;
    }
    Ok(())
}
