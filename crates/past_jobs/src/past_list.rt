//! An installed list that is taken back.
ghost use Rattle.std.specs.Prelude.{◌≡◌, List, map, IfOk, OnOk, IsErrOf};
ghost use Rattle.std.specs.Option.{option_copied};
ghost use Rattle.std.specs.List.Sorted.{IsStrictlySortedBy};
ghost use Rattle.local_db.specs.trove-stream.declared.parts.TroveParts.{TroveParts};
ghost use Rattle.local_db.specs.trove-stream.Installed.{trove_of};
ghost use Rattle.local_db.specs.Installed.{IsInstalled};
ghost use Rattle.local_db.specs.Installed as state;
ghost use Rattle.local_db.specs.Formats.{Fits};
ghost use Rattle.local_db.specs.RecordText as text;
ghost use Rattle.past_jobs.specs.Past.{AreChangedIds, IsPast};
ghost use Rattle.past_jobs.specs.Table.{IsHeld, troves_of};

use crate::table::{Table, empty_table, put_troves, recorded_in};
use crate::taking::{Taken, add_all, take_all};
use change_rel::trove_stream::one_result;
use local_db::cny_base::{Copies, ListOf, Name, OutOfMemory, Path, TextFault};
use local_db::trove_parts::TroveId;
use local_db::trove_stream::{Installed, Trove};
use local_db::{Delta, Deltas, Format, most_bytes};
use std::alloc::Global;
use std::marker::Model;
use std::mem;
use tree_scan::Mark;

/// A list of ids.
pub type TroveIds = ListOf<TroveId>;

/// What a job changed of the installed list, in the order of the names.
#[derive(Drop)]
pub struct Changed {
    /// The ids of the troves before the job.
    pub before: TroveIds,
    /// The ids of the troves after the job.
    pub after: TroveIds,
}

/// An installed list, with what its troves record of each path, and the length of its database in one of the formats.
#[derive(Drop)]
pub struct PastList {
    alloc: Global,
    format: Format,
    table: Table,
}

impl Model for PastList {
    ghost use Rattle.past_jobs.specs.Past.{Past};
    ghost use Rattle.past_jobs.specs.Table.{IsHeld, troves_of};

    ghost Value = { Past };

    ghost view = { λ a. record { format = a.format; troves = troves_of a.table.troves } };

    ghost invariant = { λ a. IsHeld a.format a.table.troves a.table.marks a.table.len };
}

fn ids_of(alloc: Global, troves: &[Trove]) -> Result<Vec<TroveId>, OutOfMemory>
    ensures { IfOk result (λ ids. ids.items ≡ map (λ t. t.id) troves.now) }
{
    let mut ids = Vec::new(alloc);
    for trove in troves {
        ids.push(trove.id().copy()?)?;
    }
    Ok(ids)
}

/// A table that was taken back, and what the job changed.
#[derive(Drop)]
struct TakenBack {
    table: Table,
    changed: Changed,
}

// The table before the job, by the one after it.
fn taken_back(
    alloc: Global,
    format: Format,
    mut table: Table,
    deltas: &[Delta],
) -> Result<TakenBack, TextFault>
    requires held { IsHeld format table.troves table.marks table.len }
    requires rising { IsStrictlySortedBy text.by_name deltas.now }
    ensures held { IfOk result (λ back. IsHeld format back.table.troves back.table.marks back.table.len) }
    ensures past { IfOk result (λ back. IsPast format deltas.now (troves_of table.troves) (troves_of back.table.troves)) }
    ensures only { IfOk result (λ back. (before : List TroveParts) → IsPast format deltas.now (troves_of table.troves) before → troves_of back.table.troves ≡ before) }
    ensures before { IfOk result (λ back. AreChangedIds (troves_of back.table.troves) (troves_of table.troves) back.changed.before) }
    ensures after { IfOk result (λ back. AreChangedIds (troves_of table.troves) (troves_of back.table.troves) back.changed.after) }
    ensures bad { IsErrOf result TextFault.Bad → (before : List TroveParts) → IsPast format deltas.now (troves_of table.troves) before → ⊥ }
{
    one_result();
    let taken = take_all(alloc, format, &mut table, deltas)?;
    let Taken { made, after } = taken;
    let before = ids_of(alloc, made.as_slice())?;
    add_all(alloc, format, &mut table, made.as_slice())?;
    if table.len > most_bytes(format) {
        return Err(TextFault::Bad);
    }
    Ok(TakenBack {
        table,
        changed: Changed {
            before: TroveIds::new(before),
            after: TroveIds::new(after),
        },
    })
}

impl PastList {
    /// The installed list as it is now.
    pub fn of(alloc: Global, format: Format, installed: &Installed) -> Result<Self, OutOfMemory>
        requires installed { IsInstalled installed.now }
        requires fits { Fits format installed.now }
        ensures format { IfOk result (λ list. list.format ≡ format) }
        ensures troves { IfOk result (λ list. list.troves ≡ installed.now) }
    {
        let mut table = empty_table(alloc, format);
        put_troves(alloc, format, &mut table, installed.troves())?;
        Ok(PastList {
            alloc,
            format,
            table,
        })
    }

    /// The fingerprint that the list records at the path: that of the first trove by name which records it.
    pub fn recorded(&self, path: &Path) -> Option<&Mark>
        ensures { option_copied result ≡ state.recorded self.now.troves path.now }
    {
        recorded_in(self.format, &self.table, path)
    }

    /// The trove of this name.
    pub fn get(&self, name: &Name) -> Option<&Trove>
        ensures { option_copied result ≡ trove_of name.now self.now.troves }
    {
        self.table.troves.get(name)
    }

    /// Makes the list before a job of the list after it, by the deltas of the job's record, and answers what the job changed.
    /// `Bad` only where they lead to no list, to one that may not be installed, or to one whose database would be too large in
    /// the format. After an error the list has no meaning.
    pub fn take_back(&mut self, deltas: Deltas) -> Result<Changed, TextFault>
        requires { IsStrictlySortedBy text.by_name deltas }
        ensures format { self.new.format ≡ self.old.format }
        ensures past { OnOk result (IsPast self.old.format deltas self.old.troves self.new.troves) }
        // It is the only such list.
        ensures only { OnOk result ((before : List TroveParts) → IsPast self.old.format deltas self.old.troves before → self.new.troves ≡ before) }
        ensures before { IfOk result (λ changed. AreChangedIds self.new.troves self.old.troves changed.before) }
        ensures after { IfOk result (λ changed. AreChangedIds self.old.troves self.new.troves changed.after) }
        ensures bad { IsErrOf result TextFault.Bad → (before : List TroveParts) → IsPast self.old.format deltas self.old.troves before → ⊥ }
    {
        let nothing = empty_table(self.alloc, self.format);
        let table = mem::replace(&mut self.table, nothing);
        let back = taken_back(self.alloc, self.format, table, deltas.get())?;
        let TakenBack { table, changed } = back;
        self.table = table;
        Ok(changed)
    }

    /// The list by itself.
    pub fn into_installed(self) -> Result<Installed, OutOfMemory>
        ensures { IfOk result (λ list. list ≡ self.troves) }
    {
        let PastList { alloc, table, .. } = self;
        let Table { troves, .. } = table;
        let troves: Vec<Trove> = troves.into_values().collect(alloc)?;
        Ok(Installed::of_rising(troves))
    }
}
