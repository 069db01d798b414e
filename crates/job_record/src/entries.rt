//! The file entries of a record.
ghost use Rattle.std.specs.Prelude.{[], ◌≡◌, ◌≤◌, length, drop, IfOk, IfSome, IfNone, IsErrOf};
ghost use Rattle.cny_stream.specs.Item.{item_bytes};
ghost use Rattle.local_db.specs.declared.record.ToldEntry as declared;
ghost use Rattle.job_record.specs.Reading.{AreEntriesTo, IsEntryAt, IsEntryText, IsNoEntriesText, IsNoEntryAt};

use crate::deltas::{END, ENTRY};
use crate::marks::told_front;
use cny_stream::next_item;
use local_db::ToldEntry;
use local_db::cny_base::{Path, TextFault, next_str};
use std::alloc::Global;

// The entry whose value the bytes are, all of them.
fn entry_of(alloc: Global, value: &[u8]) -> Result<ToldEntry, TextFault>
    ensures value { IfOk result (IsEntryText value.now) }
    ensures bad { IsErrOf result TextFault.Bad → (e : declared.ToldEntry) → IsEntryText value.now e → ⊥ }
{
    let Some(text) = next_str(value, 0) else {
        return Err(TextFault::Bad);
    };
    let path = Path::read_bytes(alloc, &value[text.from..text.to])?;
    let before = told_front(alloc, &value[text.to..])?;
    let at = text.to + before.size;
    let after = told_front(alloc, &value[at..])?;
    if at + after.size != value.len() {
        return Err(TextFault::Bad);
    }
    Ok(ToldEntry {
        path,
        before: before.told,
        after: after.told,
    })
}

/// An entry, and where its item ends.
#[derive(Drop)]
struct EntryTo {
    entry: ToldEntry,
    to: usize,
}

// The entry whose item begins at `at`, and none where the end item begins there.
fn next_entry(alloc: Global, bytes: &[u8], at: usize) -> Result<Option<EntryTo>, TextFault>
    requires { at ≤ length bytes.now }
    ensures some { IfOk result (λ next. IfSome next (λ found. IsEntryAt bytes.now at found.entry found.to)) }
    ensures none { IfOk result (λ next. IfNone next (IsNoEntryAt bytes.now at)) }
    ensures no_entry { IsErrOf result TextFault.Bad → IsNoEntryAt bytes.now at }
    ensures no_end { IsErrOf result TextFault.Bad → drop at bytes.now ≡ item_bytes 0x6F [] → ⊥ }
{
    let Ok(item) = next_item(bytes, at, &[ENTRY, END]) else {
        return Err(TextFault::Bad);
    };
    if item.tag != ENTRY {
        return Ok(None);
    }
    let entry = entry_of(alloc, &bytes[item.from..item.to])?;
    Ok(Some(EntryTo { entry, to: item.to }))
}

/// Entries, and where their items end.
#[derive(Drop)]
pub(crate) struct EntriesTo {
    pub(crate) entries: Vec<ToldEntry>,
    pub(crate) to: usize,
}

/// The entries that begin at `from`, up to the end item.
pub(crate) fn entries_from(alloc: Global, bytes: &[u8], from: usize) -> Result<EntriesTo, TextFault>
    requires { from ≤ length bytes.now }
    ensures value { IfOk result (λ found. AreEntriesTo bytes.now from found.entries.items found.to) }
    ensures ended { IfOk result (λ found. IsNoEntryAt bytes.now found.to) }
    ensures bad { IsErrOf result TextFault.Bad → IsNoEntriesText bytes.now from }
{
    let mut entries = Vec::new(alloc);
    let mut at = from;
    'items: loop {
        let Some(next) = next_entry(alloc, bytes, at)? else {
            return Ok(EntriesTo { entries, to: at });
        };
        let EntryTo { entry, to } = next;
        entries.push(entry)?;
        at = to;
    }
}
