//! The record that a file spells.
ghost use Rattle.std.specs.Prelude.{[], ◌≡◌, ◌↔◌, ◌<◌, ◌≤◌, ◌^◌, ◌++◌, ℕ, List, IsTrue, length, drop, IfOk, IfSome, IfNone, IsErrOf};
ghost use Rattle.std.specs.Int.{to_be_bytes, w32};
ghost use Rattle.std.specs.List.Sorted.{IsStrictlySortedBy};
ghost use Rattle.std.specs.Ordering.{is_lt};
ghost use Rattle.cny_stream.specs.Item.{item_bytes};
ghost use Rattle.local_db.specs.Formats.{record_magic};
ghost use Rattle.local_db.specs.declared.record.Record as declared;
ghost use Rattle.local_db.specs.RecordText.{IsRecordText, by_name, by_path};
ghost use Rattle.job_record.specs.Reading.{IsUnordered};

use crate::deltas::{HEAD_LEN, deltas_behind};
use crate::entries::entries_from;
use crate::laws::distinct_records;
use crate::writing::{END_ITEM, MAGIC_1, MAGIC_2, NUMBER_HEAD};
use local_db::cny_base::TextFault;
use local_db::trove_parts::distinct_ids;
use local_db::trove_stream::{distinct_rels, distinct_troves};
use local_db::{Delta, Deltas, Format, Record, ToldEntries, ToldEntry};
use std::alloc::Global;

/// The magic of a record.
pub(crate) fn magic_of(format: Format) -> &'static [u8]
    ensures value { result.now ≡ record_magic format }
    ensures long { length result.now ≡ 8 }
{
    match format {
        Format::One => MAGIC_1,
        Format::Two => MAGIC_2,
    }
}

// The number, with which and the magic the bytes begin.
fn number_of(format: Format, bytes: &[u8]) -> Option<u32>
    ensures some { IfSome result (λ number. bytes.now ≡ record_magic format ++ (item_bytes 0x60 (to_be_bytes w32 number) ++ drop 17 bytes.now)) }
    ensures long { IfSome result (λ _. 17 ≤ length bytes.now) }
    ensures fits { IfSome result (λ number. number < 2 ^ 32) }
    ensures none { IfNone result ((number : ℕ) (rest : List ℕ) → number < 2 ^ 32
        → bytes.now ≡ record_magic format ++ (item_bytes 0x60 (to_be_bytes w32 number) ++ rest) → ⊥) }
{
    let rest = bytes.strip_prefix(magic_of(format))?;
    let rest = rest.strip_prefix(NUMBER_HEAD)?;
    let (number, _) = rest.split_first_chunk::<4>()?;
    Some(u32::from_be_bytes(*number))
}

// Whether the end item, and nothing else, stands from `at` on.
fn is_end(bytes: &[u8], at: usize) -> bool
    requires { at ≤ length bytes.now }
    ensures { IsTrue result ↔ (drop at bytes.now ≡ item_bytes 0x6F []) }
{
    let rest = &bytes[at..];
    rest == END_ITEM
}

// What the bytes tell, all of them, in whatever order.
fn unordered(alloc: Global, format: Format, bytes: &[u8]) -> Result<Record, TextFault>
    ensures value { IfOk result (λ found. IsUnordered format found bytes.now) }
    ensures bad { IsErrOf result TextFault.Bad → (r : declared.Record) → IsUnordered format r bytes.now → ⊥ }
    ensures only { IfOk result (λ found. (r : declared.Record) → IsUnordered format r bytes.now → found ≡ r) }
{
    distinct_ids();
    distinct_troves();
    distinct_rels();
    let Some(number) = number_of(format, bytes) else {
        return Err(TextFault::Bad);
    };
    let front = deltas_behind(alloc, format, bytes, number)?;
    let back = entries_from(alloc, bytes, front.to)?;
    if !is_end(bytes, back.to) {
        return Err(TextFault::Bad);
    }
    Ok(Record {
        number,
        deltas: Deltas::new(front.deltas),
        entries: ToldEntries::new(back.entries),
    })
}

fn is_below(delta: &Delta, later: &Delta) -> bool
    ensures { result ≡ is_lt (by_name delta.now later.now) }
{
    delta.name() < later.name()
}

fn do_deltas_rise(deltas: &[Delta]) -> bool
    ensures { IsTrue result ↔ IsStrictlySortedBy by_name deltas.now }
{
    deltas.is_sorted_by(|earlier, later| is_below(earlier, later))
}

fn do_entries_rise(entries: &[ToldEntry]) -> bool
    ensures { IsTrue result ↔ IsStrictlySortedBy by_path entries.now }
{
    entries.is_sorted_by(|earlier, later| earlier.path < later.path)
}

/// The record whose bytes these are in the format, all of them. `Bad` only where they are those of none; want of memory may be
/// answered then instead.
pub fn decode(alloc: Global, format: Format, bytes: &[u8]) -> Result<Record, TextFault>
    ensures value { IfOk result (λ read. IsRecordText format read bytes.now) }
    ensures bad { IsErrOf result TextFault.Bad → (r : declared.Record) → IsRecordText format r bytes.now → ⊥ }
    // The bytes are those of no other record.
    ensures only { IfOk result (λ read. (r : declared.Record) → IsRecordText format r bytes.now → read ≡ r) }
{
    distinct_records();
    let found = unordered(alloc, format, bytes)?;
    let rise = do_deltas_rise(found.deltas.get());
    if !rise || !do_entries_rise(found.entries.get()) {
        return Err(TextFault::Bad);
    }
    Ok(found)
}
