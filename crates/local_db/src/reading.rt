//! The database that a file spells.
ghost use Rattle.std.specs.Prelude.{[], ◌≡◌, ◌↔◌, ◌<◌, ◌≤◌, ℕ, List, All, None, true, IsTrue, length, drop, IfOk, IfSome, IfNone, IsErrOf, OnOk};
ghost use Rattle.trove_stream.specs.cny-base.Below.{begins_with};
ghost use Rattle.cny_stream.specs.Item.{item_bytes};
ghost use Rattle.trove_stream.specs.trove-parts.declared.files.FileAt.{FileAt};
ghost use Rattle.trove_stream.specs.declared.parts.TroveParts.{TroveParts};
ghost use Rattle.trove_stream.specs.Forbidden.{first_forbidden};
ghost use Rattle.trove_stream.specs.Trove.{IsTrove};
ghost use Rattle.local_db.specs.Formats.{CanTell, database_magic, limit, AreEnds};
ghost use Rattle.local_db.specs.Formats as formats;
ghost use Rattle.local_db.specs.declared.format.Format as declared;
ghost use Rattle.local_db.specs.declared.format.Format.TheVariants.{One};
ghost use Rattle.local_db.specs.Installed.{IsInstalled};
ghost use Rattle.local_db.specs.declared.db.Db.{Db};
ghost use Rattle.local_db.specs.Database.{IsDatabaseFile};
ghost use Rattle.local_db.specs.Reading.{AreNumbers, AreTrovesTo, IsDatabaseText, IsNoTroveAt, IsTroveAt, IsEndAt, IsTroveText, end_bytes};

use crate::db::Db;
use crate::format::Format;
use crate::laws::distinct_databases;
use crate::sharing::share_dirs_alone;
use crate::writing::{END_ITEM, MAGIC_1, MAGIC_2, NUMBERS, TROVE};
use cny_stream::next_item;
use std::alloc::Global;
use trove_stream::cny_base::{DATABASE_LIMIT, FORMAT_1_DATABASE_LIMIT, STACK_LIMIT, TextFault};
use trove_stream::cny_stream::FileRec;
use trove_stream::trove_parts::FileAt;
use trove_stream::{Installed, Trove, check, decode as decode_trove, decode_full, distinct_troves};

// Whether root owns it, or it is a link, which has no owner.
fn is_roots(rec: &FileRec) -> bool
    ensures { result ≡ formats.is_roots rec.now }
{
    match rec {
        FileRec::Dir { owner, .. } => owner.is_root(),
        FileRec::File { owner, .. } => owner.is_root(),
        FileRec::Link { .. } => true,
    }
}

/// Whether format 1 can tell the files: each has no owner but root.
pub fn are_roots(files: &[FileAt]) -> bool
    ensures { IsTrue result ↔ CanTell One files.now }
{
    files.iter().all(|file| is_roots(&file.rec))
}

/// The trove whose stream in this format the bytes are, all of them.
pub fn read_trove(alloc: Global, format: Format, bytes: &[u8]) -> Result<Trove, TextFault>
    ensures value { IfOk result (λ trove. IsTroveText format trove bytes.now) }
    ensures bad { IsErrOf result TextFault.Bad → (trove : TroveParts) → IsTroveText format trove bytes.now → ⊥ }
{
    match format {
        Format::One => {
            let trove = decode_trove(alloc, bytes)?;
            if !are_roots(trove.files()) {
                return Err(TextFault::Bad);
            }
            Ok(trove)
        }
        Format::Two => decode_full(alloc, bytes),
    }
}

/// A trove, and where its item ends.
#[derive(Drop)]
struct TroveTo {
    trove: Trove,
    to: usize,
}

// The trove whose item begins at `at`, and none where the item of the numbers begins there.
fn next_trove(
    alloc: Global,
    format: Format,
    bytes: &[u8],
    at: usize,
) -> Result<Option<TroveTo>, TextFault>
    requires { at ≤ length bytes.now }
    ensures some { IfOk result (λ next. IfSome next (λ found. IsTroveAt format bytes.now at found.trove found.to)) }
    ensures none { IfOk result (λ next. IfNone next (IsNoTroveAt format bytes.now at)) }
    ensures no_trove { IsErrOf result TextFault.Bad → IsNoTroveAt format bytes.now at }
    ensures no_end { IsErrOf result TextFault.Bad → (oldest newest : ℕ) → drop at bytes.now ≡ end_bytes oldest newest → ⊥ }
{
    let Ok(item) = next_item(bytes, at, &[TROVE, NUMBERS]) else {
        return Err(TextFault::Bad);
    };
    if item.tag != TROVE {
        return Ok(None);
    }
    let trove = read_trove(alloc, format, &bytes[item.from..item.to])?;
    Ok(Some(TroveTo { trove, to: item.to }))
}

/// Troves, and where their items end.
#[derive(Drop)]
struct TrovesTo {
    troves: Vec<Trove>,
    to: usize,
}

// The troves behind the magic, up to the item of the numbers.
fn troves_behind(alloc: Global, format: Format, bytes: &[u8]) -> Result<TrovesTo, TextFault>
    requires { begins_with (database_magic format) bytes.now ≡ true }
    ensures value { IfOk result (λ found. AreTrovesTo format bytes.now found.troves.items found.to) }
    ensures ended { IfOk result (λ found. IsNoTroveAt format bytes.now found.to) }
    ensures bad { IsErrOf result TextFault.Bad → (troves : List TroveParts) (oldest newest : ℕ)
        → IsDatabaseText format troves oldest newest bytes.now → ⊥ }
{
    distinct_troves();
    let mut troves = Vec::new(alloc);
    let mut at = MAGIC_2.len();
    'items: loop {
        let Some(next) = next_trove(alloc, format, bytes, at)? else {
            return Ok(TrovesTo { troves, to: at });
        };
        let TroveTo { trove, to } = next;
        troves.push(trove)?;
        at = to;
    }
}

/// The numbers of the oldest and the newest job.
#[derive(Clone, Copy)]
struct Numbers {
    oldest: u32,
    newest: u32,
}

// The numbers that are all of the bytes.
fn numbers_of(value: &[u8]) -> Option<Numbers>
    ensures some { IfSome result (λ numbers. AreNumbers value.now numbers.oldest numbers.newest) }
    ensures none { IfNone result (length value.now ≡ 8 → ⊥) }
{
    let (oldest, rest) = value.split_first_chunk::<4>()?;
    let newest = rest.as_array::<4>()?;
    Some(Numbers {
        oldest: u32::from_be_bytes(*oldest),
        newest: u32::from_be_bytes(*newest),
    })
}

// Whether the end item, and nothing else, stands from `at` on.
fn is_end(bytes: &[u8], at: usize) -> bool
    requires { at ≤ length bytes.now }
    ensures { IsTrue result ↔ (drop at bytes.now ≡ item_bytes 0x5F []) }
{
    let rest = &bytes[at..];
    rest == END_ITEM
}

// The numbers, with which and the end item the bytes end from `at` on.
fn numbers_at(bytes: &[u8], at: usize) -> Option<Numbers>
    requires { at ≤ length bytes.now }
    ensures some { IfSome result (λ numbers. IsEndAt bytes.now at numbers.oldest numbers.newest) }
    ensures none { IfNone result ((oldest newest : ℕ) → drop at bytes.now ≡ end_bytes oldest newest → ⊥) }
{
    let Ok(item) = next_item(bytes, at, &[NUMBERS]) else {
        return None;
    };
    if !is_end(bytes, item.to) {
        return None;
    }
    numbers_of(&bytes[item.from..item.to])
}

/// What a database file tells, before the cross-checks.
#[derive(Drop)]
struct Parts {
    troves: Vec<Trove>,
    oldest: u32,
    newest: u32,
}

// What bytes that begin with the magic of this format tell, all of them.
fn parts_of(alloc: Global, format: Format, bytes: &[u8]) -> Result<Parts, TextFault>
    requires { begins_with (database_magic format) bytes.now ≡ true }
    ensures value { IfOk result (λ parts. IsDatabaseText format parts.troves.items parts.oldest parts.newest bytes.now) }
    ensures bad { IsErrOf result TextFault.Bad → (troves : List TroveParts) (oldest newest : ℕ)
        → IsDatabaseText format troves oldest newest bytes.now → ⊥ }
{
    distinct_troves();
    let found = troves_behind(alloc, format, bytes)?;
    let TrovesTo { troves, to } = found;
    let Some(numbers) = numbers_at(bytes, to) else {
        return Err(TextFault::Bad);
    };
    Ok(Parts {
        troves,
        oldest: numbers.oldest,
        newest: numbers.newest,
    })
}

/// Whether the trove records no path that no trove may record.
pub fn is_allowed(alloc: Global, trove: &Trove) -> bool
    ensures { IsTrue result ↔ (first_forbidden trove.now.files ≡ None) }
{
    check(alloc, trove).is_ok()
}

/// Whether none of the troves records a path that no trove may record.
pub fn are_allowed(alloc: Global, troves: &[Trove]) -> bool
    ensures { IsTrue result ↔ All (λ t. first_forbidden t.files ≡ None) troves.now }
{
    troves.iter().all(|trove| is_allowed(alloc, trove))
}

// Whether a stack of jobs can have these numbers.
fn are_ends(oldest: u32, newest: u32) -> bool
    ensures { IsTrue result ↔ AreEnds oldest newest }
{
    if oldest == 0 {
        return newest == 0;
    }
    oldest <= newest && ((newest - oldest) as usize) < STACK_LIMIT
}

// The database that these parts are, where they pass the cross-checks.
fn checked(alloc: Global, parts: Parts) -> Result<Db, TextFault>
    requires { All IsTrove parts.troves.items }
    ensures value { IfOk result (λ db. db ≡ record { installed = parts.troves.items; oldest = parts.oldest; newest = parts.newest }) }
    ensures passes { OnOk result (IsInstalled parts.troves.items × AreEnds parts.oldest parts.newest) }
    ensures bad { IsErrOf result TextFault.Bad → IsInstalled parts.troves.items → AreEnds parts.oldest parts.newest → ⊥ }
{
    let Parts {
        troves,
        oldest,
        newest,
    } = parts;
    let Some(installed) = Installed::new(troves) else {
        return Err(TextFault::Bad);
    };
    let allowed = are_allowed(alloc, installed.troves());
    if !allowed || !are_ends(oldest, newest) {
        return Err(TextFault::Bad);
    }
    if !share_dirs_alone(alloc, installed.troves())? {
        return Err(TextFault::Bad);
    }
    Ok(Db {
        installed,
        oldest,
        newest,
    })
}

// The format whose magic the bytes begin with.
fn format_of(bytes: &[u8]) -> Option<Format>
    ensures some { IfSome result (λ format. begins_with (database_magic format) bytes.now ≡ true) }
    ensures none { IfNone result ((format : declared.Format) → begins_with (database_magic format) bytes.now ≡ true → ⊥) }
{
    if bytes.starts_with(MAGIC_1) {
        return Some(Format::One);
    }
    if bytes.starts_with(MAGIC_2) {
        return Some(Format::Two);
    }
    None
}

/// The most bytes of a database file in this format.
pub fn most_bytes(format: Format) -> usize
    ensures { result ≡ limit format }
{
    match format {
        Format::One => FORMAT_1_DATABASE_LIMIT,
        Format::Two => DATABASE_LIMIT,
    }
}

/// The database whose bytes these are in one of the formats, all of them. `Bad` only where they are those of no database;
/// want of memory may be answered then instead.
pub fn decode(alloc: Global, bytes: &[u8]) -> Result<Db, TextFault>
    ensures value { IfOk result (λ db. IsDatabaseFile db bytes.now) }
    ensures bad { IsErrOf result TextFault.Bad → (db : Db) → IsDatabaseFile db bytes.now → ⊥ }
    // The bytes are those of no other database.
    ensures only { IfOk result (λ read. (db : Db) → IsDatabaseFile db bytes.now → read ≡ db) }
{
    distinct_troves();
    distinct_databases();
    let Some(format) = format_of(bytes) else {
        return Err(TextFault::Bad);
    };
    if bytes.len() > most_bytes(format) {
        return Err(TextFault::Bad);
    }
    let parts = parts_of(alloc, format, bytes)?;
    checked(alloc, parts)
}
