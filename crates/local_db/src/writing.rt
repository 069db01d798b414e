//! The bytes of a database.
ghost use Rattle.std.specs.Prelude.{◌≡◌, ◌<◌, ◌≤◌, ◌++◌, All, IfErr, IfOk, OnOk, length};
ghost use Rattle.trove_stream.specs.cny-base.declared.limits.TheConstants.{DATABASE_LIMIT};
ghost use Rattle.cny_stream.specs.Item.{FitsItem, item_bytes};
ghost use Rattle.trove_stream.specs.trove-parts.Items.{items_bytes};
ghost use Rattle.trove_stream.specs.Stream.{full_trove_bytes};
ghost use Rattle.trove_stream.specs.Trove.{IsTrove};
ghost use Rattle.local_db.specs.declared.format.Format.TheVariants.{Two};
ghost use Rattle.local_db.specs.Formats.{Fits, database_bytes};
ghost use Rattle.local_db.specs.Writing.{IsTooLargeOrMemory};
ghost use Rattle.local_db.specs.Reading.{end_bytes};

use crate::db::Db;
use crate::laws::distinct_databases;
use cny_stream::put_item;
use std::alloc::Global;
use trove_stream::cny_base::{Bytes, DATABASE_LIMIT, Fault, OutOfMemory, Refusal, What};
use trove_stream::{Trove, encode_full};

/// `CNYDB01` or `CNYDB02`, and a line feed.
pub(crate) const MAGIC_1: &[u8] = b"CNYDB01\n";

pub(crate) const MAGIC_2: &[u8] = b"CNYDB02\n";

/// The tags of the items.
pub(crate) const TROVE: u8 = 0x50;

pub(crate) const NUMBERS: u8 = 0x51;

const END: u8 = 0x5f;

/// The end item.
pub(crate) const END_ITEM: &[u8] = &[END, 0, 0, 0, 0];

/// Appends an item. Where the value has no room in one the answer is want of memory.
pub fn put_value(out: &mut Bytes, tag: u8, value: &[u8]) -> Result<(), OutOfMemory>
    ensures ok { OnOk result (out.new ≡ out.old ++ item_bytes tag value.now) }
    ensures fits { OnOk result (FitsItem value.now) }
{
    if value.len() > u32::MAX as usize {
        return Err(OutOfMemory);
    }
    put_item(out, tag, value)
}

// Appends the item of a trove. Where its stream has no room in one the answer is want of memory.
fn put_trove(alloc: Global, out: &mut Bytes, trove: &Trove) -> Result<(), OutOfMemory>
    ensures value { OnOk result (out.new ≡ out.old ++ item_bytes 0x50 (full_trove_bytes trove.now)) }
    ensures trove { OnOk result (IsTrove trove.now) }
{
    let mut value = Bytes::new(alloc, b"")?;
    encode_full(alloc, trove, &mut value)?;
    put_value(out, TROVE, value.get())
}

// Appends the items of troves.
fn put_troves(alloc: Global, out: &mut Bytes, troves: &[Trove]) -> Result<(), OutOfMemory>
    ensures value { OnOk result (out.new ≡ out.old ++ items_bytes full_trove_bytes 0x50 troves.now) }
    ensures troves { OnOk result (All IsTrove troves.now) }
{
    for trove in troves {
        put_trove(alloc, out, trove)?;
    }
    Ok(())
}

// Appends the item of the numbers, and the end item.
fn put_end(out: &mut Bytes, oldest: u32, newest: u32) -> Result<(), OutOfMemory>
    ensures { OnOk result (out.new ≡ out.old ++ end_bytes oldest newest) }
{
    let [a, b, c, d] = oldest.to_be_bytes();
    let [e, f, g, h] = newest.to_be_bytes();
    put_item(out, NUMBERS, &[a, b, c, d, e, f, g, h])?;
    out.push_slice(END_ITEM)
}

// The bytes, however many.
fn bytes_of(alloc: Global, db: &Db) -> Result<Bytes, OutOfMemory>
    ensures value { IfOk result (λ bytes. bytes ≡ database_bytes Two db.now.installed db.now.oldest db.now.newest) }
    ensures troves { OnOk result (All IsTrove db.now.installed) }
{
    let mut out = Bytes::new(alloc, MAGIC_2)?;
    put_troves(alloc, &mut out, db.installed.troves())?;
    put_end(&mut out, db.oldest, db.newest)?;
    Ok(out)
}

/// The bytes of the database, in format 2. `TooLarge` exactly where they are more than a database has at most, with their
/// number. Want of memory also where the stream of a trove has no room in an item.
pub fn encode(alloc: Global, db: &Db) -> Result<Bytes, Fault>
    ensures value { IfOk result (λ bytes. bytes ≡ database_bytes Two db.now.installed db.now.oldest db.now.newest) }
    ensures short { OnOk result (length (database_bytes Two db.now.installed db.now.oldest db.now.newest) ≤ DATABASE_LIMIT) }
    ensures troves { OnOk result (All IsTrove db.now.installed) }
    ensures refused { IfErr result (IsTooLargeOrMemory (length (database_bytes Two db.now.installed db.now.oldest db.now.newest))) }
{
    let bytes = bytes_of(alloc, db)?;
    let size = bytes.get().len();
    if size > DATABASE_LIMIT {
        return Err(Fault::Refused(Refusal::TooLarge {
            what: What::Database,
            size: size as u64,
        }));
    }
    Ok(bytes)
}

/// The bytes of a database that has room, in format 2. Want of memory also where the stream of a trove has no room in an item.
pub fn encode_within(alloc: Global, db: &Db) -> Result<Bytes, OutOfMemory>
    requires { Fits Two db.now.installed }
    ensures value { IfOk result (λ bytes. bytes ≡ database_bytes Two db.now.installed db.now.oldest db.now.newest) }
{
    // The numbers don't change the length.
    distinct_databases();
    match encode(alloc, db) {
        Ok(bytes) => Ok(bytes),
        Err(Fault::Memory) => Err(OutOfMemory),
        Err(Fault::Refused(_)) => unreachable!(),
    }
}
