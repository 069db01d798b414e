//! The bytes of a record.
ghost use Rattle.std.specs.Prelude.{◌≡◌, ◌++◌, All, IfOk, OnOk};
ghost use Rattle.cny_stream.specs.Item.{item_bytes};
ghost use Rattle.local_db.specs.trove-parts.Items.{items_bytes};
ghost use Rattle.local_db.specs.MarkBytes.{IsMark, mark_bytes};
ghost use Rattle.local_db.specs.declared.format.Format.TheVariants.{Two};
ghost use Rattle.local_db.specs.RecordText.{FitsDelta, IsDelta, IsTold, IsToldEntry, delta_bytes, delta_value, deltas_text, entry_text, told_text, record_text};
ghost use Rattle.local_db.specs.RecordText as spec;
ghost use Rattle.tree_scan.specs.declared.mark.Mark.TheVariants as mark;

use crate::deltas::{CAME, END, ENTRY, TURNED, WAS};
use local_db::cny_base::{Bytes, Mode, OutOfMemory, put_str};
use local_db::trove_parts::put_id;
use local_db::trove_stream::{encode_full, encode_rel_full};
use local_db::{Delta, Record, Told, ToldEntry, put_value};
use std::alloc::Global;
use tree_scan::Mark;

/// `CNYRB01` or `CNYRB02`, and a line feed.
pub(crate) const MAGIC_1: &[u8] = b"CNYRB01\n";

pub(crate) const MAGIC_2: &[u8] = b"CNYRB02\n";

pub(crate) const NUMBER: u8 = 0x60;

/// The head of the item of the number.
pub(crate) const NUMBER_HEAD: &[u8] = &[NUMBER, 0, 0, 0, 4];

/// The end item.
pub(crate) const END_ITEM: &[u8] = &[END, 0, 0, 0, 0];

fn tag_of(delta: &Delta) -> u8
    ensures { result ≡ spec.tag_of delta.now }
{
    match delta {
        Delta::Came(_) => CAME,
        Delta::Was(_) => WAS,
        Delta::Turned(_) => TURNED,
    }
}

// The value of a delta's item.
fn value_of(alloc: Global, delta: &Delta) -> Result<Bytes, OutOfMemory>
    ensures value { IfOk result (λ value. value ≡ delta_value Two delta.now) }
    ensures valid { OnOk result (IsDelta Two delta.now) }
{
    let mut value = Bytes::new(alloc, b"")?;
    match delta {
        Delta::Came(id) => put_id(alloc, id, &mut value)?,
        Delta::Was(trove) => encode_full(alloc, trove, &mut value)?,
        Delta::Turned(rel) => encode_rel_full(alloc, rel, &mut value)?,
    }
    Ok(value)
}

// Appends the item of a delta.
fn put_delta(alloc: Global, out: &mut Bytes, delta: &Delta) -> Result<(), OutOfMemory>
    ensures ok { OnOk result (out.new ≡ out.old ++ delta_bytes Two delta.now) }
    ensures valid { OnOk result (IsDelta Two delta.now) }
    ensures fits { OnOk result (FitsDelta Two delta.now) }
{
    let value = value_of(alloc, delta)?;
    put_value(out, tag_of(delta), value.get())
}

// Appends the items of deltas.
fn put_deltas(alloc: Global, out: &mut Bytes, deltas: &[Delta]) -> Result<(), OutOfMemory>
    ensures ok { OnOk result (out.new ≡ out.old ++ deltas_text Two deltas.now) }
    ensures valid { OnOk result (All (IsDelta Two) deltas.now) }
    ensures fits { OnOk result (All (FitsDelta Two) deltas.now) }
{
    for delta in deltas {
        put_delta(alloc, out, delta)?;
    }
    Ok(())
}

fn put_dir(out: &mut Bytes, mode: Mode) -> Result<(), OutOfMemory>
    ensures { OnOk result (out.new ≡ out.old ++ mark_bytes (mark.Dir mode)) }
{
    out.push_slice(b"d")?;
    out.push_slice(&mode.bits().to_be_bytes())
}

fn put_file(out: &mut Bytes, mode: Mode, size: u32, name: &[u8; 20]) -> Result<(), OutOfMemory>
    ensures { OnOk result (out.new ≡ out.old ++ mark_bytes (mark.File mode size name.now)) }
{
    out.push_slice(b"f")?;
    out.push_slice(&mode.bits().to_be_bytes())?;
    out.push_slice(&size.to_be_bytes())?;
    out.push_slice(name.as_slice())
}

// Appends a fingerprint.
fn put_mark(out: &mut Bytes, mark: &Mark) -> Result<(), OutOfMemory>
    requires { IsMark mark.now }
    ensures { OnOk result (out.new ≡ out.old ++ mark_bytes mark.now) }
{
    match mark {
        Mark::Nothing => out.push_slice(b"n"),
        Mark::Dir { mode } => put_dir(out, *mode),
        Mark::File { mode, size, name } => put_file(out, *mode, *size as u32, name),
        Mark::Link { target } => {
            out.push_slice(b"l")?;
            put_str(out, target.text().as_bytes())
        }
    }
}

fn put_told(out: &mut Bytes, told: &Told) -> Result<(), OutOfMemory>
    requires { IsTold told.now }
    ensures { OnOk result (out.new ≡ out.old ++ told_text told.now) }
{
    match told {
        Told::Listed => out.push_slice(b"="),
        Told::Own(mark) => put_mark(out, mark),
    }
}

// Appends the item of an entry.
fn put_entry(alloc: Global, out: &mut Bytes, entry: &ToldEntry) -> Result<(), OutOfMemory>
    requires { IsToldEntry entry.now }
    ensures { OnOk result (out.new ≡ out.old ++ item_bytes 0x67 (entry_text entry.now)) }
{
    let mut value = Bytes::new(alloc, b"")?;
    put_str(&mut value, entry.path.text().as_bytes())?;
    put_told(&mut value, &entry.before)?;
    put_told(&mut value, &entry.after)?;
    put_value(out, ENTRY, value.get())
}

// Appends the items of entries.
fn put_entries(alloc: Global, out: &mut Bytes, entries: &[ToldEntry]) -> Result<(), OutOfMemory>
    requires { All IsToldEntry entries.now }
    ensures { OnOk result (out.new ≡ out.old ++ items_bytes entry_text 0x67 entries.now) }
{
    for entry in entries {
        put_entry(alloc, out, entry)?;
    }
    Ok(())
}

/// The bytes of the record in format 2. Want of memory also where the value of a delta has no room in an item.
///
/// Each fingerprint has bytes: the size of a file is below 2^32.
pub fn encode(alloc: Global, record_: &Record) -> Result<Bytes, OutOfMemory>
    requires { All IsToldEntry record_.now.entries }
    ensures value { IfOk result (λ bytes. bytes ≡ record_text Two record_.now) }
    ensures deltas { OnOk result (All (IsDelta Two) record_.now.deltas) }
    ensures fits { OnOk result (All (FitsDelta Two) record_.now.deltas) }
{
    let mut out = Bytes::new(alloc, MAGIC_2)?;
    out.push_slice(NUMBER_HEAD)?;
    out.push_slice(&record_.number.to_be_bytes())?;
    put_deltas(alloc, &mut out, record_.deltas.get())?;
    put_entries(alloc, &mut out, record_.entries.get())?;
    out.push_slice(END_ITEM)?;
    Ok(out)
}
