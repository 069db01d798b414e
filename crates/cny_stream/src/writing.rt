//! The bytes of a file record, and its id.
ghost use Rattle.std.specs.Prelude.{◌≡◌, ◌++◌, IsTrue, OnOk, OnErr, IfOk};
ghost use Rattle.sha1.specs.Sha1.{sha1};
ghost use Rattle.cny_stream.specs.Owner.{is_owner};
ghost use Rattle.cny_stream.specs.Record as spec;
ghost use Rattle.cny_stream.specs.Record.{FitsSize, IsFileRecord, record_bytes, file_record_bytes, full_record_bytes, names_owner, owner_bytes};

use crate::encoding::Encoding;
use crate::owner::Owner;
use crate::record::FileRec;
use cny_base::{Bytes, OutOfMemory, put_str};
use sha1::Sha1;
use std::alloc::Global;

// The five bytes with which a record begins.
fn head(named: bool, kind: u8, flags: u8, mode: u16) -> [u8; 5]
    ensures { result ≡ spec.head named kind flags mode }
{
    let [high, low] = mode.to_be_bytes();
    let form = if named { 2 } else { 1 };
    [form, kind, flags, high, low]
}

// The head, and the owner where it is named.
fn begun(
    alloc: Global,
    encoding: Encoding,
    kind: u8,
    flags: u8,
    mode: u16,
    owner: &Owner,
) -> Result<Bytes, OutOfMemory>
    ensures owner { OnOk result (IsTrue (is_owner owner.now)) }
    ensures value { IfOk result (λ bytes. bytes ≡ spec.head (names_owner encoding owner.now) kind flags mode ++ owner_bytes (names_owner encoding owner.now) owner.now) }
{
    let named = encoding.names(owner.is_root());
    let mut bytes = Bytes::new(alloc, &head(named, kind, flags, mode))?;
    if named {
        put_str(&mut bytes, owner.user().as_bytes())?;
        put_str(&mut bytes, owner.group().as_bytes())?;
    }
    Ok(bytes)
}

// The bytes of a record.
fn bytes_of(alloc: Global, encoding: Encoding, rec: &FileRec) -> Result<Bytes, OutOfMemory>
    ensures value { IfOk result (λ bytes. bytes ≡ record_bytes encoding rec.now) }
    ensures record { OnOk result (FitsSize rec.now → IsFileRecord rec.now) }
{
    match rec {
        FileRec::Dir { mode, owner } => begun(alloc, encoding, b'd', 0, mode.bits(), owner),
        FileRec::File {
            mode,
            owner,
            flags,
            size,
            name,
        } => {
            let mut bytes = begun(alloc, encoding, b'f', flags.bits(), mode.bits(), owner)?;
            bytes.push_slice(&size.to_be_bytes())?;
            bytes.push_slice(name)?;
            Ok(bytes)
        }
        FileRec::Link { target } => {
            let mut bytes = Bytes::new(alloc, &head(false, b'l', 0, 0))?;
            put_str(&mut bytes, target.text().as_bytes())?;
            Ok(bytes)
        }
    }
}

/// Appends the bytes of a record in this encoding; on want of memory `out` is as before.
pub fn encode_as(
    alloc: Global,
    encoding: Encoding,
    rec: &FileRec,
    out: &mut Bytes,
) -> Result<(), OutOfMemory>
    requires { FitsSize rec.now }
    ensures ok { OnOk result (out.new ≡ out.old ++ record_bytes encoding rec.now) }
    ensures err { OnErr result (out.new ≡ out.old) }
    ensures record { OnOk result (IsFileRecord rec.now) }
{
    let bytes = bytes_of(alloc, encoding, rec)?;
    out.push_slice(bytes.get())?;
    Ok(())
}

/// Appends the compact bytes of a record; on want of memory `out` is as before.
pub fn encode(alloc: Global, rec: &FileRec, out: &mut Bytes) -> Result<(), OutOfMemory>
    requires { FitsSize rec.now }
    ensures ok { OnOk result (out.new ≡ out.old ++ file_record_bytes rec.now) }
    ensures err { OnErr result (out.new ≡ out.old) }
    ensures record { OnOk result (IsFileRecord rec.now) }
{
    encode_as(alloc, Encoding::Compact, rec, out)
}

/// Appends the explicit bytes of a record; on want of memory `out` is as before.
pub fn encode_full(alloc: Global, rec: &FileRec, out: &mut Bytes) -> Result<(), OutOfMemory>
    requires { FitsSize rec.now }
    ensures ok { OnOk result (out.new ≡ out.old ++ full_record_bytes rec.now) }
    ensures err { OnErr result (out.new ≡ out.old) }
    ensures record { OnOk result (IsFileRecord rec.now) }
{
    encode_as(alloc, Encoding::Explicit, rec, out)
}

/// The SHA-1 of a record's compact bytes.
pub fn file_id(alloc: Global, rec: &FileRec) -> Result<[u8; 20], OutOfMemory>
    requires { FitsSize rec.now }
    ensures { IfOk result (λ id. id ≡ sha1 (file_record_bytes rec.now)) }
{
    let bytes = bytes_of(alloc, Encoding::Compact, rec)?;
    Ok(Sha1::digest(bytes.get()))
}
