//! The stream of a trove.
ghost use Rattle.std.specs.Prelude.{◌≡◌, ◌++◌, IfOk, OnOk, OnErr};
ghost use Rattle.trove_stream.specs.Stream.{head_bytes, stream_bytes, trove_bytes, full_trove_bytes};
ghost use Rattle.trove_stream.specs.Trove.{IsTrove};

use crate::trove::Trove;
use cny_stream::put_item;
use std::alloc::Global;
use trove_parts::cny_base::{Bytes, OutOfMemory};
use trove_parts::cny_stream::Encoding;
use trove_parts::{TroveId, put_deps, put_files, put_refs, short_ids};

/// The tags of a trove's items.
pub(crate) const NAME: u8 = 1;

pub(crate) const VERSION: u8 = 2;

pub(crate) const FLAVOR: u8 = 3;

pub(crate) const FILE: u8 = 4;

pub(crate) const REF: u8 = 5;

pub(crate) const REQUIRE: u8 = 6;

pub(crate) const PROVIDE: u8 = 7;

// The items of an id.
fn head_of(alloc: Global, id: &TroveId) -> Result<Bytes, OutOfMemory>
    ensures { IfOk result (λ bytes. bytes ≡ head_bytes id.now) }
{
    // Each text is short enough for an item.
    short_ids();
    let mut bytes = Bytes::new(alloc, b"")?;
    put_item(&mut bytes, NAME, id.name.text().as_bytes())?;
    put_item(&mut bytes, VERSION, id.version.text().as_bytes())?;
    put_item(&mut bytes, FLAVOR, id.flavor.text().as_bytes())?;
    Ok(bytes)
}

// The bytes of a trove in this encoding.
fn bytes_of(alloc: Global, encoding: Encoding, trove: &Trove) -> Result<Bytes, OutOfMemory>
    ensures value { IfOk result (λ bytes. bytes ≡ stream_bytes encoding trove.now) }
    ensures trove { OnOk result (IsTrove trove.now) }
{
    let mut bytes = head_of(alloc, trove.id())?;
    put_files(alloc, encoding, &mut bytes, FILE, trove.files())?;
    put_refs(alloc, &mut bytes, REF, trove.refs())?;
    put_deps(alloc, &mut bytes, REQUIRE, trove.requires_())?;
    put_deps(alloc, &mut bytes, PROVIDE, trove.provides())?;
    Ok(bytes)
}

// Appends the stream of a trove in this encoding.
fn encode_as(
    alloc: Global,
    encoding: Encoding,
    trove: &Trove,
    out: &mut Bytes,
) -> Result<(), OutOfMemory>
    ensures ok { OnOk result (out.new ≡ out.old ++ stream_bytes encoding trove.now) }
    ensures err { OnErr result (out.new ≡ out.old) }
    ensures trove { OnOk result (IsTrove trove.now) }
{
    let bytes = bytes_of(alloc, encoding, trove)?;
    out.push_slice(bytes.get())?;
    Ok(())
}

/// Appends the stream of a trove in the compact encoding; on want of memory `out` is as before.
pub fn encode(alloc: Global, trove: &Trove, out: &mut Bytes) -> Result<(), OutOfMemory>
    ensures ok { OnOk result (out.new ≡ out.old ++ trove_bytes trove.now) }
    ensures err { OnErr result (out.new ≡ out.old) }
    ensures trove { OnOk result (IsTrove trove.now) }
{
    encode_as(alloc, Encoding::Compact, trove, out)
}

/// Appends the stream of a trove in the explicit encoding; on want of memory `out` is as before.
pub fn encode_full(alloc: Global, trove: &Trove, out: &mut Bytes) -> Result<(), OutOfMemory>
    ensures ok { OnOk result (out.new ≡ out.old ++ full_trove_bytes trove.now) }
    ensures err { OnErr result (out.new ≡ out.old) }
    ensures trove { OnOk result (IsTrove trove.now) }
{
    encode_as(alloc, Encoding::Explicit, trove, out)
}
