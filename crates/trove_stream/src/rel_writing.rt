//! The bytes of relative troves.
ghost use Rattle.std.specs.Prelude.{◌≡◌, ◌++◌, OnOk, OnErr, IfOk, All};
ghost use Rattle.trove_parts.specs.Files.{FitsFile, files_bytes};
ghost use Rattle.trove_parts.specs.Paths.{paths_bytes};
ghost use Rattle.trove_parts.specs.Refs.{refs_bytes};
ghost use Rattle.trove_parts.specs.Deps.{deps_bytes};
ghost use Rattle.trove_stream.specs.Pairs.{ids_bytes};
ghost use Rattle.trove_stream.specs.Rel.{IsRel};
ghost use Rattle.trove_stream.specs.RelBytes.{rel_stream_bytes, rel_bytes, full_rel_bytes};

use crate::rel::{RelParts, RelTrove};
use std::alloc::Global;
use trove_parts::cny_base::{Bytes, OutOfMemory};
use trove_parts::cny_stream::Encoding;
use trove_parts::{put_deps, put_files, put_id_item, put_paths, put_refs};

/// The tags of the items. Each kind of change has two: one for what is gone, and the next.
pub(crate) const OLD: u8 = 0x21;

pub(crate) const FRESH: u8 = 0x22;

pub(crate) const PATH_GONE: u8 = 0x23;

pub(crate) const FILE_SET: u8 = 0x24;

pub(crate) const REF_GONE: u8 = 0x25;

pub(crate) const REF_ADDED: u8 = 0x26;

pub(crate) const REQUIRES_GONE: u8 = 0x27;

pub(crate) const REQUIRES_ADDED: u8 = 0x28;

pub(crate) const PROVIDES_GONE: u8 = 0x29;

pub(crate) const PROVIDES_ADDED: u8 = 0x2a;

/// Appends the stream of a relative trove in the compact encoding; on want of memory `out` is as before.
pub fn encode_rel(alloc: Global, rel: &RelTrove, out: &mut Bytes) -> Result<(), OutOfMemory>
    ensures ok { OnOk result (out.new ≡ out.old ++ rel_bytes rel.now) }
    ensures err { OnErr result (out.new ≡ out.old) }
    ensures rel { OnOk result (IsRel rel.now) }
{
    encode_rel_as(alloc, Encoding::Compact, rel, out)
}

/// Appends the stream of a relative trove in the explicit encoding; on want of memory `out` is as before.
pub fn encode_rel_full(alloc: Global, rel: &RelTrove, out: &mut Bytes) -> Result<(), OutOfMemory>
    ensures ok { OnOk result (out.new ≡ out.old ++ full_rel_bytes rel.now) }
    ensures err { OnErr result (out.new ≡ out.old) }
    ensures rel { OnOk result (IsRel rel.now) }
{
    encode_rel_as(alloc, Encoding::Explicit, rel, out)
}

// Appends the stream of a relative trove in this encoding.
fn encode_rel_as(
    alloc: Global,
    encoding: Encoding,
    rel: &RelTrove,
    out: &mut Bytes,
) -> Result<(), OutOfMemory>
    ensures ok { OnOk result (out.new ≡ out.old ++ rel_stream_bytes encoding rel.now) }
    ensures err { OnErr result (out.new ≡ out.old) }
    ensures rel { OnOk result (IsRel rel.now) }
{
    let bytes = bytes_of(alloc, encoding, rel.parts())?;
    out.push_slice(bytes.get())?;
    Ok(())
}

// The stream of these parts.
fn bytes_of(alloc: Global, encoding: Encoding, parts: &RelParts) -> Result<Bytes, OutOfMemory>
    requires { All FitsFile parts.now.files_set }
    ensures { IfOk result (λ bytes. bytes ≡ rel_stream_bytes encoding parts.now) }
{
    let mut out = Bytes::new(alloc, b"")?;
    push_ids(alloc, &mut out, parts)?;
    push_files(alloc, encoding, &mut out, parts)?;
    push_refs(alloc, &mut out, parts)?;
    push_requires(alloc, &mut out, parts)?;
    push_provides(alloc, &mut out, parts)?;
    Ok(out)
}

fn push_ids(alloc: Global, out: &mut Bytes, parts: &RelParts) -> Result<(), OutOfMemory>
    ensures { OnOk result (out.new ≡ out.old ++ ids_bytes parts.now.old parts.now.fresh) }
{
    put_id_item(alloc, out, OLD, &parts.old)?;
    put_id_item(alloc, out, FRESH, &parts.fresh)
}

fn push_files(
    alloc: Global,
    encoding: Encoding,
    out: &mut Bytes,
    parts: &RelParts,
) -> Result<(), OutOfMemory>
    requires { All FitsFile parts.now.files_set }
    ensures { OnOk result (out.new ≡ out.old ++ (paths_bytes 0x23 parts.now.paths_gone ++ files_bytes encoding 0x24 parts.now.files_set)) }
{
    put_paths(alloc, out, PATH_GONE, parts.paths_gone.get())?;
    put_files(alloc, encoding, out, FILE_SET, parts.files_set.get())
}

fn push_refs(alloc: Global, out: &mut Bytes, parts: &RelParts) -> Result<(), OutOfMemory>
    ensures { OnOk result (out.new ≡ out.old ++ (refs_bytes 0x25 parts.now.refs_gone ++ refs_bytes 0x26 parts.now.refs_added)) }
{
    put_refs(alloc, out, REF_GONE, parts.refs_gone.get())?;
    put_refs(alloc, out, REF_ADDED, parts.refs_added.get())
}

fn push_requires(alloc: Global, out: &mut Bytes, parts: &RelParts) -> Result<(), OutOfMemory>
    ensures { OnOk result (out.new ≡ out.old ++ (deps_bytes 0x27 parts.now.requires_gone ++ deps_bytes 0x28 parts.now.requires_added)) }
{
    put_deps(alloc, out, REQUIRES_GONE, parts.requires_gone.get())?;
    put_deps(alloc, out, REQUIRES_ADDED, parts.requires_added.get())
}

fn push_provides(alloc: Global, out: &mut Bytes, parts: &RelParts) -> Result<(), OutOfMemory>
    ensures { OnOk result (out.new ≡ out.old ++ (deps_bytes 0x29 parts.now.provides_gone ++ deps_bytes 0x2A parts.now.provides_added)) }
{
    put_deps(alloc, out, PROVIDES_GONE, parts.provides_gone.get())?;
    put_deps(alloc, out, PROVIDES_ADDED, parts.provides_added.get())
}
