//! The file of a commit.
ghost use Rattle.std.specs.Prelude.{◌≡◌, ◌+◌, ◌++◌, length, All, IfOk, OnOk};
ghost use Rattle.repo_index.specs.trove-parts.Items.{items_bytes};
ghost use Rattle.repo_index.specs.trove-stream.Stream.{trove_bytes};
ghost use Rattle.repo_index.specs.trove-stream.Trove.{IsTrove};
ghost use Rattle.cny_stream.specs.Item.{item_bytes};
ghost use Rattle.repo_load.specs.Files.{commit_bytes, FitsTrove};

use cny_stream::{close_item, open_item, put_item};
use repo_index::cny_base::{Bytes, OutOfMemory};
use repo_index::trove_stream::{Trove, encode};
use std::alloc::Global;

/// `CNYKM01` and a line feed.
pub(crate) const MAGIC: &[u8] = b"CNYKM01\n";

/// The tags of the items.
pub(crate) const TROVE: u8 = 0x40;

pub(crate) const END: u8 = 0x4f;

// Appends the stream of a trove, which is the value of an item that begins at `at`. Where it has no room in one the answer is want of
// memory.
fn put_stream(alloc: Global, out: &mut Bytes, at: usize, trove: &Trove) -> Result<(), OutOfMemory>
    requires { length out.old ≡ at + 5 }
    ensures value { OnOk result (out.new ≡ out.old ++ trove_bytes trove.now) }
    ensures trove { OnOk result (IsTrove trove.now) }
    ensures fits { OnOk result (FitsTrove trove.now) }
{
    encode(alloc, trove, out)?;
    if out.get().len() - at - 5 > u32::MAX as usize {
        return Err(OutOfMemory);
    }
    Ok(())
}

// Appends the item of a trove. Its stream is written in place. Where it has no room in one the answer is want of memory.
fn put_trove(alloc: Global, out: &mut Bytes, trove: &Trove) -> Result<(), OutOfMemory>
    ensures value { OnOk result (out.new ≡ out.old ++ item_bytes 0x40 (trove_bytes trove.now)) }
    ensures trove { OnOk result (IsTrove trove.now) }
    ensures fits { OnOk result (FitsTrove trove.now) }
{
    let begun = open_item(out, TROVE)?;
    let put = put_stream(alloc, out, begun.at, trove);
    close_item(out, begun, put)
}

// Appends the items of troves.
fn put_troves(alloc: Global, out: &mut Bytes, troves: &[Trove]) -> Result<(), OutOfMemory>
    ensures value { OnOk result (out.new ≡ out.old ++ items_bytes trove_bytes 0x40 troves.now) }
    ensures troves { OnOk result (All IsTrove troves.now) }
    ensures fits { OnOk result (All FitsTrove troves.now) }
{
    for trove in troves {
        put_trove(alloc, out, trove)?;
    }
    Ok(())
}

/// The stream of a commit of these troves; want of memory also where the stream of one of them has no room in an item.
pub fn encode_commit(alloc: Global, troves: &[Trove]) -> Result<Bytes, OutOfMemory>
    ensures value { IfOk result (λ bytes. bytes ≡ commit_bytes troves.now) }
    ensures troves { OnOk result (All IsTrove troves.now) }
    ensures fits { OnOk result (All FitsTrove troves.now) }
{
    let mut out = Bytes::new(alloc, MAGIC)?;
    put_troves(alloc, &mut out, troves)?;
    put_item(&mut out, END, &[])?;
    Ok(out)
}
