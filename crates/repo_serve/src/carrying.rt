//! The stream of an absolute change set, each content of which is written as it is read.
ghost use Rattle.std.specs.Prelude.{◌≡◌, ◌+◌, ◌++◌, ◌≤◌, [], true, Contains, IfOk, IsTrue, List, None, OnOk, flat_map, length, sum_by, ℕ};
ghost use Rattle.repo_load.specs.cny-base.declared.limits.TheConstants.{MESSAGE_LIMIT};
ghost use Rattle.repo_load.specs.trove-stream.FilesOf.{files_of};
ghost use Rattle.repo_load.specs.trove-stream.Stream.{trove_bytes};
ghost use Rattle.repo_load.specs.Looks.{Looks};
ghost use Rattle.repo_index.specs.Catalogue.{AreCommitted, has_content, records_content};
ghost use Rattle.repository.specs.change-set.ChangeSet.{part_bytes};
ghost use Rattle.repository.specs.change-set.declared.change.Part.TheVariants.{Whole};
ghost use Rattle.repository.specs.BetweenSteps.{IsHashed, IsStoredAs};
ghost use Rattle.repository.specs.Damage.{IsDamagedBetween};
ghost use Rattle.repo_mirror.specs.Lengths.{trove_length};
ghost use Rattle.repo_mirror.specs.Missing.{too_much};
ghost use Rattle.repo_serve.specs.Wanted.{name_and_size, AreWanted, HasCarried, HasCarriedOne, HasPutSet, IsOneOther, IsOther};

use crate::contents::put_content;
use cny_stream::{close_item, open_item, put_item};
use repo_index::Catalogue;
use repo_load::cny_base::{Bytes, OutOfMemory, Stop};
use repo_load::tree_disk::TreeDisk;
use repo_load::trove_stream::{Trove, encode};
use repo_load::{content, content_path};
use repository::absolute_set;
use repository::change_set::{CONTENT, Carried, END, TROVE};
use std::alloc::Global;

// `CNYCS01` and a line feed.
const MAGIC: &[u8] = b"CNYCS01\n";

// Appends the item of a trove.
fn put_trove(alloc: Global, out: &mut Bytes, trove: &Trove) -> Result<(), OutOfMemory>
    requires { length (trove_bytes trove.now) ≤ MESSAGE_LIMIT }
    ensures { OnOk result (out.new ≡ out.old ++ part_bytes (Whole trove.now)) }
{
    let begun = open_item(out, TROVE)?;
    let put = encode(alloc, trove, out);
    close_item(out, begun, put)
}

// Appends the items of troves.
fn put_troves(alloc: Global, out: &mut Bytes, troves: &[Trove]) -> Result<(), OutOfMemory>
    requires { sum_by trove_length troves.now ≤ MESSAGE_LIMIT }
    ensures { OnOk result (out.new ≡ out.old ++ flat_map (λ trove. part_bytes (Whole trove)) troves.now) }
{
    for trove in troves {
        put_trove(alloc, out, trove)?;
    }
    Ok(())
}

// The content of a name that a trove of the catalogue records with this size.
fn read_sized<D: TreeDisk>(
    alloc: Global,
    disk: &mut D,
    catalogue: &Catalogue,
    name: &[u8; 20],
    size: u32,
) -> Result<Carried, Stop>
    requires named { has_content name.now catalogue.now.troves ≡ true }
    requires sized { IsTrue (records_content name.now size catalogue.now.troves) }
    ensures looks { Looks D.disk IsStoredAs (IsOther name.now size) disk.old disk.new result }
    ensures is { IfOk result (λ content. name_and_size content ≡ (name.now, size)) }
    ensures hash { IfOk result IsHashed }
{
    let Some(bytes) = content(alloc, disk, catalogue, name)? else {
        unreachable!();
    };
    if bytes.get().len() != size as usize {
        return Err(Stop::Damaged {
            path: content_path(alloc, name)?,
        });
    }
    Ok(Carried { name: *name, bytes })
}

// Appends the item of the content of a name that a trove of the catalogue records with this size.
fn carry<D: TreeDisk>(
    alloc: Global,
    disk: &mut D,
    catalogue: &Catalogue,
    name: &[u8; 20],
    size: u32,
    out: &mut Bytes,
) -> Result<(), Stop>
    requires named { has_content name.now catalogue.now.troves ≡ true }
    requires sized { IsTrue (records_content name.now size catalogue.now.troves) }
    requires room { 20 + size ≤ MESSAGE_LIMIT }
    ensures { Looks D.disk (λ tree done. HasCarriedOne name.now size tree out.old out.new) (IsOther name.now size) disk.old disk.new result }
{
    let content = read_sized(alloc, disk, catalogue, name, size)?;
    put_content(out, CONTENT, &content.name, &content.bytes)?;
    Ok(())
}

// Appends the items of contents, each of which a trove of the catalogue records, one after the other as they are read.
fn carry_all<D: TreeDisk>(
    alloc: Global,
    disk: &mut D,
    catalogue: &Catalogue,
    wanted: &[([u8; 20], u32)],
    out: &mut Bytes,
) -> Result<(), Stop>
    requires named { (name : List ℕ) (size : ℕ) → Contains wanted.now (name, size) → has_content name catalogue.now.troves ≡ true }
    requires sized { (name : List ℕ) (size : ℕ) → Contains wanted.now (name, size) → IsTrue (records_content name size catalogue.now.troves) }
    requires room { (name : List ℕ) (size : ℕ) → Contains wanted.now (name, size) → 20 + size ≤ MESSAGE_LIMIT }
    ensures { Looks D.disk (λ tree done. HasCarried wanted.now tree out.old out.new) (IsOneOther wanted.now) disk.old disk.new result }
{
    for content in wanted {
        carry(alloc, disk, catalogue, &content.0, content.1, out)?;
    }
    Ok(())
}

/// Appends the stream of the absolute change set of troves that may be sent at once, and that record these contents. `Damaged` names
/// the file of a content that doesn't stand there as each of them records it.
pub(crate) fn put_set<D: TreeDisk>(
    alloc: Global,
    disk: &mut D,
    catalogue: &Catalogue,
    troves: &[Trove],
    wanted: &[([u8; 20], u32)],
    out: &mut Bytes,
) -> Result<(), Stop>
    requires committed { AreCommitted catalogue.now.troves troves.now }
    requires wanted { AreWanted (files_of troves.now) wanted.now }
    requires small { too_much troves.now ≡ None }
    ensures { Looks D.disk (λ tree done. HasPutSet troves.now tree out.old out.new) (IsDamagedBetween [] troves.now) disk.old disk.new result }
{
    absolute_set();
    out.push_slice(MAGIC)?;
    put_troves(alloc, out, troves)?;
    carry_all(alloc, disk, catalogue, wanted, out)?;
    put_item(out, END, &[])?;
    Ok(())
}
