//! The reply with a content.
ghost use Rattle.std.specs.Prelude.{◌≡◌, ◌+◌, ◌++◌, ◌≤◌, IfOk, IsTrue, List, OnOk, length, ℕ};
ghost use Rattle.cny_stream.specs.Item.{item_bytes};
ghost use Rattle.repo_load.specs.cny-base.declared.limits.TheConstants.{MESSAGE_LIMIT};
ghost use Rattle.repo_load.specs.Files.{HoldsCatalogue};
ghost use Rattle.repo_load.specs.Looks.{Looks, no_damage};
ghost use Rattle.repo_mirror.specs.declared.request.Request.TheVariants.{Content};
ghost use Rattle.repo_serve.specs.Answers.{Answers};
ghost use Rattle.repo_serve.specs.Reply.{content_reply};
ghost use Rattle.repo_serve.specs.Serving.{IsDamagedFor};
ghost use Rattle.repo_serve.specs.Steps.{HasReplied, IsUnansweredOf};

use crate::room::{sum_of, with_reply};
use cny_stream::{close_item, open_item, put_item};
use repo_index::Catalogue;
use repo_load::cny_base::{Bytes, OutOfMemory, Stop};
use repo_load::tree_disk::{TreeDisk, steps};
use repo_load::{content, content_path, one_repository, stored_state};
use std::alloc::Global;

// The tag of a reply with a content.
const FOUND: u8 = 0x81;

// The tag of a reply that there is none.
const NONE: u8 = 0x82;

// The head of the item, and the name.
const HEAD_LEN: u64 = 25;

// The length of the reply with what was found.
fn reply_len(found: &Option<Bytes>) -> Result<u64, OutOfMemory>
    ensures { (name : List ℕ) → length name ≡ 20 → IfOk result (λ len. len ≡ length (content_reply name found.now)) }
{
    match found {
        Some(bytes) => sum_of(HEAD_LEN, bytes.get().len() as u64),
        None => Ok(HEAD_LEN),
    }
}

// Appends the name and the bytes of a content.
fn put_named(out: &mut Bytes, name: &[u8; 20], bytes: &Bytes) -> Result<(), OutOfMemory>
    ensures { OnOk result (out.new ≡ out.old ++ (name.now ++ bytes.now)) }
{
    out.push_slice(name)?;
    out.push_slice(bytes.get())?;
    Ok(())
}

/// Appends the item of a content under this tag.
pub(crate) fn put_content(
    out: &mut Bytes,
    tag: u8,
    name: &[u8; 20],
    bytes: &Bytes,
) -> Result<(), OutOfMemory>
    requires { length (name.now ++ bytes.now) ≤ MESSAGE_LIMIT }
    ensures { OnOk result (out.new ≡ out.old ++ item_bytes tag (name.now ++ bytes.now)) }
{
    let begun = open_item(out, tag)?;
    let put = put_named(out, name, bytes);
    close_item(out, begun, put)
}

// Appends the reply with what was found.
fn put_found(out: &mut Bytes, name: &[u8; 20], found: &Option<Bytes>) -> Result<(), OutOfMemory>
    requires { length (content_reply name.now found.now) ≤ MESSAGE_LIMIT }
    ensures { OnOk result (out.new ≡ out.old ++ content_reply name.now found.now) }
{
    match found {
        Some(bytes) => put_content(out, FOUND, name, bytes),
        None => put_item(out, NONE, name),
    }
}

// The size of the file that stands under the name, if one does.
fn stored_size<D: TreeDisk>(
    alloc: Global,
    disk: &mut D,
    name: &[u8; 20],
) -> Result<Option<u64>, Stop>
    ensures { Looks D.disk (λ tree size. Unit {0}) no_damage disk.old disk.new result }
{
    let path = content_path(alloc, name)?;
    let look = steps::look(alloc, disk, &path)?;
    Ok(look.size())
}

// `TooLarge` where the reply with the content would be too long, as the size of its file tells, which isn't read. A file whose size
// isn't recorded tells nothing.
fn check_room<D: TreeDisk>(
    alloc: Global,
    disk: &mut D,
    catalogue: &Catalogue,
    name: &[u8; 20],
    sent: u64,
) -> Result<(), Stop>
    requires { IsTrue D.disk.tells → HoldsCatalogue (D.disk.reads disk.old) catalogue.now }
    ensures { Answers D.disk (λ tree done. Unit {0}) (IsUnansweredOf (Content name.now) sent) no_damage disk.old disk.new result }
{
    stored_state();
    if !catalogue.has_content(name) {
        return Ok(());
    }
    let Some(size) = stored_size(alloc, disk, name)? else {
        return Ok(());
    };
    if catalogue.records_content(name, size as usize) {
        with_reply(sent, sum_of(HEAD_LEN, size)?)?;
    }
    Ok(())
}

// Appends the reply with the content of a name, as it is read. `TooLarge` where it would make the replies too long, and then it isn't
// made.
fn read_content<D: TreeDisk>(
    alloc: Global,
    disk: &mut D,
    catalogue: &Catalogue,
    name: &[u8; 20],
    sent: u64,
    out: &mut Bytes,
) -> Result<u64, Stop>
    requires { IsTrue D.disk.tells → HoldsCatalogue (D.disk.reads disk.old) catalogue.now }
    ensures answers { Answers D.disk (λ tree to. HasReplied (Content name.now) sent tree out.old out.new to) (IsUnansweredOf (Content name.now) sent)
        (IsDamagedFor catalogue.now.troves (Content name.now)) disk.old disk.new result }
    ensures room { IfOk result (λ to. to ≤ MESSAGE_LIMIT) }
{
    stored_state();
    one_repository();
    let found = content(alloc, disk, catalogue, name)?;
    let to = with_reply(sent, reply_len(&found)?)?;
    put_found(out, name, &found)?;
    Ok(to)
}

/// Appends the reply with the content of a name, and tells how many bytes the stream of replies has with it and its end, which had so
/// many. `TooLarge` where these are more than a message may have; then the content isn't read.
pub(crate) fn content_of<D: TreeDisk>(
    alloc: Global,
    disk: &mut D,
    catalogue: &Catalogue,
    name: &[u8; 20],
    sent: u64,
    out: &mut Bytes,
) -> Result<u64, Stop>
    requires { IsTrue D.disk.tells → HoldsCatalogue (D.disk.reads disk.old) catalogue.now }
    ensures answers { Answers D.disk (λ tree to. HasReplied (Content name.now) sent tree out.old out.new to) (IsUnansweredOf (Content name.now) sent)
        (IsDamagedFor catalogue.now.troves (Content name.now)) disk.old disk.new result }
    ensures room { IfOk result (λ to. to ≤ MESSAGE_LIMIT) }
{
    check_room(alloc, disk, catalogue, name, sent)?;
    read_content(alloc, disk, catalogue, name, sent, out)
}
