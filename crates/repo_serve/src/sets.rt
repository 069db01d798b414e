//! The reply with a change set.
ghost use Rattle.std.specs.Prelude.{◌≡◌, ◌++◌, ◌≤◌, ◌∷◌, [], IfOk, IsTrue, None, OnOk};
ghost use Rattle.std.specs.Int.{to_be_bytes, w32};
ghost use Rattle.repo_load.specs.cny-base.declared.limits.TheConstants.{MESSAGE_LIMIT};
ghost use Rattle.repo_load.specs.trove-parts.Refs.{AreRefs};
ghost use Rattle.repo_load.specs.Files.{HoldsCatalogue};
ghost use Rattle.repo_load.specs.Looks.{Looks};
ghost use Rattle.repo_index.specs.Catalogue.{AreCommitted};
ghost use Rattle.repository.specs.Damage.{IsDamagedBetween};
ghost use Rattle.repo_mirror.specs.declared.request.Request.TheVariants.{Missing};
ghost use Rattle.repo_mirror.specs.Lengths.{set_length};
ghost use Rattle.repo_mirror.specs.Missing.{too_much};
ghost use Rattle.repo_serve.specs.Answers.{Answers};
ghost use Rattle.repo_serve.specs.Serving.{IsDamagedFor};
ghost use Rattle.repo_serve.specs.Steps.{HasPutReply, HasReplied, IsUnansweredOf};

use crate::carrying::put_set;
use crate::room::{sum_of, with_reply};
use crate::wanted::wanted_by;
use repo_index::Catalogue;
use repo_load::cny_base::{Bytes, OutOfMemory, Stop};
use repo_load::tree_disk::TreeDisk;
use repo_load::trove_parts::TroveId;
use repo_load::trove_stream::Trove;
use repo_load::{content_path, counts, one_repository, stored_state};
use repo_mirror::{commits_told, missing, sent_length};
use repository::{absolute_set, stored_between};
use std::alloc::Global;

// The tag of a reply with a change set.
const SET: u8 = 0x84;

// The head of an item.
const HEAD_LEN: u64 = 5;

// Appends the head of the reply, whose stream has so many bytes.
fn put_head(out: &mut Bytes, len: u32) -> Result<(), OutOfMemory>
    ensures { OnOk result (out.new ≡ out.old ++ (0x84 ∷ to_be_bytes w32 len)) }
{
    let [a, b, c, d] = len.to_be_bytes();
    out.push_slice(&[SET, a, b, c, d])
}

// Appends the item of the absolute change set of troves that may be sent at once, and whose stream has so many bytes.
fn absolute<D: TreeDisk>(
    alloc: Global,
    disk: &mut D,
    catalogue: &Catalogue,
    troves: &[Trove],
    size: u64,
    out: &mut Bytes,
) -> Result<(), Stop>
    requires committed { AreCommitted catalogue.now.troves troves.now }
    requires small { too_much troves.now ≡ None }
    requires size { size ≡ set_length troves.now }
    ensures { Looks D.disk (λ tree done. HasPutReply troves.now tree out.old out.new) (IsDamagedBetween [] troves.now) disk.old disk.new result }
{
    absolute_set();
    sent_length();
    match wanted_by(alloc, troves)? {
        Ok(wanted) => {
            put_head(out, size as u32)?;
            put_set(alloc, disk, catalogue, troves, wanted.as_slice(), out)
        }
        Err(name) => Err(Stop::Damaged {
            path: content_path(alloc, &name)?,
        }),
    }
}

/// Appends the reply with the troves that have none of these ids, and tells how many bytes the stream of replies has with it and its
/// end, which had so many. `TooLarge` where they are too much to be sent, or where these are more than a message may have; then no
/// content is read.
pub(crate) fn missing_of<D: TreeDisk>(
    alloc: Global,
    disk: &mut D,
    catalogue: &Catalogue,
    ids: &[TroveId],
    sent: u64,
    out: &mut Bytes,
) -> Result<u64, Stop>
    requires ids { AreRefs ids.now }
    requires holds { IsTrue D.disk.tells → HoldsCatalogue (D.disk.reads disk.old) catalogue.now }
    ensures answers { Answers D.disk (λ tree to. HasReplied (Missing ids.now) sent tree out.old out.new to) (IsUnansweredOf (Missing ids.now) sent)
        (IsDamagedFor catalogue.now.troves (Missing ids.now)) disk.old disk.new result }
    ensures room { IfOk result (λ to. to ≤ MESSAGE_LIMIT) }
{
    stored_state();
    stored_between();
    one_repository();
    commits_told();
    let counts = counts(alloc, disk, catalogue)?;
    let found = missing(alloc, catalogue, counts.get(), ids)?;
    let to = with_reply(sent, sum_of(HEAD_LEN, found.size)?)?;
    absolute(alloc, disk, catalogue, found.troves.get(), found.size, out)?;
    Ok(to)
}
