//! The reply to a request.
ghost use Rattle.std.specs.Prelude.{◌≤◌, IfOk, IsTrue};
ghost use Rattle.repo_load.specs.cny-base.declared.limits.TheConstants.{MESSAGE_LIMIT};
ghost use Rattle.repo_load.specs.Files.{HoldsCatalogue};
ghost use Rattle.repo_mirror.specs.Requests.{IsRequest};
ghost use Rattle.repo_mirror.specs.declared.request.Request.TheVariants.{Named};
ghost use Rattle.repo_serve.specs.Answers.{Answers};
ghost use Rattle.repo_serve.specs.Serving.{IsDamagedFor};
ghost use Rattle.repo_serve.specs.Steps.{HasReplied, IsUnansweredOf};

use crate::contents::content_of;
use crate::ids::named;
use crate::sets::missing_of;
use repo_index::Catalogue;
use repo_load::cny_base::{Bytes, Name, Stop};
use repo_load::tree_disk::TreeDisk;
use repo_load::{one_repository, stored_state};
use repo_mirror::Request;
use std::alloc::Global;

// Appends the reply with the ids of a name. The disk isn't asked.
fn named_on<D: TreeDisk>(
    alloc: Global,
    disk: &mut D,
    catalogue: &Catalogue,
    name: &Name,
    sent: u64,
    out: &mut Bytes,
) -> Result<u64, Stop>
    requires { IsTrue D.disk.tells → HoldsCatalogue (D.disk.reads disk.old) catalogue.now }
    ensures answers { Answers D.disk (λ tree to. HasReplied (Named name.now) sent tree out.old out.new to) (IsUnansweredOf (Named name.now) sent)
        (IsDamagedFor catalogue.now.troves (Named name.now)) disk.old disk.new result }
    ensures room { IfOk result (λ to. to ≤ MESSAGE_LIMIT) }
{
    stored_state();
    one_repository();
    let _disk = disk;
    Ok(named(alloc, catalogue, name, sent, out)?)
}

// Appends the reply to a request, and tells how many bytes the stream of replies has with it and its end, which had so many.
fn reply_to<D: TreeDisk>(
    alloc: Global,
    disk: &mut D,
    catalogue: &Catalogue,
    request: &Request,
    sent: u64,
    out: &mut Bytes,
) -> Result<u64, Stop>
    requires valid { IsRequest request.now }
    requires holds { IsTrue D.disk.tells → HoldsCatalogue (D.disk.reads disk.old) catalogue.now }
    ensures answers { Answers D.disk (λ tree to. HasReplied request.now sent tree out.old out.new to) (IsUnansweredOf request.now sent)
        (IsDamagedFor catalogue.now.troves request.now) disk.old disk.new result }
    ensures room { IfOk result (λ to. to ≤ MESSAGE_LIMIT) }
{
    match request {
        Request::Named(name) => named_on(alloc, disk, catalogue, name, sent, out),
        Request::Content(name) => content_of(alloc, disk, catalogue, name, sent, out),
        Request::Missing(ids) => missing_of(alloc, disk, catalogue, ids.get(), sent, out),
    }
}

/// Appends the reply to a request, and tells how many bytes the stream of replies has with it and its end, which had so many.
/// `TooLarge` where there is none: what is missing is too much to be sent, or these are more than a message may have. What was put
/// before a stop is cut off.
pub(crate) fn put_reply<D: TreeDisk>(
    alloc: Global,
    disk: &mut D,
    catalogue: &Catalogue,
    request: &Request,
    sent: u64,
    out: &mut Bytes,
) -> Result<u64, Stop>
    requires valid { IsRequest request.now }
    requires holds { IsTrue D.disk.tells → HoldsCatalogue (D.disk.reads disk.old) catalogue.now }
    ensures answers { Answers D.disk (λ tree to. HasReplied request.now sent tree out.old out.new to) (IsUnansweredOf request.now sent)
        (IsDamagedFor catalogue.now.troves request.now) disk.old disk.new result }
    ensures room { IfOk result (λ to. to ≤ MESSAGE_LIMIT) }
{
    let before = out.get().len();
    match reply_to(alloc, disk, catalogue, request, sent, out) {
        Ok(to) => Ok(to),
        Err(stop) => {
            out.truncate(before);
            Err(stop)
        }
    }
}
