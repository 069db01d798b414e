//! Requests are answered, one behind the other.
ghost use Rattle.std.specs.Prelude.{◌≡◌, ◌+◌, ◌<◌, ◌≤◌, IfErr, IfOk, IfSome, IsTrue, MatchOption, OnOk, length};
ghost use Rattle.repo_load.specs.Files.{HoldsCatalogue};
ghost use Rattle.repo_mirror.specs.declared.request.TheConstants.{REQUESTS_LIMIT};
ghost use Rattle.repo_serve.specs.Answers.{Answers};
ghost use Rattle.repo_serve.specs.Steps.{AnswersAll, AnswersOne, Decides, IsDamagedBehind, IsDamagedNext, IsDecided, IsFaultOrMemory, IsNext, IsOver, IsWithin};

use crate::reading::{Next, next_request};
use crate::replying::put_reply;
use crate::room::sum_of;
use repo_index::Catalogue;
use repo_load::cny_base::{Bytes, Fault, Refusal, Stop, TextFault};
use repo_load::tree_disk::TreeDisk;
use std::alloc::Global;

/// How much of a stream was answered.
#[derive(Clone, Copy)]
pub(crate) struct Answered {
    // How many requests.
    pub(crate) number: usize,
    // Where the next item begins.
    pub(crate) at: u64,
    // How long the stream of replies is, with its end.
    pub(crate) sent: u64,
}

impl Answered {
    /// The magic of both streams, and the end of the replies.
    pub(crate) fn new() -> Self
        ensures number { result.number ≡ 0 }
        ensures at { result.at ≡ 8 }
        ensures sent { result.sent ≡ 13 }
        ensures within { IsWithin result }
    {
        Answered {
            number: 0,
            at: 8,
            sent: 13,
        }
    }
}

// The next request, or the refusal of an item that is at fault.
fn next_in(alloc: Global, bytes: &[u8], answered: &Answered) -> Result<Option<Next>, Fault>
    ensures next { IfOk result (λ next. MatchOption next (IsOver answered.now.number bytes.now) (λ it. IsNext answered.now.number bytes.now it.request it.to)) }
    ensures refused { IfErr result (IsFaultOrMemory answered.now bytes.now) }
{
    match next_request(alloc, bytes, answered.number) {
        Ok(next) => Ok(next),
        Err(TextFault::Bad) => Err(Fault::Refused(Refusal::Malformed { at: answered.at })),
        Err(TextFault::Memory) => Err(Fault::Memory),
    }
}

// One more request was answered: up to where its item ends, and how long the stream of replies is with its reply.
fn move_on(answered: &mut Answered, at: u64, sent: u64)
    requires { answered.old.number < REQUESTS_LIMIT }
    ensures number { answered.new.number ≡ answered.old.number + 1 }
    ensures at { answered.new.at ≡ at }
    ensures sent { answered.new.sent ≡ sent }
{
    answered.number += 1;
    answered.at = at;
    answered.sent = sent;
}

// Answers the next request, and tells where its item ends; or that there is none.
fn answer_one<D: TreeDisk>(
    alloc: Global,
    disk: &mut D,
    catalogue: &Catalogue,
    answered: &mut Answered,
    bytes: &[u8],
    out: &mut Bytes,
) -> Result<Option<usize>, Stop>
    requires within { IsWithin answered.old }
    requires holds { IsTrue D.disk.tells → HoldsCatalogue (D.disk.reads disk.old) catalogue.now }
    ensures answers { Answers D.disk (λ tree next. AnswersOne tree answered.old answered.new bytes.now out.old out.new next)
        (λ tree refusal. Decides tree answered.old bytes.now refusal)
        (IsDamagedNext catalogue.now.troves answered.old.number bytes.now) disk.old disk.new result }
    ensures within { OnOk result (IsWithin answered.new) }
    ensures end { IfOk result (λ next. IfSome next (λ to. (0 < to) × (to ≤ length bytes.now))) }
{
    let Some(next) = next_in(alloc, bytes, answered)? else {
        return Ok(None);
    };
    let at = sum_of(answered.at, next.to as u64)?;
    let sent = put_reply(alloc, disk, catalogue, &next.request, answered.sent, out)?;
    move_on(answered, at, sent);
    Ok(Some(next.to))
}

/// Answers the requests whose items are whole, up to the end or to an item that isn't whole, and tells how many bytes they have.
pub(crate) fn answer_all<D: TreeDisk>(
    alloc: Global,
    disk: &mut D,
    catalogue: &Catalogue,
    answered: &mut Answered,
    bytes: &[u8],
    out: &mut Bytes,
) -> Result<usize, Stop>
    requires within { IsWithin answered.old }
    requires holds { IsTrue D.disk.tells → HoldsCatalogue (D.disk.reads disk.old) catalogue.now }
    ensures answers { Answers D.disk (λ tree used. AnswersAll tree answered.old answered.new bytes.now out.old out.new used)
        (λ tree refusal. IsDecided tree answered.old bytes.now refusal)
        (IsDamagedBehind catalogue.now.troves answered.old bytes.now) disk.old disk.new result }
    ensures within { OnOk result (IsWithin answered.new) }
    ensures used { IfOk result (λ used. used ≤ length bytes.now) }
{
    let mut used = 0;
    'requests: while let Some(to) = answer_one(
        alloc,
        disk,
        catalogue,
        answered,
        &bytes[used..],
        out,
    )? {
        used += to;
    }
    Ok(used)
}
