//! A piece of a stream of requests is answered.
ghost use Rattle.std.specs.Prelude.{◌≡◌, ◌≤◌, ◌++◌, IfErr, IsTrue, OnOk, drop, length};
ghost use Rattle.repo_load.specs.Files.{HoldsCatalogue};
ghost use Rattle.repo_load.specs.cny-base.Below.{begins_with};
ghost use Rattle.repo_mirror.specs.Faults.{IsMalformed};
ghost use Rattle.repo_mirror.specs.Requests.{request_magic};
ghost use Rattle.repo_serve.specs.Answers.{Answers};
ghost use Rattle.repo_serve.specs.Sessions.{Begins, HasTaken, HasUnsound, IfRefused, IsBehindEnd, IsLast, IsOtherMagic, IsRefusedPiece, TakesAll};
ghost use Rattle.repo_serve.specs.Steps.{IsDamagedBehind, IsDecided};

use crate::answering::answer_all;
use crate::room::sum_of;
use crate::serving::{LAST, MAGIC};
use crate::unanswered::Unanswered;
use repo_index::Catalogue;
use repo_load::cny_base::{Bytes, Fault, OutOfMemory, Refusal, Stop};
use repo_load::tree_disk::TreeDisk;
use repo_mirror::REQUEST_MAGIC;
use std::alloc::Global;

// Cuts off the first bytes.
fn cut_front(alloc: Global, tail: &mut Bytes, used: usize) -> Result<(), OutOfMemory>
    requires { used ≤ length tail.old }
    ensures { OnOk result (tail.new ≡ drop used tail.old) }
{
    if used > 0 {
        let rest = Bytes::new(alloc, &tail.get()[used..])?;
        *tail = rest;
    }
    Ok(())
}

// Whether the magic of a stream of requests stands there.
fn has_magic(bytes: &[u8]) -> bool
    ensures { result ≡ begins_with request_magic bytes.now }
{
    bytes.starts_with(REQUEST_MAGIC)
}

// Where the magic wasn't there and is whole, takes it, and begins the replies.
fn begin(alloc: Global, it: &mut Unanswered, out: &mut Bytes) -> Result<(), Fault>
    ensures ok { OnOk result (Begins it.old it.new out.old out.new) }
    ensures refused { IfErr result (IfRefused (IsOtherMagic it.old)) }
{
    if it.begun || it.tail.get().len() < REQUEST_MAGIC.len() {
        return Ok(());
    }
    if !has_magic(it.tail.get()) {
        return Err(Fault::Refused(Refusal::Malformed { at: 0 }));
    }
    cut_front(alloc, &mut it.tail, REQUEST_MAGIC.len())?;
    out.push_slice(MAGIC)?;
    it.begun = true;
    Ok(())
}

// Answers all requests that stand at the front of what is left.
fn answer_tail<D: TreeDisk>(
    alloc: Global,
    disk: &mut D,
    catalogue: &Catalogue,
    it: &mut Unanswered,
    out: &mut Bytes,
) -> Result<(), Stop>
    requires { IsTrue D.disk.tells → HoldsCatalogue (D.disk.reads disk.old) catalogue.now }
    ensures { Answers D.disk (λ tree done. TakesAll tree it.old it.new out.old out.new) (λ tree refusal. IsDecided tree it.old.answered it.old.tail refusal)
        (IsDamagedBehind catalogue.now.troves it.old.answered it.old.tail) disk.old disk.new result }
{
    let mut answered = it.answered;
    let used = answer_all(alloc, disk, catalogue, &mut answered, it.tail.get(), out)?;
    it.answered = answered;
    cut_front(alloc, &mut it.tail, used)?;
    Ok(())
}

// Whether nothing stands behind the end.
fn check_rest(it: &Unanswered) -> Result<(), Fault>
    ensures ok { OnOk result (IsLast it.now.tail) }
    ensures refused { IfErr result (IsMalformed (IsBehindEnd it.now)) }
{
    let tail = it.tail.get();
    if tail.starts_with(LAST) && tail.len() > LAST.len() {
        let at = sum_of(it.answered.at, LAST.len() as u64)?;
        return Err(Fault::Refused(Refusal::Malformed { at }));
    }
    Ok(())
}

/// Takes the next bytes of a stream that isn't refused yet, and appends to `out` the replies to the requests whose items are whole now.
pub(crate) fn take_piece<D: TreeDisk>(
    alloc: Global,
    disk: &mut D,
    catalogue: &Catalogue,
    it: &mut Unanswered,
    piece: &[u8],
    out: &mut Bytes,
) -> Result<(), Stop>
    requires { IsTrue D.disk.tells → HoldsCatalogue (D.disk.reads disk.old) catalogue.now }
    ensures { Answers D.disk (λ tree done. HasTaken tree it.old it.new piece.now out.old out.new) (λ tree refusal. IsRefusedPiece tree it.old piece.now refusal)
        (HasUnsound catalogue.now.troves) disk.old disk.new result }
{
    it.tail.push_slice(piece)?;
    begin(alloc, it, out)?;
    if it.begun {
        answer_tail(alloc, disk, catalogue, it, out)?;
        check_rest(it)?;
        return Ok(());
    }
    Ok(())
}
