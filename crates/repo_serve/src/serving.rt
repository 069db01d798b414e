//! A whole stream of requests is answered.
ghost use Rattle.std.specs.Prelude.{◌≡◌, ◌≤◌, IfErr, IsTrue, OnOk, drop, length, true};
ghost use Rattle.repo_load.specs.cny-base.Below.{begins_with};
ghost use Rattle.repo_load.specs.Files.{HoldsCatalogue};
ghost use Rattle.repo_mirror.specs.Faults.{IsMalformed, LacksMagic};
ghost use Rattle.repo_mirror.specs.Requests.{request_end, request_magic};
ghost use Rattle.repo_serve.specs.Serving.{Serves};
ghost use Rattle.repo_serve.specs.Steps.{IsLastFault};

use crate::answering::{Answered, answer_all};
use repo_index::Catalogue;
use repo_load::cny_base::{Bytes, Fault, Refusal, Stop};
use repo_load::tree_disk::TreeDisk;
use repo_mirror::{REQUEST_END, REQUEST_MAGIC};
use std::alloc::Global;

// `CNYRP01` and a line feed.
pub(crate) const MAGIC: &[u8] = b"CNYRP01\n";

// The item at the end of a stream of replies.
pub(crate) const END: &[u8] = &[0x8f, 0, 0, 0, 0];

// The item at the end of a stream of requests.
pub(crate) const LAST: &[u8] = &[REQUEST_END, 0, 0, 0, 0];

// The refusal of a fault at a place.
fn malformed(at: usize) -> Fault
    ensures { result ≡ Fault.Refused (Refusal.Malformed at) }
{
    Fault::Refused(Refusal::Malformed { at: at as u64 })
}

// The place of the fault where the bytes don't begin with the magic.
fn check_magic(requests: &[u8]) -> Result<(), Fault>
    ensures ok { OnOk result (begins_with request_magic requests.now ≡ true) }
    ensures refused { IfErr result (IsMalformed (LacksMagic request_magic requests.now)) }
{
    if requests.starts_with(REQUEST_MAGIC) {
        return Ok(());
    }
    let len = requests.len();
    Err(malformed(if len < REQUEST_MAGIC.len() { len } else { 0 }))
}

// Whether nothing but the end item stands at a place where no request does.
fn check_end(requests: &[u8], at: usize) -> Result<(), Fault>
    requires { at ≤ length requests.now }
    ensures ok { OnOk result (drop at requests.now ≡ request_end) }
    ensures refused { IfErr result (IsMalformed (IsLastFault requests.now at)) }
{
    let rest = &requests[at..];
    if !rest.starts_with(LAST) {
        return Err(malformed(requests.len()));
    }
    if rest.len() != LAST.len() {
        return Err(malformed(at + LAST.len()));
    }
    Ok(())
}

/// The stream of replies to a whole stream of requests. The first item that isn't answered decides: `Malformed` with its place
/// where it is at fault; `TooLarge` of a change set where what is missing is too much to be sent; and `TooLarge` of a message, with
/// the length that the stream of replies would have with its end, where that is more than 268,435,456 bytes. Such a reply isn't made.
///
/// `Damaged` names the file of a content that is asked for, or goes with missing troves, and that doesn't stand there as the
/// troves record it. `Failed` comes only where the disk's count of faults rose. No name changes, however it ends.
pub fn serve<D: TreeDisk>(
    alloc: Global,
    disk: &mut D,
    catalogue: &Catalogue,
    requests: &[u8],
) -> Result<Bytes, Stop>
    requires { IsTrue D.disk.tells → HoldsCatalogue (D.disk.reads disk.old) catalogue.now }
    ensures { Serves D.disk catalogue.now.troves requests.now disk.old disk.new result }
{
    check_magic(requests)?;
    let mut out = Bytes::new(alloc, MAGIC)?;
    let mut answered = Answered::new();
    let (_magic, items) = requests.split_at(REQUEST_MAGIC.len());
    let used = answer_all(alloc, disk, catalogue, &mut answered, items, &mut out)?;
    check_end(requests, REQUEST_MAGIC.len() + used)?;
    out.push_slice(END)?;
    Ok(out)
}
