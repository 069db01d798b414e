//! The end of a stream of requests that came in pieces.
ghost use Rattle.std.specs.Prelude.{◌≡◌, ◌↔◌, true, IfOk, IsTrue, List, length, ℕ};
ghost use Rattle.repo_load.specs.State.{RepositoryState};
ghost use Rattle.repo_mirror.specs.Requests.{request_end};
ghost use Rattle.repo_serve.specs.Sessions.{HasEnded, IsOpen};

use crate::room::sum_of;
use crate::serving::{END, LAST};
use crate::unanswered::Unanswered;
use repo_load::cny_base::{Bytes, Fault, OutOfMemory, Refusal};

// How many bytes were given.
fn given_len(it: &Unanswered) -> Result<u64, OutOfMemory>
    ensures { (r : RepositoryState) (given gained : List ℕ) → IsOpen r it.now given gained → IfOk result (λ len. len ≡ length given) }
{
    let tail = it.tail.get().len() as u64;
    if it.begun {
        sum_of(it.answered.at, tail)
    } else {
        Ok(tail)
    }
}

// Whether the end of the requests stands there.
fn is_ended(it: &Unanswered) -> bool
    ensures { IsTrue result ↔ ((it.now.begun ≡ true) × (it.now.tail ≡ request_end)) }
{
    it.begun && it.tail.get() == LAST
}

/// Appends the end of the replies, where the end of the requests stands there; else the stream ends too early.
pub(crate) fn end_of_replies(it: &Unanswered, out: &mut Bytes) -> Result<(), Fault>
    ensures { (r : RepositoryState) (given gained : List ℕ) → IsOpen r it.now given gained → HasEnded r given gained out.old out.new result }
{
    if is_ended(it) {
        out.push_slice(END)?;
        return Ok(());
    }
    let at = given_len(it)?;
    Err(Fault::Refused(Refusal::Malformed { at }))
}
