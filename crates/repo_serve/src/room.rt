//! The room that replies have in a message.
ghost use Rattle.std.specs.Prelude.{◌≡◌, ◌+◌, ◌≤◌, IfErr, IfOk, OnOk};
ghost use Rattle.repo_load.specs.cny-base.declared.limits.TheConstants.{MESSAGE_LIMIT};
ghost use Rattle.repo_serve.specs.Room.{IsLongOrMemory};

use repo_load::cny_base::{Fault, MESSAGE_LIMIT, OutOfMemory, Refusal, What};

// The sum. Where it has no room the answer is want of memory, since no machine holds so many bytes.
pub(crate) fn sum_of(one: u64, other: u64) -> Result<u64, OutOfMemory>
    ensures { IfOk result (λ sum. sum ≡ one + other) }
{
    one.checked_add(other).ok_or(OutOfMemory)
}

/// The length of the stream of replies with one more reply, given both lengths, that of the stream with its end. `TooLarge` with
/// that length exactly where it is more than a message may have.
pub(crate) fn with_reply(sent: u64, len: u64) -> Result<u64, Fault>
    ensures value { IfOk result (λ sum. sum ≡ sent + len) }
    ensures room { OnOk result (sent + len ≤ MESSAGE_LIMIT) }
    ensures refused { IfErr result (IsLongOrMemory (sent + len)) }
{
    let size = sum_of(sent, len)?;
    if size > MESSAGE_LIMIT as u64 {
        return Err(Fault::Refused(Refusal::TooLarge {
            what: What::Message,
            size,
        }));
    }
    Ok(size)
}
