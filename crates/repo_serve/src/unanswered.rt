//! What was given of a stream of requests and isn't answered yet.
ghost use Rattle.std.specs.Prelude.{◌≤◌};
ghost use Rattle.repo_load.specs.cny-base.declared.limits.TheConstants.{MESSAGE_LIMIT};
ghost use Rattle.repo_mirror.specs.declared.request.TheConstants.{REQUESTS_LIMIT};

use crate::answering::Answered;
use repo_load::cny_base::Bytes;

/// How much of a stream was answered, and what was given behind that.
pub(crate) struct Unanswered {
    pub(crate) answered: Answered,
    // Whether the magic was there.
    pub(crate) begun: bool,
    // Before the magic is whole, all that was given; then what stands behind the last request that was answered.
    pub(crate) tail: Bytes,
    ghost few: { answered.number ≤ REQUESTS_LIMIT },
    ghost room: { answered.sent ≤ MESSAGE_LIMIT },
}

// Written by hand, so that to let a value go is a single call wherever a function ends early.
impl Drop for Unanswered {
    fn drop(self) {
        let Unanswered {
            answered: _,
            begun: _,
            tail: _tail,
        } = self;
    }
}
