//! Laws of messages.
ghost use Rattle.std.specs.Prelude.{◌≡◌, ℕ, List};
ghost use Rattle.change_set.specs.declared.change.ChangeSet.{ChangeSet};
ghost use Rattle.repo_mirror.specs.Replies.{IsReplyFault, IsSetReply};

use change_set::unique_set;

/// Bytes are the reply with one change set at most, or have one first fault, and not both.
pub fn one_reply()
    ensures unique { (set other : ChangeSet) (bytes : List ℕ) → IsSetReply set bytes → IsSetReply other bytes → set ≡ other }
    ensures excluded { (set : ChangeSet) (bytes : List ℕ) (place : ℕ) → IsSetReply set bytes → IsReplyFault bytes place → ⊥ }
    ensures one_place { (bytes : List ℕ) (place other : ℕ) → IsReplyFault bytes place → IsReplyFault bytes other → place ≡ other }
{
    unique_set();
}
