//! The list after a job, as a list of a system.
ghost use Rattle.std.specs.Prelude.{All};
ghost use Rattle.rollback_stack.specs.trove-stream.Trove.{IsTrove};

use rollback_stack::trove_stream::Trove;

/// Each of them keeps the rules of troves. It does nothing: its clause is for the proofs of its callers.
pub fn troves_keep_rules(troves: &[Trove])
    ensures { All IsTrove troves.now }
{
    for trove in troves {
        let _id = trove.id();
    }
}
