//! Laws of records.
ghost use Rattle.std.specs.Prelude.{◌≡◌, ℕ, List, length};
ghost use Rattle.local_db.specs.Record.{Entry};
ghost use Rattle.local_db.specs.declared.format.Format.{Format};
ghost use Rattle.job_targets.specs.tree-disk.Tree.{Tree};
ghost use Rattle.job_targets.specs.trove-stream.declared.parts.TroveParts.{TroveParts};
ghost use Rattle.rollback_stack.specs.JobReading.{HoldsRecord, HoldsRecords};

use change_rel::trove_stream::one_result;
use job_targets::trove_parts::distinct_ids;
use job_targets::trove_stream::{distinct_rels, distinct_troves};

/// A tree holds no more than one record of a number: one list before the job and one row of entries, by the list after it. So it
/// holds no more than one row of so many records from a number down.
pub fn one_record()
    ensures one { (f : Format) (x : Tree) (n : ℕ) (after before other : List TroveParts) (es ds : List Entry)
        → HoldsRecord f x n after before es → HoldsRecord f x n after other ds → (before ≡ other) × (es ≡ ds) }
    ensures several { (f : Format) (x : Tree) (n : ℕ) (after before other : List TroveParts) (jobs others : List (List Entry))
        → length jobs ≡ length others → HoldsRecords f x n after jobs before → HoldsRecords f x n after others other
        → (before ≡ other) × (jobs ≡ others) }
{
    distinct_ids();
    distinct_troves();
    distinct_rels();
    one_result();
}
