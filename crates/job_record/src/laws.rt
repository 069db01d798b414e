//! Laws of records.
ghost use Rattle.std.specs.Prelude.{◌≡◌, List, ℕ};
ghost use Rattle.local_db.specs.trove-stream.declared.parts.TroveParts.{TroveParts};
ghost use Rattle.local_db.specs.Record.{Entry, IsRecord};
ghost use Rattle.local_db.specs.declared.format.Format.{Format};
ghost use Rattle.local_db.specs.declared.record.Record.{Record};
ghost use Rattle.job_record.specs.Lists.{IsReadBy};
ghost use Rattle.local_db.specs.RecordText.{IsRecordText};

use local_db::trove_parts::distinct_ids;
use local_db::trove_stream::{distinct_rels, distinct_troves};

/// No bytes are two records.
pub fn distinct_records()
    ensures unique { (f : Format) (one other : Record) (bytes : List ℕ) → IsRecordText f one bytes → IsRecordText f other bytes → one ≡ other }
{
    distinct_ids();
    distinct_troves();
    distinct_rels();
}

/// Bytes are the record of a job between two lists exactly where they are those of a record whose deltas lead from the list after
/// the job to the one before, and which tells each fingerprint as the lists have it: left to a list exactly where that records it.
pub fn records_by_lists()
    ensures read { (f : Format) (number : ℕ) (before after : List TroveParts) (entries : List Entry) (bytes : List ℕ)
        → IsRecord f number before after entries bytes → (r : Record) × IsRecordText f r bytes × IsReadBy number before after entries r }
    ensures written { (f : Format) (number : ℕ) (before after : List TroveParts) (entries : List Entry) (r : Record) (bytes : List ℕ)
        → IsRecordText f r bytes → IsReadBy number before after entries r → IsRecord f number before after entries bytes }
{}
