//! Laws of records and their encodings.
ghost use Rattle.std.specs.Prelude.{◌≡◌, ◌↔◌, ◌≤◌, ◌++◌, false, IsTrue, List, ℕ};
ghost use Rattle.cny_stream.specs.declared.encoding.Encoding.{Encoding};
ghost use Rattle.cny_stream.specs.declared.encoding.Encoding.TheVariants.{Compact, Explicit};
ghost use Rattle.cny_stream.specs.declared.record.FileRec.{FileRec};
ghost use Rattle.cny_stream.specs.Record.{IsFileRecord, has_name_and_size, is_owned_by_root, record_bytes};

use cny_base::CONTENT_LIMIT;

/// No bytes begin with two records, whichever the encodings of both. The two encodings of a record are equal exactly
/// where root doesn't own it.
pub fn distinct_records()
    ensures unique { (one other : Encoding) (a b : FileRec) (x y : List ℕ) → IsFileRecord a → IsFileRecord b
        → record_bytes one a ++ x ≡ record_bytes other b ++ y → (a ≡ b) × (x ≡ y) }
    ensures both { (rec : FileRec) → (record_bytes Compact rec ≡ record_bytes Explicit rec) ↔ (is_owned_by_root rec ≡ false) }
{}

/// The contents that a record names have at most 16,777,216 bytes.
pub fn small_contents()
    ensures { (name : List ℕ) (size : ℕ) (rec : FileRec) → IsFileRecord rec → IsTrue (has_name_and_size name size rec) → size ≤ CONTENT_LIMIT }
{}
