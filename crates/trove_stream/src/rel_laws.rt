//! Bytes are the stream of one relative trove at most, and a relative trove has one stream in both encodings or two.
ghost use Rattle.std.specs.Prelude.{◌≡◌, ◌↔◌, List, ℕ, All};
ghost use Rattle.trove_parts.specs.cny-stream.declared.encoding.Encoding.{Encoding};
ghost use Rattle.trove_parts.specs.cny-stream.declared.encoding.Encoding.TheVariants.{Compact, Explicit};
ghost use Rattle.trove_parts.specs.Files.{HasOtherOwner};
ghost use Rattle.trove_stream.specs.declared.rel.RelParts.{RelParts};
ghost use Rattle.trove_stream.specs.RelBytes.{IsStreamOf, rel_stream_bytes};

use trove_parts::{distinct_ids, distinct_lists, short_ids};

/// No bytes are the streams of two relative troves, whichever the encodings of both. The two streams of a relative trove are
/// equal exactly where root owns no directory and no file that it sets.
pub fn distinct_rels()
    ensures unique { (one other : Encoding) (a b : RelParts) (bytes : List ℕ) → IsStreamOf one a bytes → IsStreamOf other b bytes → a ≡ b }
    ensures both { (rel : RelParts) → (rel_stream_bytes Compact rel ≡ rel_stream_bytes Explicit rel) ↔ All HasOtherOwner rel.files_set }
{
    short_ids();
    distinct_ids();
    distinct_lists();
}
