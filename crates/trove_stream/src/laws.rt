//! Bytes are the stream of one trove at most, a trove has one stream in both encodings or two, and a relative trove leads to one trove.
ghost use Rattle.std.specs.Prelude.{◌≡◌, ◌↔◌, All};
ghost use Rattle.trove_parts.specs.cny-stream.declared.encoding.Encoding.{Encoding};
ghost use Rattle.trove_parts.specs.cny-stream.declared.encoding.Encoding.TheVariants.{Compact, Explicit};
ghost use Rattle.trove_parts.specs.Files.{HasOtherOwner};
ghost use Rattle.trove_stream.specs.Leads.{Leads};
ghost use Rattle.trove_stream.specs.declared.parts.TroveParts.{TroveParts};
ghost use Rattle.trove_stream.specs.declared.rel.RelParts.{RelParts};
ghost use Rattle.trove_stream.specs.Stream.{stream_bytes};
ghost use Rattle.trove_stream.specs.Trove.{IsTrove};

use trove_parts::{distinct_ids, distinct_lists, short_ids};

/// No bytes are the streams of two troves, whichever the encodings of both. The two streams of a trove are equal exactly where
/// root owns no directory and no file of it.
pub fn distinct_troves()
    ensures unique { (one other : Encoding) (a b : TroveParts) → IsTrove a → IsTrove b → stream_bytes one a ≡ stream_bytes other b → a ≡ b }
    ensures both { (t : TroveParts) → (stream_bytes Compact t ≡ stream_bytes Explicit t) ↔ All HasOtherOwner t.files }
{
    short_ids();
    distinct_ids();
    distinct_lists();
}

/// A relative trove leads from a trove to one other at most.
pub fn one_result()
    ensures { (rel : RelParts) (old a b : TroveParts) → Leads rel old a → Leads rel old b → a ≡ b }
{}
