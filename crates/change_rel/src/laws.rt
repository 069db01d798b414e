//! One relative trove at most leads from a trove to another.
ghost use Rattle.std.specs.Prelude.{◌≡◌};
ghost use Rattle.trove_stream.specs.declared.parts.TroveParts.{TroveParts};
ghost use Rattle.trove_stream.specs.declared.rel.RelParts.{RelParts};
ghost use Rattle.trove_stream.specs.Leads.{Leads};

use trove_stream::trove_parts::{distinct_ids, distinct_lists};

/// At most one relative trove leads from a trove to another.
pub fn one_relative()
    ensures { (old fresh : TroveParts) (a b : RelParts) → Leads a old fresh → Leads b old fresh → a ≡ b }
{
    distinct_ids();
    distinct_lists();
}
