//! Puts found by their path.
ghost use Rattle.std.specs.Prelude.{◌≡◌, ◌<◌, false, length, IfSome, IfNone};
ghost use Rattle.std.specs.List.{HoldsAt};
ghost use Rattle.journal_log.specs.Targets.{is_target};
ghost use Rattle.journal_log.specs.WriteSet.{Rises};

use crate::put::Put;

// Where the put at a path stands.
pub(crate) fn place_of(puts: &[Put], path: &str) -> Option<usize>
    requires { Rises puts.now }
    ensures some { IfSome result (λ place. (place < length puts.now) × HoldsAt (λ p. p.path ≡ path.now) puts.now place) }
    ensures none { IfNone result (is_target puts.now path.now ≡ false) }
{
    puts.binary_search_by(|put| put.path.text().cmp(path)).ok()
}
