//! Changes found by their path.
ghost use Rattle.std.specs.Prelude.{◌≡◌, ◌↔◌, ◌<◌, false, length, IfSome, IfNone, IsTrue};
ghost use Rattle.std.specs.List.{HoldsAt};
ghost use Rattle.std.specs.List.Sorted.{IsStrictlySortedBy};
ghost use Rattle.past_jobs.specs.Marks.{is_path_of};
ghost use Rattle.local_db.specs.Record.{entry_cmp};

use local_db::PathChange;
use local_db::cny_base::Path;

/// Whether the changes strictly rise by path.
pub fn are_rising(changes: &[PathChange]) -> bool
    ensures { IsTrue result ↔ IsStrictlySortedBy entry_cmp changes.now }
{
    changes.is_sorted_by(|earlier, later| earlier.path() < later.path())
}

// Where the change at a path stands.
pub(crate) fn place_of(changes: &[PathChange], path: &str) -> Option<usize>
    requires { IsStrictlySortedBy entry_cmp changes.now }
    ensures some { IfSome result (λ place. (place < length changes.now) × HoldsAt (λ e. e.path ≡ path.now) changes.now place) }
    ensures none { IfNone result (is_path_of changes.now path.now ≡ false) }
{
    changes
        .binary_search_by(|change| change.path().text().cmp(path))
        .ok()
}

// Whether one of the changes is at the path.
pub(crate) fn is_changed(changes: &[PathChange], path: &Path) -> bool
    requires { IsStrictlySortedBy entry_cmp changes.now }
    ensures { result ≡ is_path_of changes.now path.now }
{
    place_of(changes, path.text()).is_some()
}
