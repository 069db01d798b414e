//! The rules for the parts of a relative trove.
ghost use Rattle.std.specs.Prelude.{◌≡◌, ◌≢◌, ◌↔◌, IsTrue};
ghost use Rattle.trove_stream.specs.Rel.{AreParts, GoTogether};

use crate::disjoint::are_disjoint;
use crate::rel::RelParts;
use trove_parts::{TroveId, are_deps, are_files, are_paths, are_refs, distinct_ids};

/// Whether each part is valid by itself.
pub(crate) fn are_parts(parts: &RelParts) -> bool
    ensures { IsTrue result ↔ AreParts parts.now }
{
    parts.old.is_valid();
    parts.fresh.is_valid();
    let paths = are_paths(parts.paths_gone.get());
    let files = are_files(parts.files_set.get());
    let refs_gone = are_refs(parts.refs_gone.get());
    let refs_added = are_refs(parts.refs_added.get());
    let requires_gone = are_deps(parts.requires_gone.get());
    let requires_added = are_deps(parts.requires_added.get());
    let provides_gone = are_deps(parts.provides_gone.get());
    let provides_added = are_deps(parts.provides_added.get());
    let refs = refs_gone && refs_added;
    let required = requires_gone && requires_added;
    let provided = provides_gone && provides_added;
    paths && files && refs && required && provided
}

// Whether two ids are of one name, and not the same.
fn are_two_of_a_name(old: &TroveId, fresh: &TroveId) -> bool
    ensures { IsTrue result ↔ (old.now.name ≡ fresh.now.name) × (old.now ≢ fresh.now) }
{
    old.is_valid();
    fresh.is_valid();
    distinct_ids();
    let one_name = old.name == fresh.name;
    let one_id = old == fresh;
    one_name && !one_id
}

/// Whether the parts, each of them valid by itself, go together.
pub(crate) fn go_together(parts: &RelParts) -> bool
    requires { AreParts parts.now }
    ensures { IsTrue result ↔ GoTogether parts.now }
{
    let ids = are_two_of_a_name(&parts.old, &parts.fresh);
    let paths = are_disjoint(parts.paths_gone.get(), parts.files_set.get());
    let refs = are_disjoint(parts.refs_gone.get(), parts.refs_added.get());
    let required = are_disjoint(parts.requires_gone.get(), parts.requires_added.get());
    let provided = are_disjoint(parts.provides_gone.get(), parts.provides_added.get());
    ids && paths && refs && required && provided
}
