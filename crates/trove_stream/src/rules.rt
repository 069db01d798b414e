//! The rules of troves.
ghost use Rattle.std.specs.Prelude.{◌≡◌, ◌↔◌, [], IsTrue, All};
ghost use Rattle.trove_parts.specs.cny-base.Name.{kind_of_name};
ghost use Rattle.trove_stream.specs.Trove as spec;
ghost use Rattle.trove_stream.specs.Trove.{HasRightBuild, IsComponentOf, HasOtherName, HasRefsAlone, KeepsKind, HasLists, IsWithinLimits, KeepsRules};

use crate::parts::TroveParts;
use cny_version::{Version, distinct_texts};
use trove_parts::cny_base::{DEPS_LIMIT, FILES_LIMIT, NameKind, REFS_LIMIT};
use trove_parts::{TroveId, are_deps, are_files, are_refs};

/// Whether the lists are in their order.
pub(crate) fn has_lists(parts: &TroveParts) -> bool
    ensures { IsTrue result ↔ HasLists parts.now }
{
    parts.id.is_valid();
    let files = are_files(parts.files.get());
    let refs = are_refs(parts.refs.get());
    let required = are_deps(parts.requires_.get());
    let provided = are_deps(parts.provides.get());
    files && refs && required && provided
}

// Whether no list has more elements than its limit.
fn is_within_limits(parts: &TroveParts) -> bool
    ensures { IsTrue result ↔ IsWithinLimits parts.now }
{
    let files = parts.files.get().len() <= FILES_LIMIT;
    let refs = parts.refs.get().len() <= REFS_LIMIT;
    let required = parts.requires_.get().len() <= DEPS_LIMIT;
    let provided = parts.provides.get().len() <= DEPS_LIMIT;
    files && refs && required && provided
}

fn is_source(name: &[u8]) -> bool
    ensures { result ≡ spec.is_source name.now }
{
    let from = name.len().saturating_sub(7);
    &name[from..] == b":source".as_slice()
}

// Whether the last revision has a build count where it is to have one.
fn has_right_build(id: &TroveId) -> bool
    ensures { IsTrue result ↔ HasRightBuild id.now }
{
    let has_build = id.version.revision().build.is_some();
    has_build != is_source(id.name.text().as_bytes())
}

fn begins_with_colon(bytes: &[u8]) -> bool
    ensures { result ≡ spec.begins_with_colon bytes.now }
{
    match bytes {
        [] => false,
        [first, ..] => *first == b':',
    }
}

/// Whether the name is the package's, a colon and more.
pub fn is_component_of(whole: &[u8], name: &[u8]) -> bool
    ensures { result ≡ spec.is_component_of whole.now name.now }
{
    let Some(rest) = name.strip_prefix(whole) else {
        return false;
    };
    begins_with_colon(rest)
}

fn is_same_version(one: &Version, other: &Version) -> bool
    ensures { IsTrue result ↔ (one.now ≡ other.now) }
{
    // No two versions have one text.
    distinct_texts();
    one.text() == other.text()
}

// Whether it is the id of a component of the package, with its version and flavor.
fn is_part_of(whole: &TroveId, id: &TroveId) -> bool
    ensures { IsTrue result ↔ IsComponentOf whole.now id.now }
{
    let is_component = is_component_of(whole.name.text().as_bytes(), id.name.text().as_bytes());
    let has_version = is_same_version(&id.version, &whole.version);
    let has_flavor = id.flavor == whole.flavor;
    is_component && has_version && has_flavor
}

fn are_components(whole: &TroveId, refs: &[TroveId]) -> bool
    ensures { IsTrue result ↔ All (IsComponentOf whole.now) refs.now }
{
    for id in refs {
        if !is_part_of(whole, id) {
            return false;
        }
    }
    true
}

fn has_other_name(group: &TroveId, id: &TroveId) -> bool
    ensures { IsTrue result ↔ HasOtherName group.now id.now }
{
    id.name != group.name
}

fn are_others(group: &TroveId, refs: &[TroveId]) -> bool
    ensures { IsTrue result ↔ All (HasOtherName group.now) refs.now }
{
    for id in refs {
        if !has_other_name(group, id) {
            return false;
        }
    }
    true
}

fn has_refs_alone(parts: &TroveParts) -> bool
    ensures { IsTrue result ↔ HasRefsAlone parts.now }
{
    let no_files = parts.files.get().is_empty();
    let no_requires = parts.requires_.get().is_empty();
    let no_provides = parts.provides.get().is_empty();
    no_files && no_requires && no_provides
}

// Whether the trove holds what its kind may.
fn keeps_kind(parts: &TroveParts) -> bool
    ensures { IsTrue result ↔ KeepsKind (kind_of_name parts.now.id.name) parts.now }
{
    let refs = parts.refs.get();
    match parts.id.name.kind() {
        NameKind::Component => refs.is_empty(),
        NameKind::Package => has_refs_alone(parts) && are_components(&parts.id, refs),
        NameKind::Group => has_refs_alone(parts) && are_others(&parts.id, refs),
    }
}

/// Whether the parts are those of a trove, where their lists are.
pub(crate) fn keeps_rules(parts: &TroveParts) -> bool
    ensures { IsTrue result ↔ KeepsRules parts.now }
{
    let limits = is_within_limits(parts);
    let build = has_right_build(&parts.id);
    limits && build && keeps_kind(parts)
}
