//! What may come next in lists that rise.
ghost use Rattle.std.specs.Prelude.{◌≡◌};
ghost use Rattle.std.specs.Ordering.{is_lt};
ghost use Rattle.manifest_troves.specs.cny-base.Name.{kind_of_name};
ghost use Rattle.manifest_troves.specs.trove-parts.Order.{id_cmp};
ghost use Rattle.cny_manifest.specs.Body as spec;
ghost use Rattle.cny_manifest.specs.Body.{is_above, dep_line_cmp};

use manifest_troves::DepLine;
use manifest_troves::cny_base::{Name, NameKind, Path};
use manifest_troves::trove_parts::{FileAt, TroveId};
use manifest_troves::trove_stream::is_component_of;

/// Whether the path is above the last one.
pub(crate) fn is_above_path(files: &[FileAt], path: &Path) -> bool
    ensures { result ≡ spec.is_above_path files.now path.now }
{
    match files.last() {
        Some(last) => last.path < *path,
        None => true,
    }
}

/// Whether the id is above the last one.
pub(crate) fn is_above_ref(refs: &[TroveId], id: &TroveId) -> bool
    ensures { result ≡ is_above id_cmp refs.now id.now }
{
    match refs.last() {
        Some(last) => last < id,
        None => true,
    }
}

// Whether a dependency line comes before another: by the names, then by the dependencies.
fn comes_before(line: &DepLine, later: &DepLine) -> bool
    ensures { result ≡ is_lt (dep_line_cmp line.now later.now) }
{
    let by_dep = line.dep.text().cmp(later.dep.text());
    line.name.cmp(&later.name).then(by_dep).is_lt()
}

/// Whether the line is above the last one.
pub(crate) fn is_above_line(lines: &[DepLine], line: &DepLine) -> bool
    ensures { result ≡ is_above dep_line_cmp lines.now line.now }
{
    match lines.last() {
        Some(last) => comes_before(last, line),
        None => true,
    }
}

/// Whether the name is that of the component, or of a component of the package.
pub fn is_own(whole: &Name, name: &Name) -> bool
    ensures { result ≡ spec.is_own_by (kind_of_name whole.now) whole.now name.now }
{
    match whole.kind() {
        NameKind::Component => name.text().as_bytes() == whole.text().as_bytes(),
        NameKind::Package => is_component_of(whole.text().as_bytes(), name.text().as_bytes()),
        NameKind::Group => false,
    }
}
