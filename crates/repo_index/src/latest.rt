//! The version that comes next on the branch of a trove.
ghost use Rattle.std.specs.Prelude.{◌≡◌, None, IsSome, IsTrue, IfErr, IfOk, OnOk};
ghost use Rattle.std.specs.Option.{ForSome, option_copied};
ghost use Rattle.cny_version.specs.Revision.{is_revision};
ghost use Rattle.cny_version.specs.Version.{depth};
ghost use Rattle.trove_stream.specs.Trove.{HasRightBuild};
ghost use Rattle.repo_index.specs.Next as spec;
ghost use Rattle.repo_index.specs.Next.{latest_revision, next_refusal};
ghost use Rattle.repo_index.specs.Steps.{IsRefusalOrMemory};

use crate::catalogue::Catalogue;
use cny_version::{Count, Revision, Version, distinct_texts, next_revision};
use std::alloc::Global;
use trove_stream::Trove;
use trove_stream::cny_base::Fault;
use trove_stream::trove_parts::TroveId;

// The source count of a revision that has a build count.
fn kept_source(revision: &Revision) -> Option<&Count>
    ensures { option_copied result ≡ spec.kept_source revision.now }
{
    match &revision.build {
        Some(_) => Some(&revision.source),
        None => None,
    }
}

// The last committed trove of this name on the branch of this version, with the same upstream and, where the version has a build
// count, the same source count.
fn latest_trove<'a>(catalogue: &'a Catalogue, id: &TroveId) -> Option<&'a Trove>
    ensures { option_copied result ≡ spec.latest_trove id.now catalogue.now.troves }
{
    let revision = id.version.revision();
    let source = kept_source(revision);
    catalogue.latest(
        &id.name,
        id.version.branch(),
        revision.upstream.get(),
        source,
    )
}

// The revision of that trove.
fn latest<'a>(catalogue: &'a Catalogue, id: &TroveId) -> Option<&'a Revision>
    requires { HasRightBuild id.now }
    ensures value { option_copied result ≡ latest_revision id.now catalogue.now.troves }
    ensures fits { ForSome result (λ r. IsTrue (is_revision (depth id.now.version.branch) r.now)) }
    ensures build { ForSome result (λ r. IsSome id.now.version.revision.build → IsSome r.now.build) }
{
    // Branches of one text are one branch, of one depth.
    distinct_texts();
    let _version = id.version.text();
    match latest_trove(catalogue, id) {
        Some(trove) => Some(trove.id().version.revision()),
        None => None,
    }
}

/// The version that comes next. `TooLarge` exactly where the number to be raised is 4,294,967,295, or else where the text of the
/// version has more than 512 bytes.
pub(crate) fn next_version(
    alloc: Global,
    catalogue: &Catalogue,
    id: &TroveId,
) -> Result<Version, Fault>
    requires { HasRightBuild id.now }
    ensures value { IfOk result (λ version. version ≡ spec.next_version id.now catalogue.now.troves) }
    ensures none { OnOk result (next_refusal id.now catalogue.now.troves ≡ None) }
    ensures fault { IfErr result (IsRefusalOrMemory (next_refusal id.now catalogue.now.troves)) }
{
    let latest = latest(catalogue, id);
    let depth = id.version.depth();
    let revision = next_revision(alloc, id.version.revision(), depth, latest)?;
    let version = id.version.with_revision(alloc, &revision)?;
    Ok(version)
}
