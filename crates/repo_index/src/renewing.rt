//! Troves with the next version of the first one.
ghost use Rattle.std.specs.Prelude.{◌≡◌, All, Ok, map, is_some, IfErr, IfOk};
ghost use Rattle.trove_stream.specs.Trove.{has_build};
ghost use Rattle.repo_index.specs.Next as spec;
ghost use Rattle.repo_index.specs.Next.{trove_with, HasOneVersion};
ghost use Rattle.repo_index.specs.Steps.{IsErrOrMemory};

use crate::catalogue::Catalogue;
use crate::latest::next_version;
use crate::with_version;
use cny_version::Version;
use std::alloc::Global;
use trove_stream::Trove;
use trove_stream::cny_base::{Fault, ListOf, OutOfMemory};

/// A list of troves.
pub type Troves = ListOf<Trove>;

// The troves with this version.
fn troves_with(alloc: Global, troves: Troves, version: &Version) -> Result<Troves, OutOfMemory>
    requires { All (λ t. is_some version.now.revision.build ≡ has_build t.id) troves }
    ensures { IfOk result (λ made. made ≡ map (trove_with version.now) troves) }
{
    let mut made = Vec::new(alloc);
    for trove in troves.into_vec() {
        made.push(with_version::trove_with(alloc, trove, version)?)?;
    }
    Ok(Troves::new(made))
}

/// The troves, which have one version, with the version that comes next on their branch: its revision keeps the upstream and,
/// where there is a build count, the source count, and the other count is the one after that of the latest trove of the first
/// one's name that the catalogue has on that branch with these. The references of a package, which are to its own components,
/// get the version too; those of a group stay. All else stays.
///
/// `TooLarge` exactly where the number to be raised is 4,294,967,295, or else where the text of the version has more than 512
/// bytes. Nothing comes of no troves.
pub fn next_troves(alloc: Global, catalogue: &Catalogue, troves: Troves) -> Result<Troves, Fault>
    requires { HasOneVersion troves }
    ensures value { IfOk result (λ made. spec.next_troves catalogue.now.troves troves ≡ Ok made) }
    ensures fault { IfErr result (IsErrOrMemory (spec.next_troves catalogue.now.troves troves)) }
{
    let [first, ..] = troves.get() else {
        return Ok(troves);
    };
    let version = next_version(alloc, catalogue, first.id())?;
    Ok(troves_with(alloc, troves, &version)?)
}
