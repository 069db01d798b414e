//! What manifests make, committed.
ghost use Rattle.std.specs.Prelude.{◌≡◌, false, IfErr, IfOk, Ok, map, OnOk};
ghost use Rattle.cli_call.specs.change-set.ChangeSet.{HasContents};
ghost use Rattle.cli_call.specs.change-set.declared.change.Part.TheVariants.{Whole};
ghost use Rattle.cny_manifest.specs.Makes.{HasOwnContents};
ghost use Rattle.repo_index.specs.Next.{HasOneVersion};
ghost use Rattle.repo_index.specs.Steps.{IsErrOrMemory};
ghost use Rattle.cli_call.specs.cny-laws.Call.{FilesStay};
ghost use Rattle.cli_call.specs.Alone.{ActsOnRepository, AnswersByContents};
ghost use Rattle.cli_call.specs.Command.{disks, AreReady};
ghost use Rattle.repo_commands.specs.Cook as spec;

use crate::committing::commit_set;
use cli_call::change_set::{ChangeSet, Part, Parts};
use cli_call::cny_base::{Fault, OutOfMemory, Text};
use cli_call::tree_disk::TreeDisk;
use cli_call::{Failure, Opened, store_laws};
use cny_manifest::{Made, read};
use repo_index::{Catalogue, Troves, next_troves};
use repo_load::stored_state;
use std::alloc::Global;

// The troves as they are, or with the version that comes next.
fn cooked_troves(
    alloc: Global,
    next: bool,
    catalogue: &Catalogue,
    troves: Troves,
) -> Result<Troves, Fault>
    requires { HasOneVersion troves }
    ensures value { IfOk result (λ made. spec.cooked_troves next catalogue.now.troves troves ≡ Ok made) }
    ensures fault { IfErr result (IsErrOrMemory (spec.cooked_troves next catalogue.now.troves troves)) }
{
    if !next {
        return Ok(troves);
    }
    next_troves(alloc, catalogue, troves)
}

// The troves as parts of a change set.
fn whole_parts(alloc: Global, troves: Troves) -> Result<Parts, OutOfMemory>
    ensures { IfOk result (λ parts. parts ≡ map Whole troves) }
{
    let mut parts = Vec::new(alloc);
    for trove in troves.into_vec() {
        parts.push(Part::Whole(trove))?;
    }
    Ok(Parts::new(parts))
}

// The change set that is committed of what a manifest makes.
fn cooked_set(
    alloc: Global,
    next: bool,
    catalogue: &Catalogue,
    made: Made,
) -> Result<ChangeSet, Fault>
    requires version { HasOneVersion made.troves }
    requires own { HasOwnContents made }
    ensures value { IfOk result (λ set. spec.cooked_set next catalogue.now.troves made ≡ Ok set) }
    ensures contents { IfOk result HasContents }
    ensures fault { IfErr result (IsErrOrMemory (spec.cooked_set next catalogue.now.troves made)) }
{
    let Made { troves, contents } = made;
    let troves = cooked_troves(alloc, next, catalogue, troves)?;
    let parts = whole_parts(alloc, troves)?;
    Ok(ChangeSet { parts, contents })
}

/// Commits the troves that the manifest makes which the input is, with its contents: a line `committed T` for each trove, in name
/// order. With `next` they get the version that comes next on their branch, `TooLarge` where there is none. It takes effect as
/// a whole or not at all, whenever the machine stops.
pub fn cook_manifest<T: TreeDisk, P: TreeDisk>(
    alloc: Global,
    next: bool,
    input: &[u8],
    opened: &mut Opened,
    repo: &mut P,
    root: &T,
) -> Result<Text, Failure>
    requires { AreReady T.disk P.disk (disks root.now repo.old opened.old) }
    ensures performs { ActsOnRepository T.disk P.disk (spec.cook next) input.now (disks root.now repo.old opened.old) (disks root.now repo.new opened.new) result }
    // Also where other contents of the repository are damaged; and the files of the commits and of committed contents stay.
    ensures whole { AnswersByContents T.disk P.disk (spec.cook next) input.now (disks root.now repo.old opened.old) (disks root.now repo.new opened.new) result }
    ensures files { FilesStay P.disk opened.old.catalogue false repo.old repo.new }
    // Where it is done, a further command may begin.
    ensures again { OnOk result (AreReady T.disk P.disk (disks root.now repo.new opened.new)) }
{
    store_laws();
    stored_state();
    let made = read(alloc, input)?;
    let set = cooked_set(alloc, next, &opened.catalogue, made)?;
    commit_set(alloc, &set, opened, repo, root)
}
