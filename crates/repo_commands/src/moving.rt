//! The commands that commit what a specification means as shadows or as branches.
ghost use Rattle.std.specs.Prelude.{◌≡◌, true, List, [], ℕ, IfOk, IsTrue, map, OnOk};
ghost use Rattle.cli_call.specs.change-set.declared.change.Part.TheVariants.{Whole};
ghost use Rattle.cli_call.specs.cny-laws.Call.{FilesStay};
ghost use Rattle.cli_call.specs.Alone.{AnswersByOpened};
ghost use Rattle.cli_call.specs.Command.{disks, AreReady, Performs};
ghost use Rattle.cli_call.specs.tree-disk.Disk.{Reads};
ghost use Rattle.repo_commands.specs.Moving.{move};

use crate::committing::commit_set;
use cli_call::change_set::{CarriedList, ChangeSet, Part, Parts};
use cli_call::cny_base::{OutOfMemory, Text};
use cli_call::tree_disk::TreeDisk;
use cli_call::{Failure, Opened, on_root, store_laws};
use cny_version::Label;
use repo_load::stored_state;
use repo_shadow::{Way, moved, refs_found};
use std::alloc::Global;
use trove_spec::{GivenSpec, Troves, meant, read_config};

// The change set that makes these troves.
fn whole_set(alloc: Global, troves: Troves) -> Result<ChangeSet, OutOfMemory>
    ensures parts { IfOk result (λ set. set.parts ≡ map Whole troves) }
    ensures contents { IfOk result (λ set. set.contents ≡ []) }
{
    let mut parts = Vec::new(alloc);
    for trove in troves.into_vec() {
        parts.push(Part::Whole(trove))?;
    }
    Ok(ChangeSet {
        parts: Parts::new(parts),
        contents: CarriedList::new(Vec::new(alloc)),
    })
}

/// Commits what a specification means, with all that it reaches, as shadows on a label or as branches onto it, and tells the ids. It
/// takes effect as a whole or not at all, whenever the machine stops.
pub fn commit_moved<T: TreeDisk, P: TreeDisk>(
    alloc: Global,
    way: Way,
    label: &Label,
    given: &GivenSpec,
    opened: &mut Opened,
    repo: &mut P,
    root: &mut T,
) -> Result<Text, Failure>
    requires { AreReady T.disk P.disk (disks root.old repo.old opened.old) }
    ensures performs { (input : List ℕ) → Performs T.disk P.disk (move way label.now given.now) input (disks root.old repo.old opened.old)
        (disks root.new repo.new opened.new) result }
    // Also where other files of the root or contents of the repository are damaged.
    ensures opened { IsTrue P.disk.tells → (input : List ℕ) → AnswersByOpened T.disk P.disk (move way label.now given.now) input (disks root.old repo.old opened.old)
        (disks root.new repo.new opened.new) result }
    // The files of the commits and of all contents stay.
    ensures files { FilesStay P.disk opened.old.catalogue true repo.old repo.new }
    // The root is only read.
    ensures root_read { Reads T.disk root.old root.new (Unit {0}) }
    // Where it is done, a further command may begin.
    ensures again { OnOk result (AreReady T.disk P.disk (disks root.new repo.new opened.new)) }
{
    store_laws();
    stored_state();
    refs_found();
    let config = on_root(read_config(alloc, root))?;
    let id = meant(alloc, &opened.catalogue, given, &config)?;
    let troves = moved(alloc, &opened.catalogue, &id, label, way)?;
    let set = whole_set(alloc, troves)?;
    commit_set(alloc, &set, opened, repo, root)
}
