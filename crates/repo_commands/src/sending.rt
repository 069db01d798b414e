//! The command that answers a change set between what specifications mean.
ghost use Rattle.std.specs.Prelude.{List, ℕ, OnOk};
ghost use Rattle.cli_call.specs.trove-stream.Installed.{IsRising};
ghost use Rattle.repo_index.specs.Catalogue.{AreCommitted};
ghost use Rattle.cli_call.specs.Alone.{AnswersByContents};
ghost use Rattle.cli_call.specs.Command.{disks, AreReady, Performs};
ghost use Rattle.cli_call.specs.tree-disk.Disk.{Reads};
ghost use Rattle.repo_commands.specs.Sending.{changeset, SendsFrom};

use cli_call::change_set::encode;
use cli_call::cny_base::{Bytes, Stop};
use cli_call::tree_disk::TreeDisk;
use cli_call::trove_stream::Trove;
use cli_call::{Failure, Opened, on_repository, on_root, store_laws};
use repo_index::Catalogue;
use repo_load::stored_state;
use repository::{between, stored_between};
use std::alloc::Global;
use trove_spec::{GivenSpec, expansion, expansion_from, read_config};

// The stream of the change set that leads from the old troves to the new ones.
fn send<P: TreeDisk>(
    alloc: Global,
    repo: &mut P,
    catalogue: &Catalogue,
    old: &[Trove],
    fresh: &[Trove],
) -> Result<Bytes, Stop>
    requires old_committed { AreCommitted catalogue.now.troves old.now }
    requires fresh_committed { AreCommitted catalogue.now.troves fresh.now }
    requires old_rises { IsRising old.now }
    ensures { SendsFrom P.disk old.now fresh.now repo.old repo.new result }
{
    let set = between(alloc, repo, catalogue, old, fresh)?;
    Ok(encode(alloc, &set)?)
}

/// The stream of the change set that leads to what a specification means, with all that it reaches: from what another one means
/// and reaches, or, where there is none, from no troves, with every content. No name of a disk changes.
pub fn send_changes<T: TreeDisk, P: TreeDisk>(
    alloc: Global,
    from: &Option<GivenSpec>,
    to: &GivenSpec,
    opened: &Opened,
    repo: &mut P,
    root: &mut T,
) -> Result<Bytes, Failure>
    requires { AreReady T.disk P.disk (disks root.old repo.old opened.now) }
    ensures performs { (input : List ℕ) → Performs T.disk P.disk (changeset from.now to.now) input (disks root.old repo.old opened.now)
        (disks root.new repo.new opened.now) result }
    // Also where other contents of the repository, or records and saved contents of the root, are damaged.
    ensures whole { (input : List ℕ) → AnswersByContents T.disk P.disk (changeset from.now to.now) input (disks root.old repo.old opened.now)
        (disks root.new repo.new opened.now) result }
    // Both disks are only read.
    ensures root_read { Reads T.disk root.old root.new (Unit {0}) }
    ensures repo_read { Reads P.disk repo.old repo.new (Unit {0}) }
    // Where it is done, a further command may begin.
    ensures again { OnOk result (AreReady T.disk P.disk (disks root.new repo.new opened.now)) }
{
    store_laws();
    stored_state();
    stored_between();
    let config = on_root(read_config(alloc, root))?;
    let old = expansion_from(alloc, &opened.catalogue, from, &config)?;
    let fresh = expansion(alloc, &opened.catalogue, to, &config)?;
    on_repository(send(alloc, repo, &opened.catalogue, old.get(), fresh.get()))
}
