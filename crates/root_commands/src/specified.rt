//! The command that installs what specifications mean.
ghost use Rattle.std.specs.Prelude.{IfOk, List, ℕ, OnOk};
ghost use Rattle.repo_load.specs.Loading.{IsCatalogue};
ghost use Rattle.cli_call.specs.Alone.{AnswersByContents};
ghost use Rattle.cli_call.specs.Command.{disks, AreReady, Performs};
ghost use Rattle.cli_call.specs.tree-disk.Disk.{Reads};
ghost use Rattle.trove_spec.specs.AndThen.{EndsAs};
ghost use Rattle.sys_model.specs.Rounds.{Completes};
ghost use Rattle.cli_call.specs.system-core.Lists.{AllPathsAllowed};
ghost use Rattle.root_commands.specs.UpdateSpecs as spec;
ghost use Rattle.root_commands.specs.UpdateSpecs.{BringAll, MeanAll, ReachAll};

use crate::updating::update_to;
use cli_call::cny_base::{Fault, ListOf, Options, Text};
use cli_call::tree_disk::TreeDisk;
use cli_call::trove_parts::TroveId;
use cli_call::{Failure, Opened, on_root, store_laws};
use local_db::distinct_databases;
use repo_index::Catalogue;
use repo_load::stored_state;
use std::alloc::Global;
use sys_model::complete;
use trove_spec::{Config, GivenSpec, Troves, expand, meant, read_config};

type TroveIds = ListOf<TroveId>;

// The ids of the troves that the specifications mean, in their order.
fn all_meant(
    alloc: Global,
    catalogue: &Catalogue,
    givens: &[GivenSpec],
    config: &Config,
) -> Result<TroveIds, Fault>
    ensures { EndsAs (MeanAll catalogue.now.troves config.now givens.now) result }
{
    let mut ids = Vec::new(alloc);
    for given in givens {
        ids.push(meant(alloc, catalogue, given, config)?)?;
    }
    Ok(TroveIds::new(ids))
}

// The troves that all of these ids reach together.
fn all_reached(alloc: Global, catalogue: &Catalogue, ids: &[TroveId]) -> Result<Troves, Fault>
    requires { IsCatalogue catalogue.now }
    ensures ends { EndsAs (ReachAll catalogue.now.troves ids.now) result }
    ensures allowed { IfOk result AllPathsAllowed }
{
    let troves = expand(alloc, catalogue, ids)?;
    Ok(troves)
}

// The troves of the round with which an update of these ids ends that completes itself.
fn all_completed(
    alloc: Global,
    opened: &Opened,
    ids: &[TroveId],
    config: &Config,
) -> Result<Troves, Fault>
    requires { IsCatalogue opened.now.catalogue }
    ensures ends { EndsAs (Completes opened.now.catalogue.troves opened.now.db.installed config.now ids.now) result }
    ensures allowed { IfOk result AllPathsAllowed }
{
    let troves = complete(alloc, &opened.catalogue, &opened.db.installed, ids, config)?;
    Ok(troves)
}

// The troves that these ids bring: all that they reach or, where the update completes itself, those of the round with which it ends.
fn all_brought(
    alloc: Global,
    resolve: bool,
    opened: &Opened,
    ids: &[TroveId],
    config: &Config,
) -> Result<Troves, Fault>
    requires { IsCatalogue opened.now.catalogue }
    ensures ends { EndsAs (BringAll resolve opened.now.catalogue.troves opened.now.db.installed config.now ids.now) result }
    ensures allowed { IfOk result AllPathsAllowed }
{
    if resolve {
        return all_completed(alloc, opened, ids, config);
    }
    all_reached(alloc, &opened.catalogue, ids)
}

/// Installs what the specifications mean, with all that it reaches, each trove in place of what its name reached by references: a
/// line `installed T`, `updated T` or `erased T` for each change of the installed list, or `nothing changes`. Where the update is to
/// complete itself, troves of the repository come too for requirements that nothing satisfies (`sys_model::complete`). The contents
/// come from the repository, which is only read. It takes effect as a whole or not at all, whenever the machine stops.
pub fn update_specs<T: TreeDisk, P: TreeDisk>(
    alloc: Global,
    options: &Options,
    resolve: bool,
    givens: &[GivenSpec],
    opened: &mut Opened,
    repo: &mut P,
    root: &mut T,
) -> Result<Text, Failure>
    requires { AreReady T.disk P.disk (disks root.old repo.old opened.old) }
    ensures performs { (input : List ℕ) → Performs T.disk P.disk (spec.update_specs options.now resolve givens.now) input (disks root.old repo.old opened.old)
        (disks root.new repo.new opened.new) result }
    // Also where other contents of the repository, or records and saved contents of the root, are damaged.
    ensures whole { (input : List ℕ) → AnswersByContents T.disk P.disk (spec.update_specs options.now resolve givens.now) input (disks root.old repo.old opened.old)
        (disks root.new repo.new opened.new) result }
    // The repository is only read.
    ensures repo_read { Reads P.disk repo.old repo.new (Unit {0}) }
    // Where it is done, a further command may begin.
    ensures again { OnOk result (AreReady T.disk P.disk (disks root.new repo.new opened.new)) }
{
    store_laws();
    stored_state();
    distinct_databases();
    let config = on_root(read_config(alloc, root))?;
    let ids = all_meant(alloc, &opened.catalogue, givens, &config)?;
    let troves = all_brought(alloc, resolve, opened, ids.get(), &config)?;
    update_to(alloc, options, troves.get(), &[], opened, repo, root)
}
