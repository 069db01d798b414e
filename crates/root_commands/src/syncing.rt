//! The command that brings the root to what its model file says.
ghost use Rattle.std.specs.Prelude.{List, ℕ, OnOk};
ghost use Rattle.cli_call.specs.Alone.{AnswersByContents};
ghost use Rattle.cli_call.specs.Command.{disks, AreReady, Performs};
ghost use Rattle.cli_call.specs.tree-disk.Disk.{Reads};
ghost use Rattle.cli_call.specs.system-core.Lists.{AllPathsAllowed};
ghost use Rattle.root_commands.specs.Syncing as spec;

use cli_call::cny_base::{Options, Text};
use cli_call::system_core::{adopt, troves_keep_rules};
use cli_call::tree_disk::TreeDisk;
use cli_call::trove_stream::Installed;
use cli_call::{Failure, Opened, on_root, store_laws};
use cny_report::changes_text;
use local_db::distinct_databases;
use repo_load::{RepoContents, stored_state};
use std::alloc::Global;
use sys_model::{Model, read_model, wanted};
use trove_spec::{Config, read_config};

// The job with this list after it, with the contents of the repository.
fn adopt_list<T: TreeDisk, P: TreeDisk>(
    alloc: Global,
    options: &Options,
    list: Installed,
    opened: &mut Opened,
    repo: &mut P,
    root: &mut T,
) -> Result<Text, Failure>
    requires allowed { AllPathsAllowed list }
    requires ready { AreReady T.disk P.disk (disks root.old repo.old opened.old) }
    ensures performs { (input : List ℕ) → Performs T.disk P.disk (spec.adopt_list options.now list) input (disks root.old repo.old opened.old)
        (disks root.new repo.new opened.new) result }
    // Also where other contents of the repository, or records and saved contents of the root, are damaged.
    ensures whole { (input : List ℕ) → AnswersByContents T.disk P.disk (spec.adopt_list options.now list) input (disks root.old repo.old opened.old)
        (disks root.new repo.new opened.new) result }
    // The repository is only read.
    ensures repo_read { Reads P.disk repo.old repo.new (Unit {0}) }
    // Where it is done, a further command may begin.
    ensures again { OnOk result (AreReady T.disk P.disk (disks root.new repo.new opened.new)) }
{
    store_laws();
    distinct_databases();
    stored_state();
    troves_keep_rules(list.troves());
    let mut far = RepoContents::new(repo, &opened.catalogue);
    let done = on_root(adopt(alloc, root, &mut opened.db, list, &mut far, options))?;
    Ok(changes_text(alloc, done.changes.get())?)
}

// The job with the list after it that the model wants.
fn adopt_wanted<T: TreeDisk, P: TreeDisk>(
    alloc: Global,
    options: &Options,
    config: &Config,
    model: &Model,
    opened: &mut Opened,
    repo: &mut P,
    root: &mut T,
) -> Result<Text, Failure>
    requires { AreReady T.disk P.disk (disks root.old repo.old opened.old) }
    ensures performs { (input : List ℕ) → Performs T.disk P.disk (spec.adopt_wanted options.now config.now model.now) input (disks root.old repo.old opened.old)
        (disks root.new repo.new opened.new) result }
    // Also where other contents of the repository, or records and saved contents of the root, are damaged.
    ensures whole { (input : List ℕ) → AnswersByContents T.disk P.disk (spec.adopt_wanted options.now config.now model.now) input (disks root.old repo.old opened.old)
        (disks root.new repo.new opened.new) result }
    // The repository is only read.
    ensures repo_read { Reads P.disk repo.old repo.new (Unit {0}) }
    // Where it is done, a further command may begin.
    ensures again { OnOk result (AreReady T.disk P.disk (disks root.new repo.new opened.new)) }
{
    store_laws();
    stored_state();
    let list = wanted(alloc, &opened.catalogue, model, config)?;
    adopt_list(alloc, options, list, opened, repo, root)
}

// The job with the list after it that the model of the root wants.
fn sync_with<T: TreeDisk, P: TreeDisk>(
    alloc: Global,
    options: &Options,
    config: &Config,
    opened: &mut Opened,
    repo: &mut P,
    root: &mut T,
) -> Result<Text, Failure>
    requires { AreReady T.disk P.disk (disks root.old repo.old opened.old) }
    ensures performs { (input : List ℕ) → Performs T.disk P.disk (spec.sync_with options.now config.now) input (disks root.old repo.old opened.old)
        (disks root.new repo.new opened.new) result }
    // Also where other contents of the repository, or records and saved contents of the root, are damaged.
    ensures whole { (input : List ℕ) → AnswersByContents T.disk P.disk (spec.sync_with options.now config.now) input (disks root.old repo.old opened.old)
        (disks root.new repo.new opened.new) result }
    // The repository is only read.
    ensures repo_read { Reads P.disk repo.old repo.new (Unit {0}) }
    // Where it is done, a further command may begin.
    ensures again { OnOk result (AreReady T.disk P.disk (disks root.new repo.new opened.new)) }
{
    store_laws();
    let model = on_root(read_model(alloc, root))?;
    adopt_wanted(alloc, options, config, &model, opened, repo, root)
}

/// Brings the installed list to what the model file of the root says, as one job: a line `installed T`, `updated T` or `erased T` for
/// each change of the list, or `nothing changes`. The contents come from the repository, which is only read. It takes effect as a whole
/// or not at all, whenever the machine stops.
pub fn sync_to_model<T: TreeDisk, P: TreeDisk>(
    alloc: Global,
    options: &Options,
    opened: &mut Opened,
    repo: &mut P,
    root: &mut T,
) -> Result<Text, Failure>
    requires { AreReady T.disk P.disk (disks root.old repo.old opened.old) }
    ensures performs { (input : List ℕ) → Performs T.disk P.disk (spec.sync options.now) input (disks root.old repo.old opened.old)
        (disks root.new repo.new opened.new) result }
    // Also where other contents of the repository, or records and saved contents of the root, are damaged.
    ensures whole { (input : List ℕ) → AnswersByContents T.disk P.disk (spec.sync options.now) input (disks root.old repo.old opened.old)
        (disks root.new repo.new opened.new) result }
    // The repository is only read.
    ensures repo_read { Reads P.disk repo.old repo.new (Unit {0}) }
    // Where it is done, a further command may begin.
    ensures again { OnOk result (AreReady T.disk P.disk (disks root.new repo.new opened.new)) }
{
    store_laws();
    let config = on_root(read_config(alloc, root))?;
    sync_with(alloc, options, &config, opened, repo, root)
}
