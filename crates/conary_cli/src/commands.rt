//! The table of commands: what each takes, and which function performs it.
ghost use Rattle.std.specs.Prelude.{◌≡◌, List, ℕ, not, true, OnOk};
ghost use Rattle.root_commands.specs.cli-call.Alone.{AnswersByContents, AnswersByTree, PerformsAlone};
ghost use Rattle.root_commands.specs.cli-call.Command.{disks, AreReady, Performs};
ghost use Rattle.root_commands.specs.cli-call.tree-disk.Disk.{Reads};
ghost use Rattle.conary_cli.specs.Commands.{erasing, is_of_root, meaning, verify, PerformsCommand};

use cli_words::Command;
use repo_commands::{
    ask_mirror, commit_input, commit_moved, cook_manifest, list_committed, send_changes,
    serve_requests, show_change_set, take_mirror,
};
use root_commands::cli_call::cny_base::{Bytes, Name, Options, Text};
use root_commands::cli_call::tree_disk::TreeDisk;
use root_commands::cli_call::{Failure, Opened};
use root_commands::{
    change_locally, erase_troves, install_manifest, list_installed, list_jobs, roll_back,
    sync_to_model, update_input, update_specs, verify_fully, verify_installed,
};
use std::alloc::Global;

/// Whether the command takes an input.
pub fn takes_input(command: &Command) -> bool
    ensures { result ≡ (meaning command.now).takes_input }
{
    match command {
        Command::Install { .. } => true,
        Command::ShowChangeSet => true,
        Command::Cook { .. } => true,
        Command::Commit => true,
        Command::ListCommitted { .. } => false,
        Command::Update { .. } => false,
        Command::UpdateByInput { .. } => true,
        Command::Sync { .. } => false,
        Command::Erase { .. } => false,
        Command::Rollback { .. } => false,
        Command::ListInstalled { .. } => false,
        Command::Verify { .. } => false,
        Command::ListJobs => false,
        Command::LocalChanges { .. } => false,
        Command::SendChanges { .. } => false,
        Command::Serve => true,
        Command::AskMirror => false,
        Command::TakeMirror => true,
        Command::Move { .. } => false,
    }
}

/// Whether the command works on the root alone.
pub fn works_on_root(command: &Command) -> bool
    ensures { result ≡ is_of_root command.now }
{
    match command {
        Command::Install { .. } => true,
        Command::ShowChangeSet => true,
        Command::Cook { .. } => false,
        Command::Commit => false,
        Command::ListCommitted { .. } => false,
        Command::Update { .. } => false,
        Command::UpdateByInput { .. } => false,
        Command::Sync { .. } => false,
        Command::Erase { .. } => true,
        Command::Rollback { .. } => true,
        Command::ListInstalled { .. } => true,
        Command::Verify { full, .. } => !*full,
        Command::ListJobs => true,
        Command::LocalChanges { .. } => true,
        Command::SendChanges { .. } => false,
        Command::Serve => false,
        Command::AskMirror => false,
        Command::TakeMirror => false,
        Command::Move { .. } => false,
    }
}

// What takes troves away may have been told to do so where paths were edited; there is no file to keep.
fn erasing(replace: bool) -> Options
    ensures { result ≡ erasing replace }
{
    Options {
        replace,
        keep: false,
    }
}

// What a command answers, as bytes.
fn as_bytes(answered: Result<Text, Failure>) -> Result<Bytes, Failure>
    ensures { result ≡ answered }
{
    match answered {
        Ok(text) => Ok(Bytes::from_vec(text.into_string().into_bytes())),
        Err(failure) => Err(failure),
    }
}

// Compares the root with what is recorded, with the repository's contents or without.
fn verify<T: TreeDisk, P: TreeDisk>(
    alloc: Global,
    full: bool,
    names: &[Name],
    opened: &Opened,
    repo: &mut P,
    root: &mut T,
) -> Result<Text, Failure>
    requires { AreReady T.disk P.disk (disks root.old repo.old opened.now) }
    ensures performs { (input : List ℕ) → Performs T.disk P.disk (verify full names.now) input (disks root.old repo.old opened.now) (disks root.new repo.new opened.now) result }
    ensures alone { not full ≡ true → (input : List ℕ) → PerformsAlone T.disk P.disk (verify full names.now) input (disks root.old repo.old opened.now) (disks root.new repo.new opened.now) result }
    ensures tree { not full ≡ true → (input : List ℕ) → AnswersByTree T.disk P.disk (verify full names.now) input (disks root.old repo.old opened.now) (disks root.new repo.new opened.now) result }
    ensures whole { full ≡ true → (input : List ℕ) → AnswersByContents T.disk P.disk (verify full names.now) input (disks root.old repo.old opened.now) (disks root.new repo.new opened.now) result }
    // Both disks are only read.
    ensures root_read { Reads T.disk root.old root.new (Unit {0}) }
    ensures repo_read { Reads P.disk repo.old repo.new (Unit {0}) }
    // Where it is done, a further command may begin.
    ensures again { OnOk result (AreReady T.disk P.disk (disks root.new repo.new opened.now)) }
{
    if full {
        return verify_fully(alloc, names, opened, repo, root);
    }
    verify_installed(alloc, names, opened, repo, root)
}

/// Performs a command over two disks that are open, with this input.
pub fn perform<T: TreeDisk, P: TreeDisk>(
    alloc: Global,
    command: &Command,
    input: &[u8],
    opened: &mut Opened,
    repo: &mut P,
    root: &mut T,
) -> Result<Bytes, Failure>
    requires { AreReady T.disk P.disk (disks root.old repo.old opened.old) }
    ensures performs { PerformsCommand T.disk P.disk command.now input.now (disks root.old repo.old opened.old) (disks root.new repo.new opened.new) result }
    // Where it is done, a further command may begin.
    ensures again { OnOk result (AreReady T.disk P.disk (disks root.new repo.new opened.new)) }
{
    match command {
        Command::Install { options } => {
            as_bytes(install_manifest(alloc, options, input, opened, repo, root))
        }
        Command::ShowChangeSet => { as_bytes(show_change_set(alloc, input, opened, repo, root)) }
        Command::Cook { next } => {
            as_bytes(cook_manifest(alloc, *next, input, opened, repo, root))
        }
        Command::Commit => as_bytes(commit_input(alloc, input, opened, repo, root)),
        Command::ListCommitted { name } => {
            as_bytes(list_committed(alloc, name, opened, repo, root))
        }
        Command::Update {
            specs,
            options,
            resolve,
        } => { as_bytes(update_specs(alloc, options, *resolve, specs.get(), opened, repo, root)) }
        Command::UpdateByInput { options } => {
            as_bytes(update_input(alloc, options, input, opened, repo, root))
        }
        Command::Sync { options } => { as_bytes(sync_to_model(alloc, options, opened, repo, root)) }
        Command::Erase { names, replace } => {
            as_bytes(erase_troves(alloc, names.get(), &erasing(*replace), opened, repo, root))
        }
        Command::Rollback { number } => { as_bytes(roll_back(alloc, *number, opened, repo, root)) }
        Command::ListInstalled { name } => {
            as_bytes(list_installed(alloc, name, opened, repo, root))
        }
        Command::Verify { full, names } => {
            as_bytes(verify(alloc, *full, names.get(), opened, repo, root))
        }
        Command::ListJobs => as_bytes(list_jobs(alloc, opened, repo, root)),
        Command::LocalChanges { name } => change_locally(alloc, name, opened, repo, root),
        Command::SendChanges { from, to } => send_changes(alloc, from, to, opened, repo, root),
        Command::Serve => serve_requests(alloc, input, opened, repo, root),
        Command::AskMirror => ask_mirror(alloc, opened, repo, root),
        Command::TakeMirror => as_bytes(take_mirror(alloc, input, opened, repo, root)),
        Command::Move { way, label, given } => {
            as_bytes(commit_moved(alloc, *way, label, given, opened, repo, root))
        }
    }
}
