//! The command that installs what a manifest makes.
ghost use Rattle.std.specs.Prelude.{All, List, ℕ, OnOk};
ghost use Rattle.cli_call.specs.trove-stream.Trove.{IsTrove};
ghost use Rattle.cny_manifest.specs.Makes.{HasOwnContents};
ghost use Rattle.cli_call.specs.Alone.{AnswersByOpened, PerformsAlone};
ghost use Rattle.cli_call.specs.Command.{disks, AreReady, Performs};
ghost use Rattle.cli_call.specs.system-core.Lists.{AllPathsAllowed};
ghost use Rattle.root_commands.specs.Install as spec;

use cli_call::cny_base::{Options, Text};
use cli_call::content_store::NoContents;
use cli_call::system_core::update;
use cli_call::tree_disk::TreeDisk;
use cli_call::{Failure, Opened, on_root, store_laws};
use cny_manifest::{Made, read};
use cny_report::changes_text;
use local_db::distinct_databases;
use std::alloc::Global;
use update_job::check_allowed;

// The job of the troves that a manifest makes, with its contents, and nothing else.
fn install_made<T: TreeDisk, P: TreeDisk>(
    alloc: Global,
    options: &Options,
    made: &Made,
    opened: &mut Opened,
    repo: &P,
    root: &mut T,
) -> Result<Text, Failure>
    requires allowed { AllPathsAllowed made.now.troves }
    requires own { HasOwnContents made.now }
    requires ready { AreReady T.disk P.disk (disks root.old repo.now opened.old) }
    ensures performs { (input : List ℕ) → Performs T.disk P.disk (spec.install_made options.now made.now) input (disks root.old repo.now opened.old)
        (disks root.new repo.now opened.new) result }
    ensures alone { (input : List ℕ) → PerformsAlone T.disk P.disk (spec.install_made options.now made.now) input (disks root.old repo.now opened.old)
        (disks root.new repo.now opened.new) result }
    ensures opened { All IsTrove made.now.troves → (input : List ℕ) → AnswersByOpened T.disk P.disk (spec.install_made options.now made.now) input (disks root.old repo.now opened.old)
        (disks root.new repo.now opened.new) result }
    // Where it is done, a further command may begin.
    ensures again { OnOk result (AreReady T.disk P.disk (disks root.new repo.now opened.new)) }
{
    store_laws();
    distinct_databases();
    let mut far = NoContents;
    let done = on_root(update(
        alloc,
        root,
        &mut opened.db,
        made.troves.get(),
        made.contents.get(),
        &mut far,
        options,
    ))?;
    Ok(changes_text(alloc, done.changes.get())?)
}

/// Installs the troves that the manifest makes which the input is, each in place of what its name reached by references: a line
/// `installed T`, `updated T` or `erased T` for each change of the installed list, or `nothing changes`. It takes effect as a whole or
/// not at all, whenever the machine stops.
pub fn install_manifest<T: TreeDisk, P: TreeDisk>(
    alloc: Global,
    options: &Options,
    input: &[u8],
    opened: &mut Opened,
    repo: &P,
    root: &mut T,
) -> Result<Text, Failure>
    requires { AreReady T.disk P.disk (disks root.old repo.now opened.old) }
    ensures performs { Performs T.disk P.disk (spec.install options.now) input.now (disks root.old repo.now opened.old) (disks root.new repo.now opened.new) result }
    ensures alone { PerformsAlone T.disk P.disk (spec.install options.now) input.now (disks root.old repo.now opened.old) (disks root.new repo.now opened.new) result }
    // Also where records or saved contents of the root are damaged.
    ensures opened { AnswersByOpened T.disk P.disk (spec.install options.now) input.now (disks root.old repo.now opened.old) (disks root.new repo.now opened.new) result }
    // Where it is done, a further command may begin.
    ensures again { OnOk result (AreReady T.disk P.disk (disks root.new repo.now opened.new)) }
{
    store_laws();
    let made = read(alloc, input)?;
    check_allowed(alloc, made.troves.get())?;
    install_made(alloc, options, &made, opened, repo, root)
}
