//! The command that takes troves away.
ghost use Rattle.std.specs.Prelude.{List, ℕ, OnOk};
ghost use Rattle.cli_call.specs.Alone.{AnswersByOpened, PerformsAlone};
ghost use Rattle.cli_call.specs.Command.{disks, AreReady, Performs};
ghost use Rattle.root_commands.specs.Erase as spec;

use cli_call::cny_base::{Name, Options, Text};
use cli_call::system_core::erase;
use cli_call::tree_disk::TreeDisk;
use cli_call::{Failure, Opened, on_root, store_laws};
use cny_report::changes_text;
use local_db::distinct_databases;
use std::alloc::Global;

/// Takes the troves of these names away, with what they reach by references and no other installed trove keeps: a line `erased T` for
/// each, in the order of their names, or `nothing changes`. It takes effect as a whole or not at all, whenever the machine stops.
pub fn erase_troves<T: TreeDisk, P: TreeDisk>(
    alloc: Global,
    names: &[Name],
    options: &Options,
    opened: &mut Opened,
    repo: &P,
    root: &mut T,
) -> Result<Text, Failure>
    requires { AreReady T.disk P.disk (disks root.old repo.now opened.old) }
    ensures performs { (input : List ℕ) → Performs T.disk P.disk (spec.erase names.now options.now) input (disks root.old repo.now opened.old)
        (disks root.new repo.now opened.new) result }
    ensures alone { (input : List ℕ) → PerformsAlone T.disk P.disk (spec.erase names.now options.now) input (disks root.old repo.now opened.old)
        (disks root.new repo.now opened.new) result }
    // Also where records or saved contents of the root are damaged.
    ensures opened { (input : List ℕ) → AnswersByOpened T.disk P.disk (spec.erase names.now options.now) input (disks root.old repo.now opened.old)
        (disks root.new repo.now opened.new) result }
    // Where it is done, a further command may begin.
    ensures again { OnOk result (AreReady T.disk P.disk (disks root.new repo.now opened.new)) }
{
    store_laws();
    distinct_databases();
    let done = on_root(erase(alloc, root, &mut opened.db, names, options))?;
    Ok(changes_text(alloc, done.changes.get())?)
}
