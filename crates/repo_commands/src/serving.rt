//! The command by which a repository answers what another one asks for.
ghost use Rattle.std.specs.Prelude.{OnOk};
ghost use Rattle.cli_call.specs.Alone.{ActsOnRepository};
ghost use Rattle.cli_call.specs.Command.{disks, AreReady};
ghost use Rattle.cli_call.specs.tree-disk.Disk.{Reads};
ghost use Rattle.repo_commands.specs.Serving as spec;

use cli_call::cny_base::Bytes;
use cli_call::tree_disk::TreeDisk;
use cli_call::{Failure, Opened, on_repository, store_laws};
use repo_load::stored_state;
use repo_serve::{serve, sound_replies};
use std::alloc::Global;

/// The stream of replies to the stream of requests that the input is; or the refusal of its first item that has no reply:
/// `Malformed` with its place; `TooLarge` of a change set where what is missing is too much to be sent at all; and `TooLarge` of a
/// message where the replies would have more than 268,435,456 bytes. No name of a disk changes.
pub fn serve_requests<T: TreeDisk, P: TreeDisk>(
    alloc: Global,
    input: &[u8],
    opened: &Opened,
    repo: &mut P,
    root: &T,
) -> Result<Bytes, Failure>
    requires { AreReady T.disk P.disk (disks root.now repo.old opened.now) }
    ensures acts { ActsOnRepository T.disk P.disk spec.serve input.now (disks root.now repo.old opened.now) (disks root.now repo.new opened.now) result }
    // The repository is only read.
    ensures repo_read { Reads P.disk repo.old repo.new (Unit {0}) }
    // Where it is done, a further command may begin.
    ensures again { OnOk result (AreReady T.disk P.disk (disks root.now repo.new opened.now)) }
{
    store_laws();
    stored_state();
    sound_replies();
    on_repository(serve(alloc, repo, &opened.catalogue, input))
}
