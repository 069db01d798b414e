//! The states of which is said what a call does over damaged disks: there is one with what was read.
ghost use Rattle.std.specs.Prelude.{IsTrue};
ghost use Rattle.conary_cli.specs.cli-call.cny-laws.Call.{AreOpened, HasOpened, HasWholeContents};
ghost use Rattle.conary_cli.specs.cli-call.cny-laws.State.{State};
ghost use Rattle.conary_cli.specs.cli-call.cny-laws.declared.opened.Opened.{Opened};

use conary_cli::cli_call::tree_disk::TreeDisk;

/// Of a root that is told and was opened, there is a state that has its tree, its database and the catalogue, and the contents of the
/// repository that stand whole.
pub fn opened_states<T: TreeDisk, P: TreeDisk>()
    ensures { (root root' : T) (repo repo' : P) (opened : Opened) → IsTrue T.disk.tells → AreOpened T.disk P.disk root root' repo repo' opened
        → (s : State) × HasOpened T.disk root' opened s × HasWholeContents P.disk repo' opened s }
{}
