//! What follows of the promise of a call.
ghost use Rattle.std.specs.Prelude.{◌≤◌, List, ℕ};
ghost use Rattle.cny_version.specs.cny-base.Flow.{SinkState};
ghost use Rattle.root_commands.specs.cli-call.cny-laws.Call.{CallState};
ghost use Rattle.cli_words.specs.declared.words.Command.{Command};
ghost use Rattle.conary_cli.specs.Commands.{IsCommandCall, IsSomeCall};
ghost use Rattle.conary_cli.specs.FormDecides.{FormDecides};
ghost use Rattle.conary_cli.specs.Program.{IsSomething};

use cny_manifest::one_manifest;
use root_commands::cli_call::change_set::unique_set;
use root_commands::cli_call::tree_disk::TreeDisk;

/// What a call promises of its status, and by the form of its input.
pub fn call_laws<T: TreeDisk, P: TreeDisk>()
    // Whatever the words are, and however the call ends, no status is above 8.
    ensures statuses { (words : List (List ℕ)) (before now : CallState T P) (err err' : SinkState) (status : ℕ) → IsSomething T.disk P.disk words before now err err' status → status ≤ 8 }
    // So it is of a line by itself.
    ensures lines { (words : List (List ℕ)) (before now : CallState T P) (err err' : SinkState) (status : ℕ) → IsSomeCall T.disk P.disk words before now err err' status → status ≤ 8 }
    // What the form of the input decides.
    ensures form { (c : Command) (before now : CallState T P) (err err' : SinkState) (status : ℕ) (call : IsCommandCall T.disk P.disk c before now err err' status)
        → FormDecides T.disk P.disk c call.call.input before now call.call.end }
{
    // One input is one change set at most, and makes one value at most.
    unique_set();
    one_manifest();
}
