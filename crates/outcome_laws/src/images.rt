//! What a crash leaves of both disks after each event of a history: by a list of states, to one of which both disks recover.
ghost use Rattle.std.specs.Prelude.{◌≡◌, ◌⊎◌, ◌≤◌, ℕ, IsTrue, List, [], ◌∷◌, map, true, false, Contains};
ghost use Rattle.cny_base.specs.Flow.{SinkState};
ghost use Rattle.conary_cli.specs.cli-call.cny-base.Reserved.{private_directory};
ghost use Rattle.conary_cli.specs.cli-call.tree-journal.Recovery.{is_committed, HoldsLog};
ghost use Rattle.conary_cli.specs.cli-call.tree-journal.CanBePut.{AllCanBePut};
ghost use Rattle.conary_cli.specs.cli-call.journal-log.declared.put.Put.{Put};
ghost use Rattle.conary_cli.specs.cli-call.cny-laws.Call.{CallState, NotOpened};
ghost use Rattle.conary_cli.specs.cli-call.cny-laws.Edits.{edits_beside, Edit, HasEdited, IsEdit};
ghost use Rattle.conary_cli.specs.cli-call.cny-laws.Report.{status_of};
ghost use Rattle.conary_cli.specs.cli-call.cny-laws.State.{State};
ghost use Rattle.conary_cli.specs.cli-call.cny-laws.WholeCall.{after_edits, CallFrom, IsCall, RecoversBoth, RestBoth};
ghost use Rattle.conary_cli.specs.cli-words.declared.words.Command.{Command};
ghost use Rattle.conary_cli.specs.Commands.{meaning, scope_of};
ghost use Rattle.conary_cli.specs.Several.{AreBatchLines, AreDemoLines, LinesWereRun};
ghost use Rattle.outcome_laws.specs.Histories.{Event, Folds};
ghost use Rattle.outcome_laws.specs.OnDisks.{Happen, Lead};
ghost use Rattle.outcome_laws.specs.Images.{CrashesAfter, CrashesTo, HasCrashed};

use crate::histories::one_reading;
use conary_cli::cli_call::store_laws;
use conary_cli::cli_call::tree_disk::TreeDisk;

/// What a crash leaves of both disks, where they are told.
pub fn crash_images<T: TreeDisk, P: TreeDisk>()
    // After a call of a command, however it ended: the disks recovered to one of the states as they read, and the call is one from that;
    // and from then on a crash leaves one of the same states, or the one after the call.
    ensures call { (states : List State) (c : Command) (before now : CallState T P) (err err' : SinkState) (status : ℕ) → IsTrue T.disk.tells → IsTrue P.disk.tells
        → CrashesTo T.disk P.disk (Contains states) before.root before.repo → (call : IsCall T.disk P.disk (scope_of c) (meaning c) before now err err' status)
        → (s : State) × Contains states s × (f : CallFrom T.disk P.disk (meaning c) call.input s before now call.end) × CrashesTo T.disk P.disk (Contains (f.next ∷ states)) now.root now.repo }
    // After a status up to 4 both rest at the state after the call, unless they weren't opened.
    ensures settled { (c : Command) (before now : CallState T P) (err err' : SinkState) (status : ℕ) → IsTrue T.disk.tells → IsTrue P.disk.tells
        → (call : IsCall T.disk P.disk (scope_of c) (meaning c) before now err err' status) → (s : State) (f : CallFrom T.disk P.disk (meaning c) call.input s before now call.end) → status_of call.end ≤ 4
        → NotOpened T.disk P.disk before now call.end ⊎ RestBoth T.disk P.disk now f.next }
    // After lines of a batch, or of the demo, that were run: the state after the lines before the last one that was run, or after that one
    // too; and where all were done, the state after all.
    ensures batch { (before now : CallState T P) (err err' : SinkState) (status : ℕ) → (run : LinesWereRun T.disk P.disk true AreBatchLines before now err err' status)
        → IsTrue T.disk.tells → IsTrue P.disk.tells → (s : State) → RecoversBoth T.disk P.disk before s → CrashesAfter T.disk P.disk run.lines s run.end now.root now.repo }
    ensures demo { (packages : ℕ) (before now : CallState T P) (err err' : SinkState) (status : ℕ) → (run : LinesWereRun T.disk P.disk false (AreDemoLines packages) before now err err' status)
        → IsTrue T.disk.tells → IsTrue P.disk.tells → (s : State) → RecoversBoth T.disk P.disk before s → CrashesAfter T.disk P.disk run.lines s run.end now.root now.repo }
    // Of two disks that rest at a state only this is left.
    ensures rest { (m : CallState T P) (s : State) → RestBoth T.disk P.disk m s → CrashesTo T.disk P.disk (Contains (s ∷ [])) m.root m.repo }
    // After a crash none that couldn't be left before it.
    ensures crash { (states : List State) (root root' : T) (repo repo' : P) → HasCrashed T.disk root root' → HasCrashed P.disk repo repo'
        → CrashesTo T.disk P.disk (Contains states) root repo → CrashesTo T.disk P.disk (Contains states) root' repo' }
    // After an edit of the root the states have it, where the commit flag isn't set.
    ensures edit { (states : List State) (e : Edit) (root root' : T) (repo : P) → IsEdit (T.disk.reads root) e → HasEdited T.disk e root root' → is_committed private_directory (T.disk.reads root) ≡ false
        → CrashesTo T.disk P.disk (Contains states) root repo → CrashesTo T.disk P.disk (Contains (map (λ s. after_edits s (e ∷ [])) states)) root' repo }
    // Where it is set, and the log can be put after it, they have it unless the log puts something at its path.
    ensures edit_logged { (states : List State) (e : Edit) (puts : List Put) (root root' : T) (repo : P) → IsEdit (T.disk.reads root) e → HasEdited T.disk e root root' → is_committed private_directory (T.disk.reads root) ≡ true
        → HoldsLog private_directory puts (T.disk.reads root) → AllCanBePut puts (T.disk.reads root') → CrashesTo T.disk P.disk (Contains states) root repo
        → CrashesTo T.disk P.disk (Contains (map (λ s. after_edits s (edits_beside puts (e ∷ []))) states)) root' repo }
{
    // What the disks store is told by the names that count.
    store_laws();
}

/// A HISTORY on two disks that are told. Whatever the calls and crashes are, and the edits while the commit flag isn't set: from a state to
/// which both disks recover, also after a crash, they lead to disks that recover, also after a crash, to its fold, for cuts that the
/// statuses of the calls tell.
pub fn crash_histories<T: TreeDisk, P: TreeDisk>()
    ensures left { (events : List Event) (statuses : List ℕ) (root root' : T) (repo repo' : P) (s : State) → IsTrue T.disk.tells → IsTrue P.disk.tells → CrashesTo T.disk P.disk (λ t. t ≡ s) root repo
        → Happen T.disk P.disk events statuses root root' repo repo' → CrashesTo T.disk P.disk (Lead events statuses s) root' repo' }
    ensures fold { (events : List Event) (statuses : List ℕ) (s t : State) → Lead events statuses s t → (cuts : List ℕ) × Folds events cuts s t }
{
    // What the disks store is told by the names that count.
    store_laws();
    one_reading();
}
