//! Laws of the machine over histories: lists of calls of the program, edits by others and crashes.
ghost use Rattle.std.specs.Prelude.{◌≡◌, ◌≤◌, Ok, ℕ, List, ◌∷◌, ◌++◌, map, None, Result, true, false};
ghost use Rattle.conary_cli.specs.cli-call.cny-base.declared.refusal.Refusal.{Refusal};
ghost use Rattle.conary_cli.specs.cli-call.tree-disk.Tree.{Tree};
ghost use Rattle.conary_cli.specs.cli-call.system-core.FixedDirs.{fixed_dirs};
ghost use Rattle.conary_cli.specs.cli-call.system-core.Restoring.{IsUnedited};
ghost use Rattle.conary_cli.specs.cli-call.cny-laws.Reading.{given};
ghost use Rattle.conary_cli.specs.cli-call.cny-laws.State.{Effect, IsNext, State, tree_of};
ghost use Rattle.conary_cli.specs.cli-call.cny-laws.WholeCall.{Outcome};
ghost use Rattle.cny_batch.specs.declared.line.Line.{Line};
ghost use Rattle.conary_cli.specs.cli-call.local-db.SystemState.{empty_system, is_listed, StackItem};
ghost use Rattle.conary_cli.specs.root-commands.RollingBack.{roll_back};
ghost use Rattle.conary_cli.specs.cli-words.declared.call_words.Call.TheVariants as call;
ghost use Rattle.conary_cli.specs.cli-words.declared.words.Command.{Command};
ghost use Rattle.conary_cli.specs.cli-words.Calls.{AreCall};
ghost use Rattle.conary_cli.specs.Commands.{meaning};
ghost use Rattle.conary_cli.specs.Lines.{CallLine};
ghost use Rattle.conary_cli.specs.Several.{AreBatchLines, AreDemoLines};
ghost use Rattle.conary_cli.specs.cli-words.Words.{AreWords};
ghost use Rattle.outcome_laws.specs.OneOutcome.{AtMostOne, HasOneOutcome, IsState};
ghost use Rattle.outcome_laws.specs.RootSteps.{HasSoundLists, StepsRoot};
ghost use Rattle.outcome_laws.specs.Restoring.{EndsRestored};
ghost use Rattle.outcome_laws.specs.Machine.{Answers, AnswersCall, AnswersLine};
ghost use Rattle.outcome_laws.specs.Histories.{AfterCall, AfterLines, Answered, Event, Folds, LinesOf, OfEdits, lines_done};

use crate::outcomes::{
    one_commit, one_cook, one_description, one_erasure, one_installation, one_list_committed,
    one_list_installed, one_list_jobs, one_local_change, one_mirror_asking, one_mirror_taking,
    one_moving, one_rollback, one_sending, one_serving, one_sync, one_update, one_update_by_input,
    one_verification,
};
use cny_version::distinct_texts;
use conary_cli::cny_batch::one_batch;

/// Each command has one outcome at most.
pub fn one_outcome()
    ensures { (c : Command) → HasOneOutcome (meaning c) }
{
    one_installation();
    one_description();
    one_cook();
    one_commit();
    one_serving();
    one_mirror_asking();
    one_mirror_taking();
    one_list_committed();
    one_update();
    one_update_by_input();
    one_sync();
    one_erasure();
    one_rollback();
    one_list_installed();
    one_verification();
    one_list_jobs();
    one_local_change();
    one_sending();
    one_moving();
}

/// Words are one thing at most, a command or none for a reason, and they call one thing at most.
pub fn one_reading()
    ensures words { (words : List (List ℕ)) → AtMostOne (AreWords words) }
    ensures calls { (words : List (List ℕ)) → AtMostOne (AreCall words) }
{
    distinct_texts();
}

/// A command leaves the root as it is, puts one job on its stack, or takes back its newest jobs.
pub fn root_steps()
    ensures { (c : Command) (s : State) (input : List ℕ) (outcome : Result Effect Refusal) → Outcome (meaning c) s input outcome → StepsRoot s outcome }
{}

/// The installed lists to which calls, edits and crashes lead, and those to which a rollback leads back, are closed, and no two troves
/// of them share a path that isn't a directory in both: from a root on which nothing is installed, and from each one of which this holds.
pub fn sound_lists()
    ensures empty { (tree : Tree) → HasSoundLists (empty_system tree) }
    ensures kept { (events : List Event) (cuts : List ℕ) (s t : State) → HasSoundLists s.root → Folds events cuts s t → HasSoundLists t.root }
{}

/// What a rollback restores. Right after a job its item is the newest of the stack, and the tree is the one that it left; behind calls,
/// crashes and edits it is the newest again.
pub fn restored_jobs()
    // Where no edit was at one of its paths, what stands at them has the fingerprints that the job left.
    ensures unedited { (o : StackItem) (olds rest : List StackItem) (events : List Event) (cuts : List ℕ) (s t : State) → IsState s → s.root.stack ≡ o ∷ olds → s.root.tree ≡ o.after
        → Folds events cuts s t → t.root.stack ≡ o ∷ rest → OfEdits (λ e. is_listed o.paths e.path ≡ false) events → IsUnedited o t.root.tree }
    // Where there was no edit at all, the tree is the one that the job left.
    ensures whole { (o : StackItem) (olds rest : List StackItem) (events : List Event) (cuts : List ℕ) (s t : State) → IsState s → s.root.stack ≡ o ∷ olds → s.root.tree ≡ o.after
        → Folds events cuts s t → t.root.stack ≡ o ∷ rest → OfEdits (λ e. ⊥) events → t.root.tree ≡ o.after }
    // Where what stands at its paths has these fingerprints, its rollback restores what stood there before it, and the list; or it is
    // refused with one of the two exceptions.
    ensures restored { (o : StackItem) (olds : List StackItem) (s : State) (input : List ℕ) (outcome : Result Effect Refusal) → IsState s → fixed_dirs (tree_of s.root) ≡ Ok tt
        → s.root.stack ≡ o ∷ olds → IsUnedited o s.root.tree → Outcome (roll_back None) s input outcome → EndsRestored o s outcome }
{}

/// A state that keeps the rules has one answer at most to a line and to a call; and a history has one fold for its cuts, and without
/// crashes one list of answers. Its states keep the rules.
pub fn one_history()
    ensures line { (l : CallLine) (s : State) → IsState s → AtMostOne (AnswersLine l s) }
    ensures call { (l : Line) (s : State) → IsState s → AtMostOne (AnswersCall l s) }
    ensures answered { (events : List Event) (said other : List Answers) (s t u : State) → IsState s → Answered events said s t → Answered events other s u → (said ≡ other) × (t ≡ u) }
    ensures folds { (events : List Event) (cuts : List ℕ) (s : State) → IsState s → AtMostOne (Folds events cuts s) }
    // Without crashes it is the fold in which all lines count that are done.
    ensures counted { (events : List Event) (said : List Answers) (s t : State) → Answered events said s t → Folds events (map lines_done said) s t }
    // One history after another has one fold after the other.
    ensures joined { (events more : List Event) (cuts others : List ℕ) (s t u : State) → Folds events cuts s t → Folds more others t u → Folds (events ++ more) (cuts ++ others) s u }
    ensures rules { (events : List Event) (cuts : List ℕ) (s t : State) → IsState s → Folds events cuts s t → IsState t }
{
    one_outcome();
    one_reading();
    one_batch();
}

/// What counts of a call, by what its words are.
pub fn counted_calls()
    // Of one command the state before it is that of which no line counts, and the one after an effect that of which its line does.
    ensures single { (l : Line) (c : Command) (input : List ℕ) (s next : State) → AreCall l.words (Ok (call.Single c)) → AreWords l.words (Ok c) → ((meaning c).takes_input ≡ true → input ≡ l.input)
        → IsState next → IsNext (Outcome (meaning c) s input) s next → (count : ℕ) × (count ≤ 1) × AfterCall l count s next }
    // Where the fixed directories stand, the lines of a batch are those that its input is, and the demo has its own.
    ensures batch { (l : Line) (s : State) (bytes : List ℕ) (lines : List CallLine) → AreCall l.words (Ok call.Batch) → fixed_dirs (tree_of s.root) ≡ Ok tt → given true l.input ≡ Ok bytes
        → AreBatchLines bytes (Ok lines) → LinesOf l s lines }
    ensures demo { (l : Line) (s : State) (packages : ℕ) (bytes : List ℕ) (lines : List CallLine) → AreCall l.words (Ok (call.Demo packages)) → fixed_dirs (tree_of s.root) ≡ Ok tt
        → AreDemoLines packages bytes (Ok lines) → LinesOf l s lines }
    // The first so many of its lines count.
    ensures several { (l : Line) (s t : State) (lines : List CallLine) (count : ℕ) → LinesOf l s lines → AfterLines count lines s t → AfterCall l count s t }
{}
