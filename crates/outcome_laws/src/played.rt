//! What follows of a history that was made.
ghost use Rattle.std.specs.Prelude.{◌≡◌, ◌⊎◌, ◌≤◌, ℕ, List, ◌∷◌, ◌++◌, length, None, Ok, Result};
ghost use Rattle.conary_cli.specs.cli-call.cny-base.declared.text.OutOfMemory.{OutOfMemory};
ghost use Rattle.conary_cli.specs.cli-call.cny-laws.Call.{StopsAtRepository};
ghost use Rattle.conary_cli.specs.cli-call.cny-laws.State.{State};
ghost use Rattle.conary_cli.specs.cli-call.cny-laws.declared.failure.Failure.{Failure};
ghost use Rattle.conary_cli.specs.cli-call.local-db.SystemState.{StackItem};
ghost use Rattle.conary_cli.specs.cli-call.tree-disk.Confined.{IsSynced};
ghost use Rattle.conary_cli.specs.cli-words.declared.words.Command.TheVariants as command;
ghost use Rattle.conary_cli.specs.cli-words.Words.{AreWords};
ghost use Rattle.conary_cli.specs.Lines.{CallLine};
ghost use Rattle.cny_batch.specs.declared.line.Line.{Line};
ghost use Rattle.tree_memory.specs.declared.memory.MemoryTree.{MemoryTree};
ghost use Rattle.tree_memory.specs.Memory.{memory_disk, state};
ghost use Rattle.outcome_laws.specs.declared.playing.Event.{Event};
ghost use Rattle.outcome_laws.specs.declared.playing.Event.TheVariants as event;
ghost use Rattle.outcome_laws.specs.Cuts.{CannotPut};
ghost use Rattle.outcome_laws.specs.Histories.{Answered, Event as HistoryEvent, Folds};
ghost use Rattle.outcome_laws.specs.Images.{CrashesTo};
ghost use Rattle.outcome_laws.specs.Machine.{Answer, Answers, AnswersLine};
ghost use Rattle.outcome_laws.specs.OneOutcome.{IsState};
ghost use Rattle.outcome_laws.specs.Play.{answered, AreLeft, EventEnd, MakesAll, MakesBy, WasMade};
ghost use Rattle.outcome_laws.specs.Played.{AreSaid, AreUncut, FoldsTo, FoldsTold, IsHistory, IsLeftBlocked, LeaveRoom, NotBothOpened, Stands};
ghost use Rattle.outcome_laws.specs.RolledBack.{CallsRollback, EndsBack, HasSteps, IsUntouched, RestoresAt};
ghost use Rattle.outcome_laws.specs.Steps.{OfAlterations, Step};

use crate::histories::one_reading;
use conary_cli::cli_call::store_laws;

/// What follows of the events that `play` made.
pub fn played_laws()
    // A state to which disks recover keeps the rules.
    ensures rules { (root repo : MemoryTree) (s : State) → CrashesTo memory_disk memory_disk (λ t. t ≡ s) root repo → IsState s }
    // The fold for cuts that the calls tell is the machine's fold of these events, but for edits that are lost.
    ensures fold { (events : List Event) (ends : List EventEnd) (cuts : List ℕ) (s t : State) → FoldsTold events ends cuts s t
        → (history : List HistoryEvent) × IsHistory events ends history × Folds history cuts s t }
    // Without crashes, and where each call ended in status 0, 1 or 2, these statuses, what was written and the states are those of the
    // machine's answers.
    ensures answered { (events : List Event) (ends : List EventEnd) (cuts : List ℕ) (s t : State) → AreUncut ends → FoldsTold events ends cuts s t
        → (history : List HistoryEvent) × IsHistory events ends history × (said : List Answers) × Answered history said s t × AreSaid ends said }
    // Once nothing is unsynced on either disk, both recover to one state, from which the later events lead: the cuts of the calls before
    // are fixed.
    ensures fixed { (events rest : List Event) (ends later : List EventEnd) (result : Result (Unit {0}) OutOfMemory) (root mid root' repo far repo' : MemoryTree) (s : State) → CrashesTo memory_disk memory_disk (λ t. t ≡ s) root repo
        → MakesAll events ends root mid repo far → IsSynced memory_disk mid → IsSynced memory_disk far → MakesBy result rest later mid root' far repo'
        → (t : State) × FoldsTo events ends s t × Stands (LeaveRoom events ends × LeaveRoom rest later) (FoldsTo rest later t) root' repo' }
    // So it is after a call that ended in a status up to 4, unless one of the disks wasn't opened; and after a crash.
    ensures synced { (l : Line) (status : ℕ) (out : List ℕ) (root root' repo repo' : MemoryTree) → WasMade l status out root root' repo repo' → status ≤ 4 → NotBothOpened root root' repo repo' ⊎ (IsSynced memory_disk root' × IsSynced memory_disk repo') }
    ensures crashed { (pick : ℕ) (root root' repo repo' : MemoryTree) → AreLeft pick root root' repo repo' → IsSynced memory_disk root' × IsSynced memory_disk repo' }
    // A call that opened both disks fixes the cuts of the calls before it, however it ends: it leads from one state, and so do the later events.
    ensures opened { (events rest : List Event) (l : Line) (ends later : List EventEnd) (status : ℕ) (out : List ℕ) (result : Result (Unit {0}) OutOfMemory) (root mid here root' repo far there repo' : MemoryTree) (s : State)
        → CrashesTo memory_disk memory_disk (λ t. t ≡ s) root repo → MakesAll events ends root mid repo far → WasMade l status out mid here far there → MakesBy result rest later here root' there repo'
        → NotBothOpened mid here far there ⊎ ((t : State) × FoldsTo events ends s t × Stands (LeaveRoom rest later) (FoldsTo (event.Call l ∷ rest) (answered (state mid).reads status out ∷ later) t) root' repo') }
    // Of one that didn't open both nothing counts; and where it opened the root alone, nothing is unsynced there.
    ensures unopened { (events : List Event) (ends : List EventEnd) (root root' repo repo' : MemoryTree) (s : State) → NotBothOpened root root' repo repo' → CrashesTo memory_disk memory_disk (FoldsTo events ends s) root repo
        → CrashesTo memory_disk memory_disk (FoldsTo events ends s) root' repo' }
    ensures root_synced { (root root' repo repo' : MemoryTree) (e : Failure) → StopsAtRepository memory_disk memory_disk root root' repo repo' e → IsSynced memory_disk root' }
    // While edits block a log, a call changes nothing.
    ensures blocked { (l : Line) (status : ℕ) (out : List ℕ) (root root' repo repo' : MemoryTree) → IsSynced memory_disk root → CannotPut (state root).reads → WasMade l status out root root' repo repo' → IsLeftBlocked status out root root' repo repo' }
{
    // What the disks store is told by the names that count.
    store_laws();
}

/// What the rollbacks restore among the events that `play` made. In the fold of all events that `play` promises, each `rollback`, wherever it
/// stands in the list, restores what stood before the newest job, if none of its paths was edited since, or is one of the two named exceptions.
pub fn played_rollbacks()
    // A call of `rollback` among them, or one into which a crash fell, by how it ended.
    ensures restored { (events behind : List Event) (e : Event) (ends later : List EventEnd) (end : EventEnd) (cuts : List ℕ) (r u : State) → IsState r → CallsRollback e → length ends ≡ length events
        → FoldsTold (events ++ e ∷ behind) (ends ++ end ∷ later) cuts r u → RestoresAt events ends e end behind later cuts r u }
    // The steps of the fold: the lines that count, those of batches too, and the edits but the lost ones, in order.
    ensures steps { (events : List Event) (ends : List EventEnd) (cuts : List ℕ) (s t : State) → FoldsTold events ends cuts s t → HasSteps events ends cuts s t }
    // A line `rollback` behind some of them, also one of a batch, by the machine's answer.
    ensures line { (o : StackItem) (steps : List Step) (r s : State) (l : CallLine) (a : Answer) → IsState r → IsUntouched o steps r s → AreWords l.line.words (Ok (command.Rollback None)) → AnswersLine l s a → EndsBack o s a.next a.end }
    // Without any edit since the job the tree is the one that it left; so its rollback leaves the one before it.
    ensures whole { (o : StackItem) (steps : List Step) (r s : State) → IsState r → (job : IsUntouched o steps r s) → OfAlterations (λ e. ⊥) job.since → s.root.tree ≡ o.after }
{
    one_reading();
}
