//! What `sync` leads to.
ghost use Rattle.std.specs.Prelude.{◌≡◌, ℕ, List, Ok, Result};
ghost use Rattle.conary_cli.specs.cli-call.cny-base.declared.options.Options.{Options};
ghost use Rattle.conary_cli.specs.cli-call.cny-base.declared.refusal.Refusal.{Refusal};
ghost use Rattle.conary_cli.specs.cli-call.system-core.FixedDirs.{fixed_dirs};
ghost use Rattle.conary_cli.specs.cli-call.Answer.{answer};
ghost use Rattle.conary_cli.specs.cli-call.cny-laws.State.{after, Effect, State, tree_of};
ghost use Rattle.conary_cli.specs.cli-call.cny-laws.WholeCall.{Outcome};
ghost use Rattle.cny_report.specs.Troves.{nothing_changes};
ghost use Rattle.conary_cli.specs.root-commands.Syncing.{sync};
ghost use Rattle.outcome_laws.specs.OneOutcome.{IsState};
ghost use Rattle.outcome_laws.specs.Syncs.{KeepsModel, WantsList};

use crate::outcomes::one_sync;

/// A root follows its model once `sync` is done.
pub fn synced_roots()
    // The installed list is then the one that the model wanted.
    ensures wanted { (options : Options) (s : State) (input : List ℕ) (e : Effect) → Outcome (sync options) s input (Ok e) → WantsList s (after s e.change).root.installed }
    // From then on it changes nothing and isn't refused, while that list is installed, the repository has the same commits, and neither of
    // the two files has changed: also not after edits at other paths, whatever its options are.
    ensures still { (options other : Options) (s t : State) (input more : List ℕ) (e : Effect) (outcome : Result Effect Refusal) → Outcome (sync options) s input (Ok e) → IsState t
        → KeepsModel s t (after s e.change).root.installed → fixed_dirs (tree_of t.root) ≡ Ok tt → Outcome (sync other) t more outcome → outcome ≡ Ok (answer nothing_changes) }
{
    one_sync();
}
