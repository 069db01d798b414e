//! The law of the commands by which a repository takes over what it lacks of another one.
ghost use Rattle.std.specs.Prelude.{◌≡◌};
ghost use Rattle.cli_call.specs.cny-laws.State.{after, Effect, State};
ghost use Rattle.cny_report.specs.Troves.{nothing_changes};
ghost use Rattle.repo_load.specs.State.{troves_of};
ghost use Rattle.repo_mirror.specs.Missing.{missing_of};
ghost use Rattle.repo_mirror.specs.Mirroring.{Mirrors};
ghost use Rattle.repo_commands.specs.Mirrored.{IsMirrored};

use repo_mirror::{mirrored, one_asking, one_stream, taken_and_committed};

/// Where `mirror ask` of a repository, `serve` of its answer by another one and `mirror take` of what that answers are done, the first
/// one mirrored the other one.
pub fn mirrored_by_commands()
    ensures mirrors { (own other : State) (told : Effect) → IsMirrored own other told
        → Mirrors other.repository own.repository (after own told.change).repository }
    // And where no commit was cut off, the same once more changes nothing, and says so.
    ensures again { (before own other : State) (told : Effect) (it : Mirrors other.repository before.repository own.repository)
        → it.troves ≡ missing_of it.ids (troves_of other.repository.commits) → IsMirrored own other told
        → ((after own told.change).repository ≡ own.repository) × (told.out ≡ nothing_changes) }
{
    mirrored();
    one_asking();
    one_stream();
    taken_and_committed();
}
