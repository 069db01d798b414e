//! A command has at most one outcome on a state and an input.
ghost use Rattle.std.specs.Prelude.{ℕ, Bool, List, Option};
ghost use Rattle.conary_cli.specs.cli-call.cny-base.declared.options.Options.{Options};
ghost use Rattle.conary_cli.specs.cli-call.tree-disk.Tree.{Tree};
ghost use Rattle.conary_cli.specs.cli-call.local-db.Stores.{StoresSystem};
ghost use Rattle.conary_cli.specs.cli-call.cny-laws.State.{State};
ghost use Rattle.repo_load.specs.Files.{StoresRepository};
ghost use Rattle.cny_version.specs.Label.{LabelParts};
ghost use Rattle.repo_shadow.specs.declared.way.Way.{Way};
ghost use Rattle.trove_spec.specs.declared.given.GivenSpec.{GivenSpec};
ghost use Rattle.conary_cli.specs.repo-commands.AskMirror.{ask_mirror};
ghost use Rattle.conary_cli.specs.repo-commands.Commit.{commit};
ghost use Rattle.conary_cli.specs.repo-commands.Cook.{cook};
ghost use Rattle.conary_cli.specs.repo-commands.Listing.{list_committed};
ghost use Rattle.conary_cli.specs.repo-commands.Moving.{move};
ghost use Rattle.conary_cli.specs.repo-commands.Sending.{changeset};
ghost use Rattle.conary_cli.specs.repo-commands.Serving.{serve};
ghost use Rattle.conary_cli.specs.repo-commands.ShowChangeSet.{show_change_set};
ghost use Rattle.conary_cli.specs.repo-commands.TakeMirror.{take_mirror};
ghost use Rattle.conary_cli.specs.root-commands.Erase.{erase};
ghost use Rattle.conary_cli.specs.root-commands.Install.{install};
ghost use Rattle.conary_cli.specs.root-commands.Jobs.{list_jobs};
ghost use Rattle.conary_cli.specs.root-commands.Listing.{list_installed};
ghost use Rattle.conary_cli.specs.root-commands.LocalChanges.{change_locally};
ghost use Rattle.conary_cli.specs.root-commands.RollingBack.{roll_back};
ghost use Rattle.conary_cli.specs.root-commands.Syncing.{sync};
ghost use Rattle.conary_cli.specs.root-commands.Update.{update_input};
ghost use Rattle.conary_cli.specs.root-commands.UpdateSpecs.{update_specs};
ghost use Rattle.conary_cli.specs.root-commands.Verifying.{verify_fully, verify_installed};
ghost use Rattle.outcome_laws.specs.OneOutcome.{HasOneOutcome, IsState};

use change_rel::one_relative;
use change_rel::trove_stream::one_result;
use cny_manifest::one_manifest;
use cny_version::distinct_texts;
use conary_cli::cli_call::change_set::{one_fault, unique_set};
use conary_cli::repo_commands::repo_mirror::{one_asking, one_reply};
use conary_cli::repo_commands::repo_serve::one_answer;
use conflict_plan::one_plan;
use repo_shadow::one_move;
use repository::commit_step;
use trove_spec::one_expansion;
use update_job::one_made;

/// What two disks store is a state that keeps the rules.
pub fn stored_states()
    ensures { (x y : Tree) (s : State) → StoresSystem x s.root → StoresRepository y s.repository → IsState s }
{}

/// `rq`.
pub fn one_list_committed()
    ensures { (name : Option (List ℕ)) → HasOneOutcome (list_committed name) }
{}

/// `q`.
pub fn one_list_installed()
    ensures { (name : Option (List ℕ)) → HasOneOutcome (list_installed name) }
{}

/// `rblist`.
pub fn one_list_jobs()
    ensures { HasOneOutcome list_jobs }
{}

/// `verify`, also with the repository's contents.
pub fn one_verification()
    ensures installed { (names : List (List ℕ)) → HasOneOutcome (verify_installed names) }
    ensures fully { (names : List (List ℕ)) → HasOneOutcome (verify_fully names) }
{}

/// `localcs`.
pub fn one_local_change()
    ensures { (name : List ℕ) → HasOneOutcome (change_locally name) }
{
    one_relative();
}

/// `showcs`.
pub fn one_description()
    ensures { HasOneOutcome show_change_set }
{
    unique_set();
    one_fault();
}

/// `commit`.
pub fn one_commit()
    ensures { HasOneOutcome commit }
{
    one_result();
    unique_set();
    one_fault();
    commit_step();
}

/// `serve`.
pub fn one_serving()
    ensures { HasOneOutcome serve }
{
    one_answer();
}

/// `mirror ask`.
pub fn one_mirror_asking()
    ensures { HasOneOutcome ask_mirror }
{
    one_asking();
}

/// `mirror take`.
pub fn one_mirror_taking()
    ensures { HasOneOutcome take_mirror }
{
    one_result();
    one_reply();
    commit_step();
}

/// `cook`, also with the next version.
pub fn one_cook()
    ensures { (next : Bool) → HasOneOutcome (cook next) }
{
    one_result();
    one_manifest();
    commit_step();
}

/// `shadow` and `branch`.
pub fn one_moving()
    ensures { (way : Way) (label : LabelParts) (given : GivenSpec) → HasOneOutcome (move way label given) }
{
    distinct_texts();
    one_result();
    one_move();
    commit_step();
}

/// `changeset`.
pub fn one_sending()
    ensures { (from : Option GivenSpec) (to : GivenSpec) → HasOneOutcome (changeset from to) }
{
    distinct_texts();
    one_relative();
    one_expansion();
}

/// `erase`.
pub fn one_erasure()
    ensures { (names : List (List ℕ)) (options : Options) → HasOneOutcome (erase names options) }
{
    one_plan();
}

/// `install`.
pub fn one_installation()
    ensures { (options : Options) → HasOneOutcome (install options) }
{
    one_manifest();
    one_plan();
}

/// `update` by a change set.
pub fn one_update_by_input()
    ensures { (options : Options) → HasOneOutcome (update_input options) }
{
    unique_set();
    one_fault();
    one_made();
    one_plan();
}

/// `update` of specifications, also where it completes itself.
pub fn one_update()
    ensures { (options : Options) (resolve : Bool) (givens : List GivenSpec) → HasOneOutcome (update_specs options resolve givens) }
{
    distinct_texts();
    one_expansion();
    one_plan();
}

/// `sync`.
pub fn one_sync()
    ensures { (options : Options) → HasOneOutcome (sync options) }
{
    distinct_texts();
    one_expansion();
    one_plan();
}

/// `rollback`, of the newest job or down to one of a number.
pub fn one_rollback()
    ensures { (number : Option ℕ) → HasOneOutcome (roll_back number) }
{}
