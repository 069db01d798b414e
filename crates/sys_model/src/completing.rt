//! An update that completes itself.
ghost use Rattle.std.specs.Prelude.{◌≡◌, ◌<◌, false, IsTrue, length, IfErr, IfOk, OnOk};
ghost use Rattle.repo_index.specs.trove-stream.Installed.{IsRising};
ghost use Rattle.repo_index.specs.Catalogue.{AreCommitted};
ghost use Rattle.dep_closure.specs.Slots.{IsClosedBy};
ghost use Rattle.trove_spec.specs.AndThen.{EndsAs};
ghost use Rattle.sys_model.specs.Advancing.{HasAdded, IsStopped};
ghost use Rattle.sys_model.specs.Growing.{IsKnown, IsRoundOf};
ghost use Rattle.sys_model.specs.Held.{held};
ghost use Rattle.sys_model.specs.Rounds.{Completes, HasReasons};

use crate::doubting::help;
use crate::known::Known;
use crate::round::Round;
use crate::view::View;
use repo_index::Catalogue;
use repo_index::cny_base::{Copies, Fault, copies_of};
use repo_index::trove_parts::TroveId;
use repo_index::trove_stream::Installed;
use std::alloc::Global;
use trove_spec::{Config, Troves, expand};

// One more round: a trove is added to the roots, and they reach more. Whether there was one to add; where there was none, the list of the
// round is closed.
fn advance(
    alloc: Global,
    known: &Known<'_>,
    config: &Config,
    roots: &mut Vec<TroveId>,
    round: &mut Round,
) -> Result<bool, Fault>
    requires known { IsKnown known.now }
    requires round { IsRoundOf known.now.catalogue.now.troves known.now.installed.now roots.old.items round.old }
    ensures round { OnOk result (IsRoundOf known.now.catalogue.now.troves known.now.installed.now roots.new.items round.new) }
    ensures added { IfOk result (λ more. IsTrue more → HasAdded known.now.catalogue.now.troves known.now.installed.now config.now roots.old.items roots.new.items) }
    ensures grown { IfOk result (λ more. IsTrue more → length round.old.places < length round.new.places) }
    ensures closed { IfOk result (λ more. more ≡ false → IsClosedBy (held known.now.catalogue.now.troves round.new.fresh round.new.kept)) }
    ensures same { IfOk result (λ more. more ≡ false → roots.new.items ≡ roots.old.items) }
    ensures fault { IfErr result (IsStopped known.now.catalogue.now.troves known.now.installed.now config.now roots.old.items) }
{
    let view = View {
        catalogue: known.catalogue,
        installed: known.installed,
        comers: &known.comers,
        stayers: &known.stayers,
        fresh: &round.fresh,
        kept: &round.kept,
    };
    let Some(trove) = help(alloc, &view, config, &mut round.doubted)? else {
        return Ok(false);
    };
    let from = roots.len();
    roots.push(trove.id().copy()?)?;
    round.grow(alloc, known, roots.as_slice(), from)?;
    Ok(true)
}

/// The troves that an update of these roots brings which completes itself. In each round the roots' expansion is put into the installed
/// list. Where that list isn't closed, a trove is added to the roots for its first requirement that isn't met: on the first label of the
/// configuration that has one, the last committed trove that fits the configuration's flavor, provides what is required, by its name or
/// by what it lists, and has a name of which the round has none. The answer is the expansion of the first round whose list is closed.
///
/// `Unmet`, with that requirement, exactly where a round is reached for which there is no such trove; `Exists`, as of `expand`, exactly
/// where one is reached whose roots reach two troves of one name.
pub fn complete(
    alloc: Global,
    catalogue: &Catalogue,
    installed: &Installed,
    roots: &[TroveId],
    config: &Config,
) -> Result<Troves, Fault>
    ensures ends { EndsAs (Completes catalogue.now.troves installed.now config.now roots.now) result }
    // Each trove is reached from the roots, or from one that was added for a requirement that wasn't met.
    ensures reasons { IfOk result (HasReasons catalogue.now.troves installed.now config.now roots.now) }
    ensures rises { IfOk result IsRising }
    ensures committed { IfOk result (AreCommitted catalogue.now.troves) }
{
    let known = Known::of(alloc, catalogue, installed)?;
    let mut all = copies_of(alloc, roots)?;
    let mut round = Round::first(alloc, &known, all.as_slice())?;
    while advance(alloc, &known, config, &mut all, &mut round)? {}
    expand(alloc, catalogue, all.as_slice())
}
