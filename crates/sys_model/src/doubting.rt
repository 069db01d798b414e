//! The first requirement of a round that isn't met, and the trove that is added for it.
ghost use Rattle.std.specs.Prelude.{◌≡◌, IfErr, IfNone, IfOk, IfSome, OnOk};
ghost use Rattle.cny_dep.specs.Dep.{dep_text};
ghost use Rattle.repo_index.specs.cny-base.declared.refusal.Refusal.TheVariants as refusal;
ghost use Rattle.dep_closure.specs.Slots.{IsClosedBy};
ghost use Rattle.sys_model.specs.Held.{held_in, AreServedBut, IsFirstIn, IsHelpFor, IsNoHelpOrMemory, IsView};

use crate::helping::{Wish, choice};
use crate::view::{Unmet, View, unmet_of};
use repo_index::cny_base::{Fault, Name, OutOfMemory, Refusal, Text};
use repo_index::trove_stream::Trove;
use std::alloc::Global;
use std::collections::BTreeSet;
use trove_spec::Config;

// The first trove that has a requirement which isn't met, and its first one; none where the list is closed. A name whose trove has its
// requirements met is doubted no more.
fn first_unmet<'a>(
    view: &View<'a>,
    doubted: &mut BTreeSet<Name>,
) -> Result<Option<Unmet<'a>>, OutOfMemory>
    requires view { IsView view.now }
    requires was_served { AreServedBut (held_in view.now) doubted.old }
    ensures none { IfOk result (λ found. IfNone found (IsClosedBy (held_in view.now))) }
    ensures some { IfOk result (λ found. IfSome found (IsFirstIn (held_in view.now))) }
    ensures served { OnOk result (AreServedBut (held_in view.now) doubted.new) }
{
    while let Some(name) = doubted.pop_first() {
        if let Some(unmet) = unmet_of(view, &name) {
            doubted.insert(name)?;
            return Ok(Some(unmet));
        }
    }
    Ok(None)
}

// The refusal of a requirement for which nothing can be added.
fn refusal_of(alloc: Global, unmet: &Unmet<'_>) -> Result<Refusal, OutOfMemory>
    ensures { IfOk result (λ made. made ≡ refusal.Unmet unmet.now.trove.now.id.name (dep_text unmet.now.require.now)) }
{
    let name = Text::new(alloc, unmet.trove.id().name.text())?;
    let dep = unmet.require.write()?;
    Ok(Refusal::Unmet { name, dep })
}

/// The trove that is added in this round; none where its list is closed. `Unmet` exactly where it isn't and nothing can be added.
pub(crate) fn help<'a>(
    alloc: Global,
    view: &View<'a>,
    config: &Config,
    doubted: &mut BTreeSet<Name>,
) -> Result<Option<&'a Trove>, Fault>
    requires view { IsView view.now }
    requires was_served { AreServedBut (held_in view.now) doubted.old }
    ensures none { IfOk result (λ found. IfNone found (IsClosedBy (held_in view.now))) }
    ensures some { IfOk result (λ found. IfSome found (λ trove. IsHelpFor view.now.catalogue.now.troves view.now.fresh.now view.now.kept.now config.now trove.now)) }
    ensures served { OnOk result (AreServedBut (held_in view.now) doubted.new) }
    ensures fault { IfErr result (IsNoHelpOrMemory view.now.catalogue.now.troves view.now.fresh.now view.now.kept.now config.now) }
{
    let Some(unmet) = first_unmet(view, doubted)? else {
        return Ok(None);
    };
    let wish = Wish {
        system: &config.flavor,
        fresh: view.fresh,
        require: unmet.require,
    };
    match choice(view.catalogue, view.comers, config.labels.get(), &wish) {
        Some(trove) => Ok(Some(trove)),
        None => Err(Fault::Refused(refusal_of(alloc, &unmet)?)),
    }
}
