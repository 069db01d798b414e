//! When a trove meets a requirement.
ghost use Rattle.std.specs.Prelude.{◌≡◌, ◌↔◌, [], IsTrue};
ghost use Rattle.cny_dep.specs.Satisfies.{Satisfies};
ghost use Rattle.dep_closure.specs.Closed.{own_provide, provides_of, IsSatisfiedBy};

use cny_dep::{Class, Dep, Flag, satisfies};
use repo_index::cny_base::Name;
use repo_index::trove_stream::Trove;

// Whether one of these satisfies the requirement.
fn is_satisfied_by(provides: &[Dep], require: &Dep) -> bool
    ensures { IsTrue result ↔ IsSatisfiedBy provides.now require.now }
{
    for provide in provides {
        if satisfies(provide, require) {
            return true;
        }
    }
    false
}

// Whether a class is that of troves.
fn is_trove_class(class: Class) -> bool
    ensures { IsTrue result ↔ (class ≡ Class.Trove) }
{
    class == Class::Trove
}

fn are_none(flags: &[Flag]) -> bool
    ensures { IsTrue result ↔ (flags.now ≡ []) }
{
    flags.is_empty()
}

// Whether what each trove of this name provides by it satisfies the requirement.
fn is_met_by_name(name: &Name, require: &Dep) -> bool
    ensures { IsTrue result ↔ Satisfies (own_provide name.now) require.now }
{
    if !is_trove_class(require.class()) {
        return false;
    }
    if require.name() != name.text() {
        return false;
    }
    are_none(require.flags())
}

/// Whether the trove provides something that satisfies the requirement, by its name or by what it lists.
pub(crate) fn meets(trove: &Trove, require: &Dep) -> bool
    ensures { IsTrue result ↔ IsSatisfiedBy (provides_of trove.now) require.now }
{
    if is_met_by_name(&trove.id().name, require) {
        return true;
    }
    is_satisfied_by(trove.provides(), require)
}
