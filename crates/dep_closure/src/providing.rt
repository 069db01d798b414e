//! What meets a requirement: a provide, a trove by what it provides, or troves.
ghost use Rattle.std.specs.Prelude.{◌≡◌, ◌↔◌, [], IsTrue, All, Contains, IfNone, IfSome};
ghost use Rattle.cny_dep.specs.Dep.{Dependency};
ghost use Rattle.cny_dep.specs.Satisfies.{Satisfies};
ghost use Rattle.dep_closure.specs.Closed.{own_provide, provides_of, IsSatisfiedBy, IsFirstNotMet};

use cny_dep::{Class, Dep, Flag, satisfies};
use trove_stream::Trove;
use trove_stream::cny_base::Name;

/// What can meet a requirement. Takes no memory.
pub(crate) trait Meets {
    /// What has to hold of it for its answers.
    ghost can_tell: { Self → Type 0 };

    /// When it meets a requirement.
    ghost is_met: { Self → Dependency → Type 0 };

    /// Whether it meets the requirement.
    fn meets(&self, require: &Dep) -> bool
        requires { can_tell self.now }
        ensures { IsTrue result ↔ is_met self.now require.now };
}

/// Whether one of these meets the requirement.
pub(crate) fn is_met_by_any<T: Meets>(ones: &[T], require: &Dep) -> bool
    requires { (one : T) → T.can_tell one }
    ensures { IsTrue result ↔ ((one : T) × Contains ones.now one × T.is_met one require.now) }
{
    for one in ones {
        if one.meets(require) {
            return true;
        }
    }
    false
}

/// The first of these requirements that isn't met by it.
pub(crate) fn first_unmet<'a, T: Meets>(by: &T, required: &'a [Dep]) -> Option<&'a Dep>
    requires { T.can_tell by.now }
    ensures none { IfNone result (All (T.is_met by.now) required.now) }
    ensures some { IfSome result (λ require. IsFirstNotMet (T.is_met by.now) required.now require.now) }
{
    for require in required {
        if !by.meets(require) {
            return Some(require);
        }
    }
    None
}

// Whether a class is that of troves.
fn is_trove_class(class: Class) -> bool
    ensures { IsTrue result ↔ (class ≡ Class.Trove) }
{
    class == Class::Trove
}

fn are_none(flags: &[Flag]) -> bool
    ensures { IsTrue result ↔ (flags.now ≡ []) }
{
    flags.is_empty()
}

// Whether what each trove of this name provides by it satisfies the requirement.
fn is_met_by_name(name: &Name, require: &Dep) -> bool
    ensures { IsTrue result ↔ Satisfies (own_provide name.now) require.now }
{
    if !is_trove_class(require.class()) {
        return false;
    }
    if require.name() != name.text() {
        return false;
    }
    are_none(require.flags())
}

impl Meets for Dep {
    ghost can_tell = { λ _. Unit {0} };

    ghost is_met = { Satisfies };

    fn meets(&self, require: &Dep) -> bool {
        satisfies(self, require)
    }
}

// What the trove provides, by its name too, satisfies the requirement.
impl Meets for Trove {
    ghost can_tell = { λ _. Unit {0} };

    ghost is_met = { λ trove require. IsSatisfiedBy (provides_of trove) require };

    fn meets(&self, require: &Dep) -> bool {
        if is_met_by_name(&self.id().name, require) {
            return true;
        }
        is_met_by_any(self.provides(), require)
    }
}
