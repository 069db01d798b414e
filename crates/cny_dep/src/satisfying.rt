//! When a provide satisfies a requirement.
ghost use Rattle.std.specs.Prelude.{◌≡◌, ◌↔◌, All, Contains, IsTrue};
ghost use Rattle.std.specs.Cmp.Lexicographic.{slice_cmp};
ghost use Rattle.std.specs.List.Sorted.{IsStrictlySortedBy};
ghost use Rattle.std.specs.Ordering.{nat_cmp};
ghost use Rattle.cny_dep.specs.Satisfies.{Satisfies};

use crate::class::Class;
use crate::dep::Dep;
use crate::flag::Flag;

fn is_same_class(first: Class, second: Class) -> bool
    ensures { IsTrue result ↔ (first ≡ second) }
{
    first == second
}

// Whether the flag is one of these, which rise.
fn has_flag(flags: &[Flag], flag: &Flag) -> bool
    requires { IsStrictlySortedBy (slice_cmp nat_cmp) flags.now }
    ensures { IsTrue result ↔ Contains flags.now flag.now }
{
    flags.binary_search(flag).is_ok()
}

// Whether each of the second flags is one of the first, which rise.
fn has_flags(flags: &[Flag], wanted: &[Flag]) -> bool
    requires { IsStrictlySortedBy (slice_cmp nat_cmp) flags.now }
    ensures { IsTrue result ↔ All (Contains flags.now) wanted.now }
{
    for flag in wanted {
        if !has_flag(flags, flag) {
            return false;
        }
    }
    true
}

/// Whether what is provided satisfies what is required: they have the same class and name, and
/// every flag that is required is provided. Takes no memory.
pub fn satisfies(provide: &Dep, require: &Dep) -> bool
    ensures { IsTrue result ↔ Satisfies provide.now require.now }
{
    if !is_same_class(provide.class(), require.class()) || provide.name() != require.name() {
        return false;
    }
    has_flags(provide.flags(), require.flags())
}
