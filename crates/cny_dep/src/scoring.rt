//! How well a trove's flavor fits a system's.
ghost use Rattle.std.specs.Prelude.{◌≡◌, ◌≤◌, ◌*◌, pos, ◌≤ℤ◌, neg_ℤ, length, IfSome};
ghost use Rattle.std.specs.List.{flat_map, sum_by};
ghost use Rattle.std.specs.Option.{option_copied};
ghost use Rattle.cny_dep.specs.Canonical.{set_count};
ghost use Rattle.cny_dep.specs.Score as spec;
ghost use Rattle.cny_dep.specs.Score.{total, flag_cell, flag_cells, set_cells, flavor_score};

use crate::flavor::Flavor;
use crate::flavor_order::Worded;
use crate::parts::{FlavorFlag, InstructionSet, Sense};
use cny_base::Text;

// What a flag of the trove is worth, by its sense and by that of the system's flag of the same word.
fn cell(trove: Sense, system: Option<Sense>) -> Option<i32>
    ensures value { result ≡ spec.cell trove system }
    ensures low { IfSome result (λ worth. neg_ℤ (pos 2) ≤ℤ worth) }
    ensures high { IfSome result (λ worth. worth ≤ℤ pos 2) }
{
    match (trove, system) {
        (Sense::Required, Some(Sense::Required)) => Some(2),
        (Sense::Required, Some(Sense::Preferred)) => Some(1),
        (Sense::Required, _) => None,
        (Sense::Preferred, Some(Sense::Required)) => Some(1),
        (Sense::Preferred, Some(Sense::Preferred)) => Some(2),
        (Sense::Preferred, Some(Sense::Forbidden)) => Some(-2),
        (Sense::Preferred, _) => Some(-1),
        (Sense::PreferNot, Some(Sense::Required)) => Some(-2),
        (Sense::PreferNot, Some(Sense::Preferred)) => Some(-1),
        (Sense::PreferNot, Some(Sense::PreferNot)) => Some(2),
        (Sense::PreferNot, _) => Some(1),
        (Sense::Forbidden, Some(Sense::Required | Sense::Preferred)) => None,
        (Sense::Forbidden, Some(Sense::PreferNot)) => Some(1),
        (Sense::Forbidden, Some(Sense::Forbidden)) => Some(2),
        (Sense::Forbidden, None) => Some(0),
    }
}

// The item of this word, if there is one.
fn named<'a, T: Worded>(items: &'a [T], word: &Text) -> Option<&'a T>
    ensures { option_copied result ≡ spec.named T.word_of word.now items.now }
{
    let mut rest = items;
    while let [first, after @ ..] = rest {
        if *first.word() == *word {
            return Some(first);
        }
        rest = after;
    }
    None
}

// What a flag of the trove is worth beside these flags of the system.
fn flag_worth(flag: &FlavorFlag, system: &[FlavorFlag]) -> Option<i32>
    ensures value { result ≡ flag_cell system.now flag.now }
    ensures low { IfSome result (λ worth. neg_ℤ (pos 2) ≤ℤ worth) }
    ensures high { IfSome result (λ worth. worth ≤ℤ pos 2) }
{
    match named(system, &flag.word) {
        Some(other) => cell(flag.sense, Some(other.sense)),
        None => cell(flag.sense, None),
    }
}

// The sum over flags.
fn flags_score(trove: &[FlavorFlag], system: &[FlavorFlag]) -> Option<i32>
    requires { length trove.now ≤ 64 }
    ensures value { result ≡ total (flag_cells system.now trove.now) }
    ensures low { IfSome result (λ score. neg_ℤ (pos (2 * length trove.now)) ≤ℤ score) }
    ensures high { IfSome result (λ score. score ≤ℤ pos (2 * length trove.now)) }
{
    let mut score = 0;
    for flag in trove {
        score += flag_worth(flag, system)?;
    }
    Some(score)
}

// The sum over a set of the trove and its flags, which counts 2 for the set itself.
fn set_score(set: &InstructionSet, system: &[InstructionSet]) -> Option<i32>
    requires { length set.now.flags ≤ 64 }
    ensures value { result ≡ total (set_cells system.now set.now) }
    ensures low { IfSome result (λ score. neg_ℤ (pos (2 * set_count set.now)) ≤ℤ score) }
    ensures high { IfSome result (λ score. score ≤ℤ pos (2 * set_count set.now)) }
{
    // A set that the system lacks refuses, as a required flag does.
    let other = named(system, &set.word)?;
    Some(2 + flags_score(set.flags.get(), other.flags.get())?)
}

// The sum over sets.
fn sets_score(trove: &[InstructionSet], system: &[InstructionSet]) -> Option<i32>
    requires { sum_by set_count trove.now ≤ 64 }
    ensures value { result ≡ total (flat_map (set_cells system.now) trove.now) }
    ensures low { IfSome result (λ score. neg_ℤ (pos 128) ≤ℤ score) }
    ensures high { IfSome result (λ score. score ≤ℤ pos 128) }
{
    let mut score = 0;
    for set in trove {
        score += set_score(set, system)?;
    }
    Some(score)
}

/// How well the trove's flavor fits the system's: the sum of what its flags and sets are worth.
/// None where one of them refuses. Takes no memory.
pub fn score(trove: &Flavor, system: &Flavor) -> Option<i32>
    ensures { result ≡ flavor_score trove.now system.now }
{
    let trove = trove.parts();
    let system = system.parts();
    let flags = flags_score(trove.flags.get(), system.flags.get())?;
    let sets = sets_score(trove.sets.get(), system.sets.get())?;
    Some(flags + sets)
}
