//! Flags and sets in the order of their words, and which of them are a flavor.
ghost use Rattle.std.specs.Prelude.{◌≡◌, List, ℕ, nat_le, IfOk};
ghost use Rattle.std.specs.List.{list_all, prefix_len, sum_by};
ghost use Rattle.cny_dep.specs.Canonical as spec;
ghost use Rattle.cny_dep.specs.Canonical.{set_count};
ghost use Rattle.cny_dep.specs.FlavorOrder as order;
ghost use Rattle.cny_dep.specs.FlavorOrder.{in_order, rise};

use crate::parts::{FlavorFlag, InstructionSet, Parts};
use cny_base::{OutOfMemory, Text, is_word};

// How many flags a flavor may have, its sets and their flags counted.
pub(crate) const MOST_FLAGS: usize = 64;

// How long a word may be.
const MOST_BYTES: usize = 255;

/// What has a word, by which lists are put in order and searched.
pub(crate) trait Worded: Drop {
    ghost word_of: { Self → List ℕ };

    fn word(&self) -> &Text
        ensures { result.now ≡ word_of self.now };
}

impl Worded for FlavorFlag {
    ghost word_of = { λ f. f.word };

    fn word(&self) -> &Text {
        &self.word
    }
}

impl Worded for InstructionSet {
    ghost word_of = { λ s. s.word };

    fn word(&self) -> &Text {
        &self.word
    }
}

fn precedes(a: &Text, b: &Text) -> bool
    ensures { result ≡ order.precedes a.now b.now }
{
    a.get().cmp(b.get()).is_lt()
}

// How many items at the front have words that precede this one.
fn place_of<T: Worded>(items: &[T], word: &Text) -> usize
    ensures { result ≡ prefix_len (λ x. order.precedes (T.word_of x) word.now) items.now }
{
    items
        .iter()
        .take_while(|item| precedes(item.word(), word))
        .count()
}

/// The items in the order of their words.
pub(crate) fn ordered<T: Worded>(mut items: Vec<T>) -> Result<Vec<T>, OutOfMemory>
    ensures { IfOk result (λ made. made.items ≡ in_order T.word_of items.items) }
{
    let mut ordered = Vec::new(*items.allocator());
    while let Some(item) = items.pop() {
        let place = place_of(ordered.as_slice(), item.word());
        ordered.insert(place, item)?;
    }
    Ok(ordered)
}

// Whether the words strictly rise.
fn rises<T: Worded>(items: &[T]) -> bool
    ensures { result ≡ rise T.word_of items.now }
{
    let mut rest = items;
    while let [first, after @ ..] = rest {
        if let [next, ..] = after {
            if !precedes(first.word(), next.word()) {
                return false;
            }
        }
        rest = after;
    }
    true
}

fn is_flavor_word(word: &Text) -> bool
    ensures { result ≡ spec.is_flavor_word word.now }
{
    let bytes = word.get().as_bytes();
    bytes.len() <= MOST_BYTES && is_word(bytes)
}

fn have_words(flags: &[FlavorFlag]) -> bool
    ensures { result ≡ list_all spec.is_flag flags.now }
{
    flags.iter().all(|flag| is_flavor_word(&flag.word))
}

fn are_flags(flags: &[FlavorFlag]) -> bool
    ensures { result ≡ spec.are_flags flags.now }
{
    let words = have_words(flags);
    let rise = rises(flags);
    words && rise
}

fn is_set(set: &InstructionSet) -> bool
    ensures { result ≡ spec.is_set set.now }
{
    let word = is_flavor_word(&set.word);
    let flags = are_flags(set.flags.get());
    word && flags
}

fn are_each_sets(sets: &[InstructionSet]) -> bool
    ensures { result ≡ list_all spec.is_set sets.now }
{
    sets.iter().all(|set| is_set(set))
}

fn are_sets(sets: &[InstructionSet]) -> bool
    ensures { result ≡ spec.are_sets sets.now }
{
    let each = are_each_sets(sets);
    let rise = rises(sets);
    each && rise
}

// Whether a list of sets counts for so many flags at most.
fn counts_within(sets: &[InstructionSet], most: usize) -> bool
    ensures { result ≡ nat_le (sum_by set_count sets.now) most }
{
    let mut left = most;
    for set in sets {
        let own = set.flags.get().len();
        if left < 1 || left - 1 < own {
            return false;
        }
        left = left - 1 - own;
    }
    true
}

/// Whether the parts are those of a flavor.
pub(crate) fn is_flavor(parts: &Parts) -> bool
    ensures { result ≡ spec.is_flavor parts.now }
{
    let flags = parts.flags.get();
    let sets = parts.sets.get();
    let good_flags = are_flags(flags);
    let good_sets = are_sets(sets);
    flags.len() <= MOST_FLAGS
        && counts_within(sets, MOST_FLAGS - flags.len())
        && good_flags
        && good_sets
}
