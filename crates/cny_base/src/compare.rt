//! The three comparisons.
ghost use Rattle.std.specs.Prelude.{◌≡◌, ◌↔◌, ◌+◌, ◌*◌, ◌≤◌, take, length, IsTrue, MatchOption};
ghost use Rattle.std.specs.List.{count_by};
ghost use Rattle.cny_base.specs.Compare.{differing, count_of_differing, AreSameBefore, IsFirstDifference};

use crate::kernel::{STEP, differing_at};

/// Whether both hold the same bytes.
pub fn equal(a: &[u8], b: &[u8]) -> bool
    ensures { IsTrue result ↔ (a.now ≡ b.now) }
{
    if a.len() != b.len() {
        return false;
    }
    first_difference(a, b).is_none()
}

/// The first place at which two slices of one length differ, and none where they are the same.
pub fn first_difference(a: &[u8], b: &[u8]) -> Option<usize>
    requires { length a.now ≡ length b.now }
    ensures { MatchOption result (a.now ≡ b.now) (IsFirstDifference a.now b.now) }
{
    let steps = a.len() / STEP;
    match first_in_steps(a, b, steps) {
        Some(at) => Some(at),
        None => first_byte_by_byte(a, b, STEP * steps),
    }
}

/// At how many places two slices of one length differ.
pub fn count_different(a: &[u8], b: &[u8]) -> usize
    requires { length a.now ≡ length b.now }
    ensures { result ≡ count_of_differing a.now b.now }
{
    let steps = a.len() / STEP;
    let mut count = count_in_steps(a, b, steps);
    for at in STEP * steps..a.len() {
        if a[at] != b[at] {
            count += 1;
        }
    }
    count
}

fn first_in_steps(a: &[u8], b: &[u8], steps: usize) -> Option<usize>
    requires same { length a.now ≡ length b.now }
    requires holds { 64 * steps ≤ length a.now }
    ensures { MatchOption result (AreSameBefore a.now b.now (64 * steps)) (IsFirstDifference a.now b.now) }
{
    for step in 0..steps {
        let at = STEP * step;
        let marked = differing_at(a, b, at);
        if marked != 0 {
            return Some(at + marked.trailing_zeros() as usize);
        }
    }
    None
}

fn first_byte_by_byte(a: &[u8], b: &[u8], from: usize) -> Option<usize>
    requires same { length a.now ≡ length b.now }
    requires holds { from ≤ length a.now }
    requires before { AreSameBefore a.now b.now from }
    ensures { MatchOption result (a.now ≡ b.now) (IsFirstDifference a.now b.now) }
{
    for at in from..a.len() {
        if a[at] != b[at] {
            return Some(at);
        }
    }
    None
}

fn count_in_steps(a: &[u8], b: &[u8], steps: usize) -> usize
    requires same { length a.now ≡ length b.now }
    requires holds { 64 * steps ≤ length a.now }
    ensures { result ≡ count_by (λ differs. differs) (take (64 * steps) (differing a.now b.now)) }
{
    let mut count = 0;
    for step in 0..steps {
        count += differing_at(a, b, STEP * step).count_ones() as usize;
    }
    count
}
