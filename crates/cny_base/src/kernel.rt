//! One step of a comparison: 64 bytes of each side at once.
ghost use Rattle.std.specs.Prelude.{◌≡◌, ◌+◌, ◌≤◌, length};
ghost use Rattle.std.specs.Simd.Lanes.{mask_l};
ghost use Rattle.cny_base.specs.Compare.{differing};
ghost use lib.Lanes.{chunk};

use std::simd::prelude::*;

/// How many bytes a step compares.
pub(crate) const STEP: usize = 64;

/// Bit k is set where the bytes at `at + k` differ.
#[inline(always)]
pub(crate) fn differing_at(a: &[u8], b: &[u8], at: usize) -> u64
    requires holds { at + 64 ≤ length a.now }
    requires same { length a.now ≡ length b.now }
    ensures { result ≡ mask_l (chunk at 64 (differing a.now b.now)) }
{
    let left = u8x64::from_slice(&a[at..]);
    let right = u8x64::from_slice(&b[at..]);
    left.simd_ne(right).to_bitmask()
}
