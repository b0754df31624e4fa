//! The test for a bit that two rows have in common.
ghost use Rattle.std.specs.Prelude.{◌≡◌, ◌↔◌, ℕ, ◌+◌, ◌<◌, ◌≤◌, length, false, true, IsTrue};
ghost use Rattle.base_bits.specs.Bits.{HaveCommonBit};
ghost use Rattle.base_bits.specs.Private.Apart.{IsApartAt};

use std::simd::prelude::*;

// How many words one vector holds.
const LANES: usize = 8;

/// Whether two rows of one length have some bit in common. It compares vectors of 8 words, and then the words that are left one
/// by one. Takes no memory.
pub fn any_common(a: &[u64], b: &[u64]) -> bool
    requires same_length { length a.now ≡ length b.now }
    ensures { IsTrue result ↔ HaveCommonBit a.now b.now }
{
    let whole = a.len() / LANES;
    for chunk in 0..whole {
        if any_common_lane(a, b, chunk * LANES) {
            return true;
        }
    }
    for place in whole * LANES..a.len() {
        if a[place] & b[place] != 0 {
            return true;
        }
    }
    false
}

// The same of the words of one vector.
#[inline(always)]
fn any_common_lane(a: &[u64], b: &[u64], at: usize) -> bool
    requires in_a { at + LANES ≤ length a.now }
    requires in_b { at + LANES ≤ length b.now }
    ensures found { result ≡ true → (i : ℕ) × ¬ IsApartAt a.now b.now i }
    ensures apart { result ≡ false → (i : ℕ) → at ≤ i → i < at + LANES → IsApartAt a.now b.now i }
{
    let common = u64x8::from_slice(&a[at..]) & u64x8::from_slice(&b[at..]);
    common.simd_ne(u64x8::splat(0)).to_bitmask() != 0
}
