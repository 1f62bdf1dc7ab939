ghost use Rattle.std.specs.Prelude.{◌≡◌, ◌↔◌, ◌≤◌, IsTrue, length, take};

use std::simd::prelude::*;

// So many bytes of two words are compared at once.
const PART: usize = 4;

/// Whether two words are the same. Most words have 4 to 8 bytes, which are compared by the first four and the
/// last four.
#[inline(always)]
pub fn are_same(a: &str, b: &str) -> bool
    ensures { IsTrue result ↔ (a.now ≡ b.now) }
{
    let (first, second) = (a.as_bytes(), b.as_bytes());
    if first.len() != second.len() {
        return false;
    }
    if first.len() < PART || first.len() > 2 * PART {
        return are_equal(a, b);
    }
    let last = first.len() - PART;
    have_same_front(first, second) && have_same_front(&first[last..], &second[last..])
}

#[inline(never)]
fn are_equal(a: &str, b: &str) -> bool
    ensures { IsTrue result ↔ (a.now ≡ b.now) }
{
    a == b
}

// Whether the first four bytes are the same.
#[inline(always)]
fn have_same_front(a: &[u8], b: &[u8]) -> bool
    requires first { 4 ≤ length a.now }
    requires second { 4 ≤ length b.now }
    ensures { IsTrue result ↔ (take 4 a.now ≡ take 4 b.now) }
{
    u8x4::from_slice(a)
        .simd_eq(u8x4::from_slice(b))
        .to_bitmask()
        == 15
}
