//! The order of bytes, eight at a time.

ghost use Rattle.std.specs.Prelude.{◌≡◌};
ghost use Rattle.std.specs.Cmp.Lexicographic.{slice_cmp};
ghost use Rattle.std.specs.Ordering.{nat_cmp};

use std::cmp::Ordering;

/// The order of two slices of bytes, the one that slices have of themselves. Keys that are compared begin alike, mostly, so
/// eight bytes are looked at at a time.
#[inline]
pub fn compare(a: &[u8], b: &[u8]) -> Ordering
    ensures value { result ≡ slice_cmp nat_cmp a.now b.now }
{
    let mut left = a;
    let mut right = b;
    while let (Some((x, after_x)), Some((y, after_y))) = (
        left.split_first_chunk(),
        right.split_first_chunk(),
    ) {
        let order = compare_eight(x, y);
        if order.is_ne() {
            return order;
        }
        left = after_x;
        right = after_y;
    }
    left.cmp(right)
}

// The order of eight bytes and eight others, which is that of the numbers that they spell, the highest byte first.
#[inline]
fn compare_eight(a: &[u8; 8], b: &[u8; 8]) -> Ordering
    ensures value { result ≡ slice_cmp nat_cmp a.now b.now }
{
    u64::from_be_bytes(*a).cmp(&u64::from_be_bytes(*b))
}
