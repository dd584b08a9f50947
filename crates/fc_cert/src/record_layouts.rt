//! Where records stand in the bytes of a certificate.

ghost use Rattle.std.specs.Prelude.{◌≡◌, ◌<◌, ◌≤◌, ◌^◌, ℕ, List, [], Some, length, slice_get, slice_index_or};
ghost use Rattle.fc_cert.specs.Content.{Content, record_bytes};
ghost use Rattle.fc_cert.specs.inner.Layout.{AreParts, start_of};

use crate::fields::split_number;

// The bytes of the record with this number, by where the records end.
#[inline]
pub(crate) fn record_in<'a>(records: &'a [u8], ends: &[u32], i: usize) -> &'a [u8]
    requires parts { (c : Content) × (t : List ℕ) × AreParts c t records.now ends.now × (i < length c.rows) }
    ensures value { (c : Content) (t : List ℕ) → AreParts c t records.now ends.now → i < length c.rows
        → (row : List ℕ × ℕ) × (slice_get c.rows i ≡ Some row) × (result.now ≡ record_bytes row) × (row.1 < 2 ^ 32) }
{
    let from = start_of(ends, i);
    &records[from..ends[i] as usize]
}

// The bytes of the key of the record with this number.
#[inline]
pub(crate) fn key_in<'a>(records: &'a [u8], ends: &[u32], i: usize) -> &'a [u8]
    requires parts { (c : Content) × (t : List ℕ) × AreParts c t records.now ends.now × (i < length c.rows) }
    ensures value { (c : Content) (t : List ℕ) → AreParts c t records.now ends.now → i < length c.rows
        → result.now ≡ (slice_index_or c.rows i ([], 0)).0 }
{
    let (_cost, key) = split_number(record_in(records, ends, i)).unwrap();
    key
}

// Where the record with this number begins, by where the records end.
fn start_of(ends: &[u32], i: usize) -> usize
    requires within { i ≤ length ends.now }
    ensures value { result ≡ start_of 0 ends.now i }
{
    match i.checked_sub(1) {
        Some(before) => ends[before] as usize,
        None => 0,
    }
}
