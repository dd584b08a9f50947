//! Where keys are found: records are chained by the places of their keys.

ghost use Rattle.std.specs.Prelude.{◌≡◌, ◌+◌, ◌<◌, ◌^◌, ℕ, List, length, take, IfOk, OnErr};
ghost use Rattle.fc_cert.specs.Content.{Content};
ghost use Rattle.fc_cert.specs.inner.Chains.{IsChained, hash_of, place_of};
ghost use Rattle.fc_cert.specs.inner.Layout.{AreParts};

use crate::record_layouts::key_in;
use std::alloc::{AllocError, Global};
use std::hash::{FoldHasher, Hasher};

// How many places the keys with the same counts and cells may have. Keys that are looked for one after the other are alike, so what
// is looked at lies near what was looked at before.
pub(crate) const WINDOW: usize = 1024;

// Chains the records that end at these places: first a link for each record, then one for each place.
pub(crate) fn links_of(alloc: Global, records: &[u8], ends: &[u32]) -> Result<Vec<u32>, AllocError>
    requires parts { (c : Content) × (t : List ℕ) × AreParts c t records.now ends.now }
    ensures value { IfOk result (λ links. (c : Content) (t : List ℕ) → AreParts c t records.now ends.now → IsChained c.rows links.items) }
    ensures asked { OnErr result (0 < length ends.now) }
{
    let count = ends.len();
    if count == 0 {
        return Ok(Vec::new(alloc));
    }
    let mut links = vec![in alloc; 0; 2 * count + WINDOW]?;
    for i in 0..count {
        let head = count + place_of(key_in(records, ends, i), count);
        links[i] = links[head];
        links[head] = i as u32 + 1;
    }
    Ok(links)
}

// The place of a key where so many are chained.
#[inline]
pub(crate) fn place_of(key: &[u8], count: usize) -> usize
    requires few { count < 2 ^ 32 }
    ensures value { result ≡ place_of count key.now }
    ensures below { result < count + WINDOW }
{
    let window = (hash_of(front_of(key)) >> 32) * count as u64 >> 32;
    window as usize + (hash_of(key) >> 54) as usize
}

// The counts and the cells of a key.
#[inline]
fn front_of(key: &[u8]) -> &[u8]
    ensures value { result.now ≡ take 8 key.now }
{
    match key.split_at_checked(8) {
        Some((front, _)) => front,
        None => key,
    }
}

// The hash of bytes.
#[inline]
fn hash_of(bytes: &[u8]) -> u64
    ensures value { result ≡ hash_of bytes.now }
{
    let mut hasher = FoldHasher::default();
    hasher.write(bytes);
    hasher.finish()
}
