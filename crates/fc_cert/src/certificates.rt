//! Certificates that were read.

ghost use Rattle.std.specs.Prelude.{◌≡◌, ◌<◌, ◌≤◌, ◌^◌, ◌↔◌, ℕ, List, [], ◌++◌, Some, length, slice_get, Contains, IsTrue, IfOk, IfErr, OnErr, MatchOption};
ghost use Rattle.fc_cert.specs.Content.{Content, IsContent, IsRecord, IsSpelled, kind_byte, record_bytes};
ghost use Rattle.fc_cert.specs.inner.Chains.{IsLast, place_of, places_of};
ghost use Rattle.fc_cert.specs.inner.Layout.{AreRecords, ends_from};
ghost use Rattle.fc_cert.specs.Reading.{IsFormFault, IsReadFault};

use crate::certificate_readers::check_form;
use crate::chains::{links_of, place_of};
use crate::comparisons::compare;
use crate::contents::Head;
use crate::faults::CertFault;
use crate::fields::split_number;
use crate::record_layouts::record_in;
use fc_canonical::key_size;
use fc_home::GREATEST_RULE;
use fc_moves::{Move, read_move};
use std::alloc::{AllocError, Global};
use std::cmp::Ordering;
use std::marker::Model;

/// The most bytes that a certificate may have: 1 GiB.
pub const LONGEST_CERTIFICATE: usize = 1_073_741_824;

// So many keys of one place are looked at.
const LONGEST_WALK: u32 = 32;

/// A certificate, over the bytes that it was read from. No record is copied: only where each ends is kept, and links by which
/// its key is found.
#[derive(Drop)]
pub struct Certificate<'a> {
    head: Head,
    texts: &'a [u8],
    records: &'a [u8],
    ends: Vec<u32>,
    links: Vec<u32>,
}

impl<'a> Model for Certificate<'a> {
    ghost use Rattle.fc_cert.specs.Content.{Content};
    ghost use Rattle.fc_cert.specs.Layout.{content_of};
    ghost use Rattle.fc_cert.specs.inner.Chains.{IsChained};
    ghost use Rattle.fc_cert.specs.inner.Layout.{AreParts};

    ghost Value = { Content };

    ghost view = { λ s. content_of s.head s.texts.now s.records.now s.ends.items };

    ghost invariant = { λ s. AreParts (content_of s.head s.texts.now s.records.now s.ends.items) s.texts.now s.records.now s.ends.items
        × IsChained (content_of s.head s.texts.now s.records.now s.ends.items).rows s.links.items };
}

impl<'a> Certificate<'a> {
    /// The certificate that the bytes are, at most 1 GiB of them.
    ///
    /// # Errors
    /// The first fault of the form, field by field; `Memory` only once the whole form was checked, where some class is listed
    /// and one of the two growths was refused.
    pub fn read(alloc: Global, bytes: &'a [u8]) -> Result<Self, CertFault>
        requires limit { length bytes.now ≤ LONGEST_CERTIFICATE }
        ensures read { IfOk result (IsSpelled bytes.now) }
        ensures fault { IfErr result (IsReadFault bytes.now) }
    {
        let parts = check_form(bytes)?;
        let Ok(ends) = ends_of(alloc, parts.head, parts.records, parts.count) else {
            return Err(CertFault::Memory);
        };
        let Ok(links) = links_of(alloc, parts.records, ends.as_slice()) else {
            return Err(CertFault::Memory);
        };
        Ok(Certificate {
            head: parts.head,
            texts: parts.texts,
            records: parts.records,
            ends,
            links,
        })
    }

    /// The fields that stand before the moves.
    pub fn head(&self) -> Head
        ensures value { result ≡ self.now.head }
    {
        let Certificate { head, .. } = self;
        *head
    }

    /// The code of the game.
    pub fn game(&self) -> u8
        ensures value { result ≡ self.now.head.game }
    {
        self.head.game
    }

    /// The game's number of cells, at most 4.
    pub fn cells(&self) -> u8
        ensures value { result ≡ self.now.head.cells }
        ensures most { result ≤ 4 }
    {
        self.head.cells
    }

    /// The home rule that the table is closed by, 0 to 2.
    pub fn rule(&self) -> u8
        ensures value { result ≡ self.now.head.rule }
        ensures known { result ≤ GREATEST_RULE }
    {
        self.head.rule
    }

    /// 1 where it claims that its moves are a shortest list, 2 where it claims that no list wins, 3 where it claims that its
    /// moves win and none below its floor do.
    pub fn kind(&self) -> u8
        ensures value { result ≡ kind_byte self.now.head.kind }
    {
        self.head.kind.byte()
    }

    /// How many moves are listed.
    pub fn move_count(&self) -> u32
        ensures value { result ≡ length self.now.moves }
    {
        (self.texts.len() / 2) as u32
    }

    /// The move with this number, from 0 to below `move_count`.
    pub fn move_at(&self, i: u32) -> Move
        requires within { i < length self.now.moves }
        ensures value { slice_get self.now.moves i ≡ Some result }
    {
        let at = i as usize * 2;
        read_move(&self.texts[at..at + 2]).unwrap()
    }

    /// How many records are listed.
    pub fn len(&self) -> u32
        ensures value { result ≡ length self.now.rows }
        ensures content { IsContent self.now }
    {
        self.ends.len() as u32
    }

    /// Whether no record is listed.
    pub fn is_empty(&self) -> bool
        ensures value { IsTrue result ↔ (self.now.rows ≡ []) }
    {
        self.ends.is_empty()
    }

    /// The bytes of the key and the cost of the record with this number, from 0 to below `len`. The key is lent out of the
    /// bytes that the certificate was read from.
    pub fn record_at(&self, i: u32) -> (&'a [u8], u32)
        requires within { i < length self.now.rows }
        ensures value { slice_get self.now.rows i ≡ Some (result.0.now, result.1) }
    {
        let (cost, key) = split_number(self.record_bytes(i as usize)).unwrap();
        (key, cost)
    }

    // The bytes of the record with this number.
    fn record_bytes(&self, i: usize) -> &'a [u8]
        requires within { i < length self.now.rows }
        ensures value { (row : List ℕ × ℕ) × (slice_get self.now.rows i ≡ Some row) × (result.now ≡ record_bytes row) × (row.1 < 2 ^ 32) }
    {
        record_in(self.records, self.ends.as_slice(), i)
    }

    /// The cost that is listed for a key; `None` where none is. Few keys of its place are looked at; where more are chained, as
    /// keys can be made to be, it is sought by halves.
    pub fn find(&self, key: &[u8]) -> Option<u32>
        ensures value { MatchOption result ((cost : ℕ) → Contains self.now.rows (key.now, cost) → ⊥)
            (λ cost. Contains self.now.rows (key.now, cost)) }
    {
        let mut link = self.last_of(key);
        let mut left = LONGEST_WALK;
        while let Some(i) = link.checked_sub(1) {
            if left == 0 {
                return self.find_by_halves(key);
            }
            left -= 1;
            let (other, cost) = self.record_at(i);
            if compare(key, other).is_eq() {
                return Some(cost);
            }
            link = self.link_at(i);
        }
        None
    }

    // The same, sought by halves.
    fn find_by_halves(&self, key: &[u8]) -> Option<u32>
        ensures value { MatchOption result ((cost : ℕ) → Contains self.now.rows (key.now, cost) → ⊥)
            (λ cost. Contains self.now.rows (key.now, cost)) }
    {
        let mut low = 0;
        let mut high = self.len();
        while low < high {
            let middle = low + (high - low) / 2;
            let (other, cost) = self.record_at(middle);
            match compare(key, other) {
                Ordering::Less => high = middle,
                Ordering::Equal => return Some(cost),
                Ordering::Greater => low = middle + 1,
            }
        }
        None
    }

    // The link to the last record with the place of the key.
    #[inline]
    fn last_of(&self, key: &[u8]) -> u32
        ensures last { IsLast (places_of self.now.rows) (place_of (length self.now.rows) key.now) (length self.now.rows) result }
    {
        let count = self.len() as usize;
        if count == 0 {
            return 0;
        }
        self.links[count + place_of(key, count)]
    }

    // The link to the last record before this one with its place.
    #[inline]
    fn link_at(&self, i: u32) -> u32
        requires within { i < length self.now.rows }
        ensures last { IsLast (places_of self.now.rows) (places_of self.now.rows i) i result }
    {
        self.links[i as usize]
    }
}

// Where so many records end that are all of the bytes.
fn ends_of(alloc: Global, head: Head, records: &[u8], count: u32) -> Result<Vec<u32>, AllocError>
    requires limit { length records.now ≤ LONGEST_CERTIFICATE }
    requires rows { (rows : List (List ℕ × ℕ)) × AreRecords head.cells head.kind records.now count rows }
    ensures value { IfOk result (λ ends. (rows : List (List ℕ × ℕ)) → AreRecords head.cells head.kind records.now count rows
        → ends.items ≡ ends_from 0 rows) }
    ensures asked { OnErr result (0 < count) }
{
    let mut ends = Vec::with_capacity(alloc, count as usize)?;
    let mut rest = records;
    for _ in 0..count {
        rest = after_record(head, rest);
        ends.push((records.len() - rest.len()) as u32)?;
    }
    Ok(ends)
}

// What follows the record at the front.
fn after_record(head: Head, bytes: &[u8]) -> &[u8]
    requires record { (row : List ℕ × ℕ) × (rest : List ℕ) × IsRecord head.cells head.kind row × (bytes.now ≡ record_bytes row ++ rest) }
    ensures value { (row : List ℕ × ℕ) (rest : List ℕ) → IsRecord head.cells head.kind row → bytes.now ≡ record_bytes row ++ rest → result.now ≡ rest }
{
    let (_cost, from_key) = bytes.split_at(4);
    let (_key, rest) = from_key.split_at(key_size(from_key));
    rest
}
