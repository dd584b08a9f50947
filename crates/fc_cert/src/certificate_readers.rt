ghost use Rattle.std.specs.Prelude.{◌≡◌, ◌+◌, ◌<◌, ◌↔◌, ℕ, List, length, IsTrue, IfOk, IfErr, IfSome, IfNone, Option};
ghost use Rattle.std.specs.List.{flat_map};
ghost use Rattle.std.specs.Option.{option_copied};
ghost use Rattle.fc_moves.specs.declared.steps.Move.{Move};
ghost use Rattle.fc_moves.specs.MoveText.{move_text};
ghost use Rattle.fc_canonical.specs.Spelled.{IsKeyFor};
ghost use Rattle.fc_cert.specs.declared.contents.Kind.{Kind};
ghost use Rattle.fc_cert.specs.Content.{Content, MayCost};
ghost use Rattle.fc_cert.specs.inner.Layout.{HasParts};
ghost use Rattle.fc_cert.specs.Reading.{Field, SaysNoLess, SaysMove, IsAfter, HasRecord, ReadsMoves, ReadsListed, ReadsList, ReadsRecord, ReadsRecords, Reads, IsFormFault};

use crate::comparisons::compare;
use crate::contents::{Head, Kind};
use crate::faults::CertFault;
use crate::fields::{read_number, split_number};
use crate::heads::read_head;
use fc_canonical::{is_key, key_len};
use fc_moves::read_move;

/// The parts of a certificate's bytes that are kept: the head, the texts of the moves, and the records, so many.
#[derive(Clone, Copy)]
pub struct Parts<'a> {
    pub head: Head,
    pub texts: &'a [u8],
    pub count: u32,
    pub records: &'a [u8],
}

/// Reads all the bytes, field by field, up to the first that isn't all there, or is wrong.
///
/// # Errors
///
/// The fault of that field. No memory is asked for.
pub fn check_form(bytes: &[u8]) -> Result<Parts<'_>, CertFault>
    ensures read { IfOk result (λ p. (c : Content) × Reads bytes.now (Ok c)
        × HasParts c p.head p.texts.now p.records.now p.count) }
    ensures fault { IfErr result (λ f. IsFormFault bytes.now f) }
{
    let (head, rest) = read_head(bytes)?;
    let (texts, rest) = read_list(&head, rest)?;
    let (count, records) = read_number(rest)?;
    let rest = read_records(&head, count, records)?;
    if !rest.is_empty() {
        return Err(CertFault::Trailing);
    }
    Ok(Parts {
        head,
        texts,
        count,
        records,
    })
}

// The texts of the moves that a certificate with this head lists, and what follows them.
fn read_list<'a>(head: &Head, bytes: &'a [u8]) -> Result<(&'a [u8], &'a [u8]), CertFault>
    ensures read { IfOk result (λ r. (moves : List Move) × ReadsList head.now.kind head.now.floor bytes.now (Ok (moves, r.1.now))
        × (r.0.now ≡ flat_map move_text moves)) }
    ensures fault { IfErr result (λ f. ReadsList head.now.kind head.now.floor bytes.now (Err f)) }
{
    match head.kind {
        Kind::Shortest | Kind::Between => read_listed(head.floor, bytes),
        Kind::CannotWin => Ok(bytes.split_at(0)),
    }
}

// The texts of the moves that are listed here, no fewer than the floor, and what follows them.
fn read_listed(floor: u32, bytes: &[u8]) -> Result<(&[u8], &[u8]), CertFault>
    ensures read { IfOk result (λ r. (moves : List Move) × ReadsListed floor bytes.now (Ok (moves, r.1.now))
        × (r.0.now ≡ flat_map move_text moves)) }
    ensures fault { IfErr result (λ f. ReadsListed floor bytes.now (Err f)) }
{
    let (count, texts) = read_count(floor, bytes)?;
    let rest = read_moves(count, texts)?;
    Ok(texts.split_at(texts.len() - rest.len()))
}

// How many moves are listed, no fewer than the floor, and what follows the number.
fn read_count(floor: u32, bytes: &[u8]) -> Result<(u32, &[u8]), CertFault>
    ensures read { IfOk result (λ r. Field 4 (SaysNoLess floor) CertFault.BadFloor bytes.now (Ok (r.0, r.1.now))) }
    ensures fault { IfErr result (λ f. Field 4 (SaysNoLess floor) CertFault.BadFloor bytes.now (Err f)) }
{
    let (count, rest) = split_number(bytes).ok_or(CertFault::Short)?;
    if floor <= count {
        Ok((count, rest))
    } else {
        Err(CertFault::BadFloor)
    }
}

// What follows so many moves.
fn read_moves(count: u32, bytes: &[u8]) -> Result<&[u8], CertFault>
    ensures read { IfOk result (λ r. (moves : List Move) × ReadsMoves count 1 bytes.now (Ok (moves, r.now))) }
    ensures fault { IfErr result (λ f. ReadsMoves count 1 bytes.now (Err f)) }
{
    let mut rest = bytes;
    for i in 0..count {
        rest = read_text(i + 1, rest)?;
    }
    Ok(rest)
}

// What follows the text of the move with this number.
fn read_text(number: u32, bytes: &[u8]) -> Result<&[u8], CertFault>
    ensures read { IfOk result (λ r. (m : Move) × Field 2 SaysMove (CertFault.BadMove number) bytes.now (Ok (m, r.now))) }
    ensures fault { IfErr result (λ f. Field 2 SaysMove (CertFault.BadMove number) bytes.now (Err f)) }
{
    let (text, rest) = bytes.split_at_checked(2).ok_or(CertFault::Short)?;
    match read_move(text) {
        Some(_) => Ok(rest),
        None => Err(CertFault::BadMove(number)),
    }
}

// What follows so many records.
fn read_records<'a>(head: &Head, count: u32, bytes: &'a [u8]) -> Result<&'a [u8], CertFault>
    ensures read { IfOk result (λ r. (rows : List (List ℕ × ℕ))
        × ReadsRecords (ReadsRecord head.now.cells head.now.kind) count 0 None bytes.now (Ok (rows, r.now))) }
    ensures fault { IfErr result (λ f. ReadsRecords (ReadsRecord head.now.cells head.now.kind) count 0 None bytes.now (Err f)) }
{
    let mut rest = bytes;
    let mut before = None;
    for number in 0..count {
        let (key, after) = read_record(head, number, before, rest)?;
        before = Some(key);
        rest = after;
    }
    Ok(rest)
}

// The key of the record with this number, after one with that key, and what follows the record.
fn read_record<'a>(
    head: &Head,
    number: u32,
    before: Option<&[u8]>,
    bytes: &'a [u8],
) -> Result<(&'a [u8], &'a [u8]), CertFault>
    ensures read { IfOk result (λ r. (cost : ℕ)
        × ReadsRecord head.now.cells head.now.kind number (option_copied before.entry) bytes.now (Ok ((r.0.now, cost), r.1.now))) }
    ensures fault { IfErr result (λ f. ReadsRecord head.now.cells head.now.kind number (option_copied before.entry) bytes.now (Err f)) }
{
    let (cost, key, rest) = take_record(head.cells, number, bytes)?;
    if !is_after(before, key) {
        return Err(CertFault::Order(number));
    }
    if !may_cost(head.kind, cost) {
        return Err(CertFault::Label(number));
    }
    Ok((key, rest))
}

// The cost and the key of the record with this number at the front, of a game with so many cells, and what follows.
fn take_record(cells: u8, number: u32, bytes: &[u8]) -> Result<(u32, &[u8], &[u8]), CertFault>
    ensures read { IfOk result (λ r. (has : HasRecord bytes.now r.0 r.1.now) × (has.rest ≡ r.2.now) × IsKeyFor cells r.1.now) }
    ensures fault { IfErr result (λ f. (kind : Kind) (before : Option (List ℕ)) → ReadsRecord cells kind number before bytes.now (Err f)) }
{
    if let Some(record) = take_key(cells, bytes) {
        return Ok(record);
    }
    let Some((cost, key, rest)) = split_record(bytes) else {
        return Err(CertFault::Short);
    };
    if !is_key(key, cells) {
        return Err(CertFault::BadRecord(number));
    }
    Ok((cost, key, rest))
}

// The same where a key stands there, as long as its counts and its cells say; `None` tells nothing.
#[inline]
fn take_key(cells: u8, bytes: &[u8]) -> Option<(u32, &[u8], &[u8])>
    ensures found { IfSome result (λ r. (has : HasRecord bytes.now r.0 r.1.now) × (has.rest ≡ r.2.now) × IsKeyFor cells r.1.now) }
{
    let (cost, from_key) = split_number(bytes)?;
    let (key, rest) = from_key.split_at_checked(likely_size(from_key)?)?;
    if is_key(key, cells) {
        Some((cost, key, rest))
    } else {
        None
    }
}

// How many bytes a key with these counts and cells has, if it is one: a guess, which is tested.
#[inline]
fn likely_size(bytes: &[u8]) -> Option<usize> {
    let (front, _) = bytes.split_at_checked(8)?;
    let home = usize::from(front[0])
        + usize::from(front[1])
        + usize::from(front[2])
        + usize::from(front[3]);
    let held = usize::from(front[4] != 255)
        + usize::from(front[5] != 255)
        + usize::from(front[6] != 255)
        + usize::from(front[7] != 255);
    68_usize.checked_sub(home + held)
}

// The cost of the record at the front, the extent of its key by its length bytes, and what follows.
#[inline]
fn split_record(bytes: &[u8]) -> Option<(u32, &[u8], &[u8])>
    ensures found { IfSome result (λ r. (has : HasRecord bytes.now r.0 r.1.now) × (has.rest ≡ r.2.now)) }
    ensures none { IfNone result ((cost : ℕ) (key : List ℕ) → HasRecord bytes.now cost key → ⊥) }
{
    let (cost, from_key) = split_number(bytes)?;
    let (key, rest) = from_key.split_at(key_len(from_key)?);
    Some((cost, key, rest))
}

// Whether the key comes after that of the record before.
fn is_after(before: Option<&[u8]>, key: &[u8]) -> bool
    ensures value { IsTrue result ↔ IsAfter (option_copied before.entry) key.now }
{
    match before {
        Some(other) => compare(other, key).is_lt(),
        None => true,
    }
}

// Whether a certificate of this kind may have the cost.
fn may_cost(kind: Kind, cost: u32) -> bool
    ensures value { IsTrue result ↔ MayCost kind cost }
{
    match kind {
        Kind::Shortest | Kind::Between => true,
        Kind::CannotWin => cost == 0,
    }
}
