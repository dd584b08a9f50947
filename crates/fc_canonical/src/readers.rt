ghost use Rattle.std.specs.Prelude.{◌≡◌, ◌==◌, ℕ, ◌+◌, ◌≤◌, ◌<◌, ◌↔◌, IsTrue, All, IfSome, IfNone, count_by, length, map, not, slice_index, take, drop, List, ◌++◌, Option};
ghost use Rattle.std.specs.List.{flat_map};
ghost use Rattle.arrayvec.specs.ArrayVec.{array_vec_len};
ghost use Rattle.fc_position.specs.Board.{Board};
ghost use Rattle.fc_position.specs.Position.{IsPosition};
ghost use Rattle.fc_position.specs.Tally.{AllCards};
ghost use Rattle.fc_canonical.specs.Key.{column_bytes, board_bytes, HasExtent, BeginsWithBoard, BeginsWithKey};
ghost use Rattle.fc_canonical.specs.Order.{cell_byte};
ghost use Rattle.fc_canonical.specs.inner.Parts.{IsSmall, IsHolding};

use crate::checks::full_cells;
use crate::keys::key;
use arrayvec::ArrayVec;
use fc_cards::Card;
use fc_position::Position;

/// How many bytes at the front are a key by their length bytes alone: eight bytes and then eight columns, whatever the
/// other bytes are. `None` where the bytes end first.
#[inline]
pub fn key_len(bytes: &[u8]) -> Option<usize>
    ensures found { IfSome result (HasExtent bytes.now) }
    ensures none { IfNone result ((n : ℕ) → HasExtent bytes.now n → ⊥) }
{
    let (_, mut rest) = cut(bytes, 8)?;
    for _ in 0..8_usize {
        let (_, after) = split_column(rest)?;
        rest = after;
    }
    Some(bytes.len() - rest.len())
}

/// How many bytes the key at the front has, by its counts and its cells: each card that is neither home nor in a cell is
/// spelled by one. That a key stands there is known.
#[inline]
pub fn key_size(bytes: &[u8]) -> usize
    requires key { (b : Board) × (n : ℕ) × BeginsWithKey bytes.now b n }
    ensures value { (b : Board) (n : ℕ) → BeginsWithKey bytes.now b n → result ≡ n }
{
    let (counts, rest) = bytes.split_at(4);
    let (cells, _) = rest.split_at(4);
    longest_key_without(counts, cells)
}

// The bytes of the longest key, less one for each card that is home, by these counts, and each that cells with these bytes
// hold.
fn longest_key_without(counts: &[u8], cells: &[u8]) -> usize
    requires counts { length counts.now ≡ 4 }
    requires cells { length cells.now ≡ 4 }
    requires few { slice_index counts.now 0 + slice_index counts.now 1 + slice_index counts.now 2 + slice_index counts.now 3
        + count_by (λ byte. not (byte == 255)) cells.now ≤ 68 }
    ensures value { result + (slice_index counts.now 0 + slice_index counts.now 1 + slice_index counts.now 2 + slice_index counts.now 3
        + count_by (λ byte. not (byte == 255)) cells.now) ≡ 68 }
{
    let home = usize::from(counts[0])
        + usize::from(counts[1])
        + usize::from(counts[2])
        + usize::from(counts[3]);
    68 - home - full_cells(cells)
}

/// The canonical position whose key stands at the front, and how many bytes the key has, whatever follows. `None` where
/// no key stands at the front.
pub fn read_key(bytes: &[u8]) -> Option<(Position, usize)>
    ensures read { IfSome result (λ r. BeginsWithKey bytes.now r.0 r.1) }
    ensures refused { IfNone result ((b : Board) (n : ℕ) → BeginsWithKey bytes.now b n → ⊥) }
{
    let (position, extent) = read_position(bytes)?;
    let (front, _) = cut(bytes, extent)?;
    if key(&position).as_slice() == front {
        Some((position, extent))
    } else {
        None
    }
}

/// The position whose bytes stand at the front, in the form of a key, whatever follows. That some position's stand there
/// is known: nothing is tested.
#[inline]
pub fn position_of(bytes: &[u8]) -> Position
    requires spelled { (b : Board) × IsPosition b × BeginsWithBoard bytes.now b }
    ensures value { (b : Board) → IsPosition b → BeginsWithBoard bytes.now b → result ≡ b }
    ensures whole { IsPosition result }
{
    let counts = read_counts(bytes).unwrap();
    let (_, from_cells) = bytes.split_at(4);
    let cells = read_cells(from_cells).unwrap();
    let (_, from_columns) = bytes.split_at(8);
    let mut columns: [ArrayVec<Card, 52>; 8] = Default::default();
    fill_columns(from_columns, &mut columns);
    Position::of_parts(columns, cells, counts)
}

// The position that is spelled at the front, whether or not it is canonical, and how many bytes spell it.
fn read_position(bytes: &[u8]) -> Option<(Position, usize)>
    ensures read { IfSome result (λ r. IsPosition r.0 × ((rest : List ℕ) × (bytes.now ≡ board_bytes r.0 ++ rest))
        × (r.1 ≡ length (board_bytes r.0))) }
    ensures refused { IfNone result ((b : Board) (rest : List ℕ) → IsPosition b → bytes.now ≡ board_bytes b ++ rest → ⊥) }
{
    let counts = read_counts(bytes)?;
    let (_, from_cells) = cut(bytes, 4)?;
    let cells = read_cells(from_cells)?;
    let (_, from_columns) = cut(bytes, 8)?;
    let (columns, rest) = read_columns(from_columns)?;
    match Position::from_parts(columns, cells, counts) {
        Ok(position) => Some((position, bytes.len() - rest.len())),
        Err(_) => None,
    }
}

// The four counts at the front, each at most 13.
fn read_counts(bytes: &[u8]) -> Option<[u8; 4]>
    ensures read { IfSome result (λ r. (length r ≡ 4) × All (λ n. n ≤ 13) r × ((rest : List ℕ) × (bytes.now ≡ r ++ rest))) }
    ensures refused { IfNone result ((counts rest : List ℕ) → length counts ≡ 4 → All (λ n. n ≤ 13) counts
        → bytes.now ≡ counts ++ rest → ⊥) }
{
    match bytes {
        [c, d, h, s, ..] if *c <= 13 && *d <= 13 && *h <= 13 && *s <= 13 => Some([*c, *d, *h, *s]),
        _ => None,
    }
}

// The four cells at the front.
fn read_cells(bytes: &[u8]) -> Option<[Option<Card>; 4]>
    ensures read { IfSome result (λ r. (length r ≡ 4) × All IsSmall r × ((rest : List ℕ) × (bytes.now ≡ map cell_byte r ++ rest))) }
    ensures refused { IfNone result ((cells : List (Option ℕ)) (rest : List ℕ) → length cells ≡ 4 → All IsSmall cells
        → bytes.now ≡ map cell_byte cells ++ rest → ⊥) }
{
    match bytes {
        [a, b, c, d, ..] => Some([
            read_cell(*a)?,
            read_cell(*b)?,
            read_cell(*c)?,
            read_cell(*d)?,
        ]),
        _ => None,
    }
}

// The cell with this byte.
fn read_cell(byte: u8) -> Option<Option<Card>>
    ensures read { IfSome result (λ cell. IsSmall cell × (cell_byte cell ≡ byte)) }
    ensures refused { IfNone result ((cell : Option ℕ) → IsSmall cell → cell_byte cell ≡ byte → ⊥) }
{
    if byte == 255 {
        return Some(None);
    }
    Some(Some(Card::from_index(byte)?))
}

// The eight columns at the front, and what follows them.
fn read_columns(bytes: &[u8]) -> Option<([ArrayVec<Card, 52>; 8], &[u8])>
    ensures read { IfSome result (λ r. (length r.0 ≡ 8)
        × (bytes.now ≡ flat_map column_bytes (map (λ v. v.items) r.0) ++ r.1.now)) }
    ensures refused { IfNone result ((columns : List (List ℕ)) (rest : List ℕ) → length columns ≡ 8
        → All IsHolding columns → bytes.now ≡ flat_map column_bytes columns ++ rest → ⊥) }
{
    let rest = after_columns(bytes)?;
    let mut columns: [ArrayVec<Card, 52>; 8] = Default::default();
    fill_columns(bytes, &mut columns);
    Some((columns, rest))
}

// What follows the eight columns at the front.
fn after_columns(bytes: &[u8]) -> Option<&[u8]>
    ensures read { IfSome result (λ r. (columns : List (List ℕ)) × (length columns ≡ 8) × All IsHolding columns
        × (bytes.now ≡ flat_map column_bytes columns ++ r.now)) }
    ensures refused { IfNone result ((columns : List (List ℕ)) (rest : List ℕ) → length columns ≡ 8
        → All IsHolding columns → bytes.now ≡ flat_map column_bytes columns ++ rest → ⊥) }
{
    let mut rest = bytes;
    for _ in 0..8_u8 {
        let (cards, after) = split_column(rest)?;
        if !are_cards(cards) {
            return None;
        }
        rest = after;
    }
    Some(rest)
}

// Whether these are the numbers of cards, as many as a column can hold.
fn are_cards(bytes: &[u8]) -> bool
    ensures value { IsTrue result ↔ IsHolding bytes.now }
{
    bytes.len() <= 52 && bytes.iter().all(|byte| *byte < 52)
}

// Puts the eight columns at the front, which are known to be columns of cards, into these empty ones.
fn fill_columns(bytes: &[u8], columns: &mut [ArrayVec<Card, 52>; 8])
    requires spelled { (spelled : List (List ℕ)) × (rest : List ℕ) × (length spelled ≡ 8) × All IsHolding spelled
        × (bytes.now ≡ flat_map column_bytes spelled ++ rest) }
    requires empty { All (λ v. array_vec_len v ≡ 0) columns.old }
    ensures count { length columns.new ≡ 8 }
    ensures parts { (rest : List ℕ) × (bytes.now ≡ flat_map column_bytes (map (λ v. v.items) columns.new) ++ rest) }
{
    let mut rest = bytes;
    for i in 0..8 {
        let (cards, after) = split_column(rest).unwrap();
        push_cards(cards, &mut columns[i]);
        rest = after;
    }
}

// Appends the cards with these numbers.
fn push_cards(bytes: &[u8], cards: &mut ArrayVec<Card, 52>)
    requires cards { AllCards bytes.now }
    requires room { array_vec_len cards.old + length bytes.now ≤ 52 }
    ensures after { cards.new.items ≡ cards.old.items ++ bytes.now }
{
    for byte in bytes {
        cards.push(Card::from_index(*byte).unwrap());
    }
}

// The bytes of the cards of the column at the front, and what follows the column.
pub(crate) fn split_column(bytes: &[u8]) -> Option<(&[u8], &[u8])>
    ensures found { IfSome result (λ r. bytes.now ≡ column_bytes r.0.now ++ r.1.now) }
    ensures none { IfNone result ((cards rest : List ℕ) → bytes.now ≡ column_bytes cards ++ rest → ⊥) }
{
    let (length, rest) = bytes.split_first()?;
    rest.split_at_checked(*length as usize)
}

// The first bytes, and what follows them.
pub(crate) fn cut(bytes: &[u8], count: usize) -> Option<(&[u8], &[u8])>
    ensures found { IfSome result (λ r. (count ≤ length bytes.now) × (r.0.now ≡ take count bytes.now)
        × (r.1.now ≡ drop count bytes.now)) }
    ensures none { IfNone result (length bytes.now < count) }
{
    bytes.split_at_checked(count)
}
