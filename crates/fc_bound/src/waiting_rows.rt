ghost use Rattle.std.specs.Prelude.{◌≡◌, ℕ, ◌-◌, ◌^◌, ◌<◌, ◌≤◌, ◌&&◌, false, [], Some, length, take, slice_index_or};
ghost use Rattle.std.specs.Int.{bit_at};
ghost use Rattle.std.specs.List.{list_any};
ghost use Rattle.fc_position.specs.Board.{count_in_column, last_of};
ghost use Rattle.fc_position.specs.Position.{IsPosition};
ghost use Rattle.fc_bound.specs.Bound.{stands_in, is_above_lower};
ghost use Rattle.fc_bound.specs.Knots.{ends_with, ends_among};
ghost use Rattle.fc_bound.specs.Rows.{AreBits, AreRows, AreRowsBut, AreRowsOf, AreWaiting, IsRow, MoveAbove, no_row, stands_among};
ghost use Rattle.fc_bound.specs.inner.Rows.{is_set, stands_above};

use crate::bits::{higher_cards, remove};
use crate::ring_search::least_card;
use fc_cards::Card;
use fc_position::Position;

// What is known of a card in a column: the bits of all cards that wait for one of the column's cards up to it, and that of the
// card beneath it, if there is one.
#[derive(Clone, Copy)]
pub(crate) struct Row {
    pub(crate) waiting: u64,
    pub(crate) beneath: u64,
}

// The rows of the cards that stand in columns, by the cards' numbers.
pub(crate) type Rows = [Row; 52];

// Bits of cards in columns: of all, of the last ones, and of those that stand above a lower card of their own suit.
#[derive(Clone, Copy)]
pub(crate) struct Marks {
    pub(crate) all: u64,
    pub(crate) lasts: u64,
    pub(crate) held: u64,
}

/// What is looked up of a position's columns: which cards wait for which.
#[derive(Drop)]
pub struct ColumnTable {
    pub(crate) rows: Rows,
    pub(crate) marks: Marks,
}

// Rows with nothing in them, to be filled in their place.
#[inline]
pub(crate) fn blank() -> Rows
    ensures { length result ≡ 52 }
{
    let row = Row {
        waiting: 0,
        beneath: 0,
    };
    [row; 52]
}

// Takes the rows of these cards from others.
#[inline]
pub(crate) fn restore(rows: &mut Rows, others: &Rows, cards: u64)
    requires long { length rows.old ≡ 52 }
    requires others { length others.now ≡ 52 }
    requires below { cards < 2 ^ 52 }
    ensures taken { (c : ℕ) → bit_at cards c ≡ 1 → slice_index_or rows.new c no_row ≡ slice_index_or others.now c no_row }
    ensures kept { (c : ℕ) → bit_at cards c ≡ 0 → slice_index_or rows.new c no_row ≡ slice_index_or rows.old c no_row }
    ensures long { length rows.new ≡ 52 }
{
    let mut rest = cards;
    while rest != 0 {
        let card = least_card(rest);
        rows[card as usize] = others[card as usize];
        rest = remove(rest, card);
    }
}

// Fills the rows of a position's cards.
#[inline]
pub(crate) fn fill(rows: &mut Rows, position: &Position) -> Marks
    requires whole { IsPosition position.now }
    requires long { length rows.old ≡ 52 }
    ensures rows { AreRows position.now.columns rows.new }
    ensures long { length rows.new ≡ 52 }
    ensures all { AreBits result.all (stands_among position.now.columns) }
    ensures lasts { AreBits result.lasts (ends_among position.now.columns) }
    ensures held { AreBits result.held (λ c. list_any (is_above_lower c) position.now.columns) }
{
    fill_moved(rows, position, u64::MAX)
}

// Fills the rows of the cards of a position that moved, where those of its other cards are filled. The marks of those that moved,
// but of all last cards.
#[inline]
pub(crate) fn fill_moved(rows: &mut Rows, position: &Position, moved: u64) -> Marks
    requires whole { IsPosition position.now }
    requires above { (i : ℕ) → MoveAbove moved (slice_index_or position.now.columns i []) }
    requires others { AreRowsBut moved position.now.columns rows.old }
    requires long { length rows.old ≡ 52 }
    ensures rows { AreRows position.now.columns rows.new }
    ensures long { length rows.new ≡ 52 }
    ensures all { AreBits result.all (λ c. stands_among position.now.columns c && is_set moved c) }
    ensures lasts { AreBits result.lasts (ends_among position.now.columns) }
    ensures held { AreBits result.held (λ c. list_any (is_above_lower c) position.now.columns && is_set moved c) }
{
    let mut all = 0;
    let mut lasts = 0;
    let mut held = 0;
    for i in 0..8 {
        let marks = fill_column(rows, position.column(i), moved);
        all |= marks.all;
        lasts |= marks.lasts;
        held |= marks.held;
    }
    Marks { all, lasts, held }
}

// Fills the rows of the cards of a column that moved, where those of its other cards are filled.
#[inline]
fn fill_column(rows: &mut Rows, cards: &[Card], moved: u64) -> Marks
    requires once { (c : ℕ) → count_in_column c cards.now ≤ 1 }
    requires above { MoveAbove moved cards.now }
    requires others { AreRowsOf moved cards.now rows.old }
    requires long { length rows.old ≡ 52 }
    ensures rows { (h u : ℕ) → last_of (take h cards.now) ≡ Some u → IsRow (slice_index_or rows.new u no_row) (take h cards.now) }
    ensures others { (c : ℕ) → stands_in cards.now c ≡ false → slice_index_or rows.new c no_row ≡ slice_index_or rows.old c no_row }
    ensures long { length rows.new ≡ 52 }
    ensures all { AreBits result.all (λ c. stands_in cards.now c && is_set moved c) }
    ensures lasts { AreBits result.lasts (λ c. ends_with c (last_of cards.now)) }
    ensures held { AreBits result.held (λ c. is_above_lower c cards.now && is_set moved c) }
{
    let last = last_bit(cards);
    // Of most columns no card has moved, and so not the last one.
    if last & moved == 0 {
        return Marks {
            all: 0,
            lasts: last,
            held: 0,
        };
    }
    let front = unmoved(cards, moved);
    fill_above(rows, cards, front)
}

// The bit of the last card, if there is one.
#[inline]
fn last_bit(cards: &[Card]) -> u64
    ensures value { AreBits result (λ c. ends_with c (last_of cards.now)) }
{
    match cards.last() {
        Some(card) => 1 << card.index(),
        None => 0,
    }
}

// How many cards of a column lie beneath those on top that moved.
#[inline]
fn unmoved(cards: &[Card], moved: u64) -> usize
    ensures most { result ≤ length cards.now }
    ensures moved { (k : ℕ) → result ≤ k → k < length cards.now → bit_at moved (slice_index_or cards.now k 0) ≡ 1 }
    ensures last { 0 < result → bit_at moved (slice_index_or cards.now (result - 1) 0) ≡ 0 }
{
    let mut count = cards.len();
    while count > 0 && moved >> cards[count - 1].index() & 1 != 0 {
        count -= 1;
    }
    count
}

// The cards that wait for the first of these, so many, and the bit of the last of them.
#[inline]
fn front_row(rows: &Rows, cards: &[Card], front: usize) -> Row
    requires inside { front ≤ length cards.now }
    requires row { (u : ℕ) → last_of (take front cards.now) ≡ Some u → IsRow (slice_index_or rows.now u no_row) (take front cards.now) }
    requires long { length rows.now ≡ 52 }
    ensures waiting { AreWaiting result.waiting (take front cards.now) }
    ensures last { AreBits result.beneath (λ c. ends_with c (last_of (take front cards.now))) }
{
    match cards[..front].last() {
        Some(card) => Row {
            waiting: rows[card.index() as usize].waiting,
            beneath: 1 << card.index(),
        },
        None => Row {
            waiting: 0,
            beneath: 0,
        },
    }
}

// Fills the rows of the cards of a column above the first ones, so many.
#[inline(never)]
fn fill_above(rows: &mut Rows, cards: &[Card], front: usize) -> Marks
    requires once { (c : ℕ) → count_in_column c cards.now ≤ 1 }
    requires inside { front ≤ length cards.now }
    requires row { (u : ℕ) → last_of (take front cards.now) ≡ Some u → IsRow (slice_index_or rows.old u no_row) (take front cards.now) }
    requires long { length rows.old ≡ 52 }
    ensures rows { (h u : ℕ) → front < h → last_of (take h cards.now) ≡ Some u → IsRow (slice_index_or rows.new u no_row) (take h cards.now) }
    ensures others { (c : ℕ) → stands_above front cards.now c ≡ false → slice_index_or rows.new c no_row ≡ slice_index_or rows.old c no_row }
    ensures long { length rows.new ≡ 52 }
    ensures all { AreBits result.all (stands_above front cards.now) }
    ensures lasts { AreBits result.lasts (λ c. ends_with c (last_of cards.now)) }
    ensures held { AreBits result.held (λ c. is_above_lower c cards.now && stands_above front cards.now c) }
{
    let Row {
        mut waiting,
        beneath: mut last,
    } = front_row(rows, cards, front);
    let mut all = 0;
    let mut held = 0;
    for h in front..cards.len() {
        let index = cards[h].index();
        let bit = 1 << index;
        held |= waiting & bit;
        waiting |= higher_cards(index);
        all |= bit;
        rows[index as usize] = Row {
            waiting,
            beneath: last,
        };
        last = bit;
    }
    Marks {
        all,
        lasts: last,
        held,
    }
}
