//! Bytes told to be a key with no position made of them.

ghost use Rattle.std.specs.Prelude.{◌≡◌, ◌≤◌, ◌↔◌, ◌==◌, not, IsTrue, All, length, count_by};
ghost use Rattle.std.specs.List.Sorted.{IsNonDecreasing};
ghost use Rattle.fc_canonical.specs.Order.{column_order};
ghost use Rattle.fc_canonical.specs.inner.Parts.{times_in, AreCells, AreColumns};
ghost use Rattle.fc_canonical.specs.Spelled.{IsKeyFor};

use crate::card_sets::CardSet;
use crate::readers::{cut, split_column};

/// Whether the bytes are a key, and nothing else, of a position of whose cells at most `cells` hold a card.
pub fn is_key(bytes: &[u8], cells: u8) -> bool
    ensures value { IsTrue result ↔ IsKeyFor cells bytes.now }
{
    let Some((front, columns)) = cut(bytes, 8) else {
        return false;
    };
    let (counts, in_cells) = front.split_at(4);
    if !are_counts(counts) || !are_cells(in_cells, cells) {
        return false;
    }
    let mut cards = CardSet::home(counts);
    cards.insert_cells(in_cells) && are_columns(columns, cards)
}

// Whether each is a count of cards that are home.
fn are_counts(bytes: &[u8]) -> bool
    ensures value { IsTrue result ↔ All (λ n. n ≤ 13) bytes.now }
{
    bytes.iter().all(|count| *count <= 13)
}

// Whether four cells with these bytes stand in order, and at most so many hold a card.
fn are_cells(bytes: &[u8], most: u8) -> bool
    requires count { length bytes.now ≡ 4 }
    ensures value { IsTrue result ↔ AreCells most bytes.now }
{
    // Four cells can't be too many where the game has four.
    are_in_order(bytes) && (most >= 4 || full_cells(bytes) <= most as usize)
}

// Whether none of four bytes is lower than one before it.
fn are_in_order(bytes: &[u8]) -> bool
    requires count { length bytes.now ≡ 4 }
    ensures value { IsTrue result ↔ IsNonDecreasing bytes.now }
{
    for i in 1..4 {
        if bytes[i] < bytes[i - 1] {
            return false;
        }
    }
    true
}

// How many cells with these bytes hold a card.
pub(crate) fn full_cells(bytes: &[u8]) -> usize
    ensures value { result ≡ count_by (λ byte. not (byte == 255)) bytes.now }
{
    let mut full = 0;
    for byte in bytes {
        if *byte != 255 {
            full += 1;
        }
    }
    full
}

// Whether the bytes are eight columns in order that have, beside the cards of the set, each card once.
fn are_columns(bytes: &[u8], mut cards: CardSet) -> bool
    ensures value { IsTrue result ↔ AreColumns (times_in cards) 0 8 bytes.now }
{
    let mut rest = bytes;
    let mut last = 0;
    for _ in 0..8_u8 {
        let Some((column, after)) = split_column(rest) else {
            return false;
        };
        let order = order_of_cards(column);
        if order < last {
            return false;
        }
        if !cards.insert_all(column) {
            return false;
        }
        last = order;
        rest = after;
    }
    rest.is_empty() && cards.is_full()
}

// By what a column of these cards is ordered.
fn order_of_cards(cards: &[u8]) -> u8
    ensures value { result ≡ column_order cards.now }
{
    cards.first().copied().unwrap_or(52)
}
