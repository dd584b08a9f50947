//! Boards that are a numbered deal once each column is turned round.

ghost use Rattle.std.specs.Prelude.{◌≡◌, ℕ, ◌<◌, ◌↔◌, Some, IsTrue, IfSome, IfNone, length, reverse};
ghost use Rattle.fc_position.specs.Board.{column, last_of};
ghost use Rattle.fc_notes.specs.Length.{dealt_count};
ghost use Rattle.fc_notes.specs.Reversed.{IsReversedDeal};
ghost use Rattle.fc_notes.specs.inner.Reversed.{HasDealtLengths};

use crate::played_columns::dealt_count;
use fc_cards::Card;
use fc_deal::{Draws, MOST_DEAL, deal};
use fc_position::Position;

/// The first numbered deal that the board is once each of its columns is turned round; `None` where it is none.
pub fn reversed_deal(start: &Position) -> Option<u32>
    ensures some { IfSome result (λ n. IsReversedDeal n start.now) }
    ensures first { IfSome result (λ n. (m : ℕ) → m < n → IsReversedDeal m start.now → ⊥) }
    ensures none { IfNone result ((n : ℕ) → IsReversedDeal n start.now → ⊥) }
{
    if !has_dealt_lengths(start) {
        return None;
    }
    for number in 1..MOST_DEAL + 1 {
        if is_reversed_deal(start, number) {
            return Some(number);
        }
    }
    None
}

// Whether each column has as many cards as a deal's.
fn has_dealt_lengths(start: &Position) -> bool
    ensures value { IsTrue result ↔ HasDealtLengths start.now }
{
    for column in 0..8 {
        if start.column(column).len() != dealt_count(column) {
            return false;
        }
    }
    true
}

// Whether the first two cards that are dealt are the last ones of the first two columns, as the draws tell before anything is dealt:
// of a deck in order, in which the last card fills the gap of the first that is drawn.
fn begins_as(number: u32, start: &Position) -> bool
    ensures needed { IsReversedDeal number start.now → IsTrue result }
{
    let mut draws = Draws::new(number);
    let first = draws.next() % 52;
    let place = draws.next() % 51;
    is_last(start.column(0), first) && is_last(start.column(1), second_card(first, place))
}

// The card that stands in this place of the deck, of which the first is gone: the last one has moved into its place.
fn second_card(first: u16, place: u16) -> u16
    ensures moved { place ≡ first → result ≡ 51 }
    ensures other { (place ≡ first → ⊥) → result ≡ place }
{
    if place == first { 51 } else { place }
}

// Whether the card of this number is the last one of a column.
fn is_last(cards: &[Card], index: u16) -> bool
    ensures value { IsTrue result ↔ (last_of cards.now ≡ Some index) }
{
    match cards.last() {
        Some(card) => u16::from(card.index()) == index,
        None => false,
    }
}

// Whether each column is that of a numbered deal, turned round; most numbers are told by their first two draws.
fn is_reversed_deal(start: &Position, number: u32) -> bool
    ensures value { IsTrue result ↔ IsReversedDeal number start.now }
{
    begins_as(number, start) && has_columns_of(start, number)
}

// Whether each column is that of a numbered deal, turned round.
fn has_columns_of(start: &Position, number: u32) -> bool
    ensures value { IsTrue result ↔ IsReversedDeal number start.now }
{
    match deal(number) {
        Some(dealt) => has_turned_columns(start, &dealt),
        None => false,
    }
}

// Whether each column is the other board's, turned round.
fn has_turned_columns(start: &Position, other: &Position) -> bool
    ensures value { IsTrue result ↔ ((i : ℕ) → i < 8 → column start.now i ≡ reverse (column other.now i)) }
{
    for column in 0..8 {
        if !is_turned(start.column(column), other.column(column)) {
            return false;
        }
    }
    true
}

// Whether a column has the cards of another one the other way round.
fn is_turned(column: &[Card], other: &[Card]) -> bool
    ensures value { IsTrue result ↔ (column.now ≡ reverse other.now) }
{
    let count = column.len();
    if other.len() != count {
        return false;
    }
    for i in 0..count {
        if column[i] != other[count - 1 - i] {
            return false;
        }
    }
    true
}
