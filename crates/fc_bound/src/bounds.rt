ghost use Rattle.std.specs.Prelude.{◌≡◌, ℕ, ◌<◌, ◌≤◌, ◌↔◌, IsTrue, count_by};
ghost use Rattle.std.specs.List.{list_any};
ghost use Rattle.fc_position.specs.Board.{column, count_in_column};
ghost use Rattle.fc_position.specs.Position.{IsPosition};
ghost use Rattle.fc_cards.specs.Card.{all_cards};
ghost use Rattle.fc_bound.specs.Bound.{bound, is_above_lower, is_away, is_lower, PlayableIsHeldBack};

use fc_cards::{Card, Place, Suit};
use fc_position::Position;

// How many cards are not home.
pub(crate) fn away(position: &Position) -> u8
    ensures value { result ≡ count_by (is_away position.now) all_cards }
    ensures whole { IsPosition position.now }
{
    let black = position.home(Suit::C) + position.home(Suit::S);
    let red = position.home(Suit::D) + position.home(Suit::H);
    52 - black - red
}

// How many cards of a column stand above a lower card of their own suit.
fn above_lower(cards: &[Card]) -> u8
    requires once { (c : ℕ) → count_in_column c cards.now ≤ 1 }
    ensures value { result ≡ count_by (λ c. is_above_lower c cards.now) all_cards }
{
    // Of each suit the least rank so far, 14 where there is none.
    let mut least = [14; 4];
    let mut count = 0;
    for card in cards {
        let suit = card.suit().index() as usize;
        let rank = card.rank();
        if least[suit] < rank {
            count += 1;
        } else {
            least[suit] = rank;
        }
    }
    count
}

// Whether one of the cards is a lower card of the suit.
fn has_lower(cards: &[Card], card: Card) -> bool
    ensures value { result ≡ list_any (is_lower card) cards.now }
{
    cards.iter().any(|lower| lower.suit() == card.suit() && lower.rank() < card.rank())
}

// Whether a card would stand above a lower card of its own suit on a column, where it isn't there yet.
#[inline]
pub(crate) fn is_above(position: &Position, i: u8, card: Card) -> bool
    ensures value { i < 8 → result ≡ list_any (is_lower card) (column position.now i) }
{
    i < 8 && has_lower(position.column(i), card)
}

/// Whether the playable card of a place stands above a lower card of its own suit in its column; not where there is no
/// card. Whether it does, before and after, is all that a move to a column or a cell changes in the bound.
pub fn is_held_back(position: &Position, from: Place) -> bool
    ensures value { IsTrue result ↔ PlayableIsHeldBack position.now from }
    ensures whole { IsPosition position.now }
{
    match (from, position.playable(from)) {
        (Place::Column(i), Some(card)) => has_lower(position.column(i), card),
        _ => false,
    }
}

/// The greatest bound: each of the 52 cards is counted twice at most.
pub const GREATEST_BOUND: u8 = 104;

/// The number of cards that are not home, plus the number of cards that stand above a lower card of their own suit in
/// their column: at most 104. No list of moves that wins from the position is shorter.
pub fn bound(position: &Position) -> u8
    ensures value { result ≡ bound position.now }
    ensures most { result ≤ GREATEST_BOUND }
    ensures whole { IsPosition position.now }
{
    let mut total = away(position);
    for i in 0..8 {
        total += above_lower(position.column(i));
    }
    total
}
