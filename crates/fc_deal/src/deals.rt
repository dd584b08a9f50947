ghost use Rattle.std.specs.Prelude.{◌≡◌, ℕ, ◌↔◌, [], IsSome, IsTrue, IfSome, map, replicate};
ghost use Rattle.fc_position.specs.Position.{IsPosition};
ghost use Rattle.fc_deal.specs.Deal.{IsDealNumber, dealt_columns, dealt_board};

use crate::decks::Deck;
use crate::generator::Draws;
use arrayvec::ArrayVec;
use fc_cards::Card;
use fc_position::Position;

/// The greatest number of a deal; the least one is 1.
pub const MOST_DEAL: u32 = 1_000_000;

/// Whether a deal has this number.
pub fn is_deal_number(n: u32) -> bool
    ensures value { IsTrue result ↔ IsDealNumber n }
{
    (1..=MOST_DEAL).contains(&n)
}

/// Deal `n`, 1 to 1,000,000: the 52 cards in eight columns, of which the first four have seven cards and the others
/// six. `None` for any other number. Up to 32000 it is Microsoft FreeCell's deal of that number, by Jim Horne's
/// algorithm; above, the same algorithm goes on, which is this project's own.
pub fn deal(n: u32) -> Option<Position>
    ensures range { IsSome result ↔ IsDealNumber n }
    ensures value { IfSome result (λ p. p ≡ dealt_board n) }
    ensures whole { IfSome result IsPosition }
{
    if !is_deal_number(n) {
        return None;
    }
    // Each card is dealt once, so the parts have no fault.
    Position::from_parts(deal_columns(n), [None; 4], [0; 4]).ok()
}

// The columns of game n.
fn deal_columns(n: u32) -> [ArrayVec<Card, 52>; 8]
    ensures dealt { map (λ v. v.items) result ≡ dealt_columns n 52 }
{
    let mut draws = Draws::new(n);
    let mut deck = Deck::new();
    let mut columns = empty_columns();
    for i in 0..52 {
        let card = deck.take(draws.next());
        columns[i % 8].push(card);
    }
    columns
}

// Eight columns with no card.
fn empty_columns() -> [ArrayVec<Card, 52>; 8]
    ensures empty { map (λ v. v.items) result ≡ replicate 8 [] }
{
    [
        ArrayVec::new(),
        ArrayVec::new(),
        ArrayVec::new(),
        ArrayVec::new(),
        ArrayVec::new(),
        ArrayVec::new(),
        ArrayVec::new(),
        ArrayVec::new(),
    ]
}
