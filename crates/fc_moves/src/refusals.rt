ghost use Rattle.std.specs.Prelude.{◌↔◌, IfSome, IfNone, IsTrue};
ghost use Rattle.fc_position.specs.Position.{IsPosition};
ghost use Rattle.fc_moves.specs.Step.{Allows, MayLand, Takes};
ghost use Rattle.fc_moves.specs.Refusal.{IsNoFarColumn, IsWay, IsWhy, LandsNot, TakesNot};

use crate::games::Game;
use crate::steps::Move;
use fc_cards::{Card, Place};
use fc_position::Position;
use thiserror::Error;

/// Why the rules refuse a move: the first rule that it breaks, in this order.
#[derive(Clone, Copy, Debug, PartialEq, Eq, Error)]
pub enum Refusal {
    /// The column or the cell that it comes from has no card.
    #[error("no card is there to be taken")]
    NoCard,
    /// It goes back to its own column, from cell to cell, or to a column past the eighth.
    #[error("a card goes neither to its own column nor from cell to cell")]
    NoWay,
    /// It goes to a cell that the game lacks.
    #[error("the game has no such cell")]
    NoSuchCell,
    /// It goes to a cell with a card.
    #[error("the cell holds a card")]
    TakenCell,
    /// It goes to a column with cards, on the last of which the card may not stand.
    #[error("the card may not stand on the last card there")]
    NoStand,
    /// It goes to an empty column, to which the card may not go.
    #[error("only kings may go to an empty column")]
    NoOpen,
    /// It goes home, and the card isn't the next one of its suit.
    #[error("the card isn't the next one of its foundation")]
    NotNext,
}

/// Why the rules of the game refuse the move; `None` where they allow it.
pub fn refusal_of<G: Game>(game: &G, position: &Position, m: Move) -> Option<Refusal>
    ensures why { IfSome result (IsWhy (G.game game.now) position.now m) }
    ensures none { IfNone result (Allows (G.game game.now) position.now m) }
{
    match position.playable(m.from) {
        Some(card) if is_way(m) => hindrance(game, position, card, m.to),
        Some(_) => Some(Refusal::NoWay),
        None => Some(Refusal::NoCard),
    }
}

// Whether some card could make the move, whatever stands there.
fn is_way(m: Move) -> bool
    ensures { IsTrue result ↔ IsWay m }
{
    match (m.from, m.to) {
        (Place::Column(i), Place::Column(j)) => j != i && j < 8,
        (Place::Cell(_), Place::Column(j)) => j < 8,
        (Place::Cell(_), Place::Cell(_)) | (Place::Home, _) => false,
        _ => true,
    }
}

// Why the place doesn't take the card.
fn hindrance<G: Game>(game: &G, position: &Position, card: Card, to: Place) -> Option<Refusal>
    requires whole { IsPosition position.now }
    requires near { IsNoFarColumn to }
    ensures why { IfSome result (TakesNot (G.game game.now) position.now card to) }
    ensures none { IfNone result (Takes (G.game game.now) position.now card to) }
{
    match to {
        Place::Column(j) => landing_hindrance(game, position.column(j), card),
        Place::Cell(j) if j >= game.cells() => Some(Refusal::NoSuchCell),
        Place::Cell(j) if position.cell(j).is_some() => Some(Refusal::TakenCell),
        Place::Home if !position.is_next(card) => Some(Refusal::NotNext),
        _ => None,
    }
}

// Why the card may not go to a column with these cards.
fn landing_hindrance<G: Game>(game: &G, cards: &[Card], card: Card) -> Option<Refusal>
    ensures why { IfSome result (LandsNot (G.game game.now) cards.now card) }
    ensures none { IfNone result (MayLand (G.game game.now) cards.now card) }
{
    match cards.last() {
        Some(last) if !game.stands(card, *last) => Some(Refusal::NoStand),
        None if !game.opens(card) => Some(Refusal::NoOpen),
        _ => None,
    }
}
