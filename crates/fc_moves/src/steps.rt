ghost use Rattle.std.specs.Prelude.{◌↔◌, IsTrue};
ghost use Rattle.fc_position.specs.Position.{IsPosition};
ghost use Rattle.fc_moves.specs.Step.{Step, Allows, Joins, Takes, MayLand};

use crate::games::Game;
use fc_cards::{Card, Place};
use fc_position::Position;

/// A one-card move, from a place to a place.
#[derive(Clone, Copy, Debug, PartialEq, Eq, Hash, Default)]
pub struct Move {
    pub from: Place,
    pub to: Place,
}

/// Whether the rules of the game allow the move.
pub fn allows<G: Game>(game: &G, position: &Position, m: Move) -> bool
    ensures value { IsTrue result ↔ Allows (G.game game.now) position.now m }
{
    match position.playable(m.from) {
        Some(card) => joins(m.from, m.to) && takes(game, position, card, m.to),
        None => false,
    }
}

/// Makes a move that the rules allow.
pub fn apply<G: Game>(game: &G, position: &mut Position, m: Move)
    requires allowed { Allows (G.game game.now) position.old m }
    ensures step { Step (G.game game.now) position.old m position.new }
    ensures whole { IsPosition position.new }
{
    position.shift(m.from, m.to);
}

// Whether a card may go from the one place to the other, whatever stands there.
pub(crate) fn joins(from: Place, to: Place) -> bool
    ensures { IsTrue result ↔ Joins from to }
{
    match (from, to) {
        (Place::Column(i), Place::Column(j)) => j != i,
        (Place::Cell(_), Place::Cell(_)) | (Place::Home, _) => false,
        _ => true,
    }
}

// Whether the place takes the card.
pub(crate) fn takes<G: Game>(game: &G, position: &Position, card: Card, to: Place) -> bool
    requires whole { IsPosition position.now }
    ensures { IsTrue result ↔ Takes (G.game game.now) position.now card to }
{
    match to {
        Place::Column(j) => j < 8 && may_land(game, position.column(j), card),
        Place::Cell(j) => j < game.cells() && position.cell(j).is_none(),
        Place::Home => position.is_next(card),
    }
}

/// Whether the card may go to a column with these cards.
pub fn may_land<G: Game>(game: &G, cards: &[Card], card: Card) -> bool
    ensures value { IsTrue result ↔ MayLand (G.game game.now) cards.now card }
{
    match cards.last() {
        Some(last) => game.stands(card, *last),
        None => game.opens(card),
    }
}
