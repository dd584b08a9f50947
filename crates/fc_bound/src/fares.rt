//! What a move that takes no card home changes in a bound, where that is plain to see: what its card adds, before and after.

ghost use Rattle.std.specs.Prelude.{◌≡◌, ◌≢◌, ℕ, ◌+◌, ◌≤◌, Some, IfSome, IsSome};
ghost use Rattle.fc_cards.specs.declared.places.Place.TheVariants.{Home};
ghost use Rattle.fc_position.specs.Board.{Board, board_without, playable};
ghost use Rattle.fc_position.specs.Position.{IsPosition};
ghost use Rattle.fc_moves.specs.declared.steps.Move.{Move};
ghost use Rattle.fc_moves.specs.GameRules.{GameRules};
ghost use Rattle.fc_moves.specs.Step.{Step};
ghost use Rattle.fc_bound.specs.Bound.{bound, is_held_back};
ghost use Rattle.fc_bound.specs.Knots.{knot_bound};

use crate::bounds::{is_above, is_held_back};
use fc_cards::{Card, Place};
use fc_moves::Move;
use fc_position::Position;

// Whether a card is held back where it is put.
#[inline]
pub(crate) fn is_held_there(position: &Position, card: Card, to: Place) -> bool
    ensures value { (g : GameRules) (z : Board) (m : Move) (step : Step g position.now m z) → step.card ≡ card → m.to ≡ to → to ≢ Home
        → result ≡ is_held_back z card }
{
    let _cell = position.cell(0);
    match to {
        Place::Column(i) => is_above(position, i, card),
        _ => false,
    }
}

// The plain bound of where a move leads that takes no card home, by the bound of where it is made: it changes only by whether the
// card is held back, before and after. `None` where there is no card to move.
#[inline]
pub(crate) fn bound_after(position: &Position, m: Move, low: u8) -> Option<u8>
    requires bound { low ≡ bound position.now }
    ensures value { IfSome result (λ after. (g : GameRules) (z : Board) → Step g position.now m z → m.to ≢ Home → after ≡ bound z) }
    ensures told { (u : ℕ) → playable position.now m.from ≡ Some u → IsSome result }
    ensures whole { IsPosition position.now }
{
    let card = position.playable(m.from)?;
    let before = is_held_back(position, m.from) as u8;
    let after = is_held_there(position, card, m.to) as u8;
    Some((low + after).saturating_sub(before))
}

// What the playable card of a place adds to the knot bound, where that is plain to see: the position without the card has so much
// less. `None` where it would have to be counted.
fn fare(position: &Position, from: Place) -> Option<u8>
    ensures fare { IfSome result (λ fare. knot_bound position.now ≡ fare + knot_bound (board_without position.now from)) }
    ensures whole { IsPosition position.now }
{
    let held = is_held_back(position, from);
    match from {
        Place::Column(_) if held => Some(1),
        Place::Cell(_) => Some(0),
        _ => None,
    }
}

// What a card adds to the knot bound at the place to which a move takes it, where that is plain to see: `None` where it would have
// to be counted.
fn fare_there(position: &Position, card: Card, to: Place) -> Option<u8>
    ensures fare { IfSome result (λ fare. (g : GameRules) (z : Board) (m : Move) (step : Step g position.now m z) → step.card ≡ card → m.to ≡ to
        → knot_bound z ≡ fare + knot_bound (board_without z to)) }
    ensures most { IfSome result (λ fare. fare ≤ 1) }
    ensures whole { IsPosition position.now }
{
    let _cell = position.cell(0);
    match to {
        Place::Column(i) if is_above(position, i, card) => Some(1),
        Place::Cell(_) => Some(0),
        _ => None,
    }
}

// The knot bound of where a move leads that takes no card home, by the bound of where it is made, where that is plain to see.
#[inline]
pub(crate) fn knots_after(position: &Position, m: Move, low: u8) -> Option<u8>
    requires bound { low ≡ knot_bound position.now }
    ensures value { IfSome result (λ after. (g : GameRules) (z : Board) → Step g position.now m z → m.to ≢ Home → after ≡ knot_bound z) }
    ensures whole { IsPosition position.now }
{
    let fare = fare(position, m.from)?;
    let card = position.playable(m.from)?;
    let more = fare_there(position, card, m.to)?;
    Some(low - fare + more)
}
