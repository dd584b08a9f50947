//! Whether a card goes home once another was moved.

ghost use Rattle.std.specs.Prelude.{◌≡◌, ◌≢◌, ℕ, IfSome, IsTrue, Some};
ghost use Rattle.fc_cards.specs.declared.places.Place.TheVariants.{Home};
ghost use Rattle.fc_position.specs.Board.{IsNext, front_of, last_of, board_without, playable};
ghost use Rattle.fc_position.specs.Position.{IsPosition};
ghost use Rattle.fc_moves.specs.Step.{Allows};
ghost use Rattle.fc_home.specs.Settles.{NoneGoesHome};
ghost use Rattle.fc_bound.specs.Landings.{IsLanding};
ghost use Rattle.fc_space.specs.inner.Standing.{StaysSettled};

use crate::class_space::ClassRules;
use fc_bound::Landing;
use fc_cards::{Card, Place};
use fc_home::goes_home_from;
use fc_moves::{Game, Move, apply};
use fc_position::Position;

// Whether the card beneath the playable one of a place is the next of its suit: no other one can go home once that is gone.
#[inline(always)]
fn frees_next(position: &Position, from: Place) -> bool
    requires whole { IsPosition position.now }
    requires card { (u : ℕ) × (playable position.now from ≡ Some u) }
    ensures next { (c : ℕ) → playable (board_without position.now from) from ≡ Some c → IsNext position.now.homes c → IsTrue result }
{
    match from {
        Place::Column(i) => match beneath_last(position.column(i)) {
            Some(card) => position.is_next(card),
            None => false,
        },
        Place::Cell(_) => false,
        Place::Home => false,
    }
}

// The card beneath the last one.
#[inline]
fn beneath_last(cards: &[Card]) -> Option<Card>
    ensures value { result ≡ last_of (front_of cards.now) }
{
    let (_, front) = cards.split_last()?;
    front.last().copied()
}

// Whether no card goes home after a move that takes none home, told by moving the card forth and back: the position is as it was.
fn stays_moved<G: Game + Drop>(rules: &ClassRules<G>, position: &mut Position, m: Move) -> bool
    requires settled { NoneGoesHome rules.now.rule (G.game rules.now.game) position.old }
    requires whole { IsPosition position.old }
    requires allowed { Allows (G.game rules.now.game) position.old m }
    requires away { m.to ≢ Home }
    ensures stays { IsTrue result → StaysSettled rules.now.rule (G.game rules.now.game) position.old m }
    ensures same { position.new ≡ position.old }
{
    apply(&rules.game, position, m);
    // Only the card that lay below can.
    let goes = goes_home_from(&rules.game, position, rules.rule, m.from);
    position.shift(m.to, m.from);
    !goes
}

// Whether a move from a settled position takes no card home, and none goes home after it. The position is as it was.
#[inline(always)]
fn stays<G: Game + Drop>(rules: &ClassRules<G>, position: &mut Position, m: Move) -> bool
    requires settled { NoneGoesHome rules.now.rule (G.game rules.now.game) position.old }
    requires whole { IsPosition position.old }
    requires allowed { Allows (G.game rules.now.game) position.old m }
    ensures stays { IsTrue result → StaysSettled rules.now.rule (G.game rules.now.game) position.old m }
    ensures same { position.new ≡ position.old }
{
    if m.to == Place::Home {
        return false;
    }
    // Of most moves nothing is asked but whether the card beneath is next.
    !frees_next(position, m.from) || stays_moved(rules, position, m)
}

// How a move from a settled position lands, if it takes no card home, and none goes home after it. The position is as it was.
#[inline(always)]
pub(crate) fn lands<G: Game + Drop>(
    rules: &ClassRules<G>,
    position: &mut Position,
    m: Move,
) -> Option<Landing>
    requires settled { NoneGoesHome rules.now.rule (G.game rules.now.game) position.old }
    requires whole { IsPosition position.old }
    requires allowed { Allows (G.game rules.now.game) position.old m }
    ensures lands { IfSome result (λ landing. IsLanding position.old landing × (landing.m ≡ m) × StaysSettled rules.now.rule (G.game rules.now.game) position.old m) }
    ensures same { position.new ≡ position.old }
{
    let landing = Landing::of(position, m)?;
    if stays(rules, position, m) {
        Some(landing)
    } else {
        None
    }
}
