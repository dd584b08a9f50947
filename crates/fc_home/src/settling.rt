ghost use Rattle.std.specs.Prelude.{◌≡◌, ℕ, ◌+◌, ◌≤◌, ◌↔◌, Some, length, IsTrue, IfSome, IfNone};
ghost use Rattle.fc_cards.specs.declared.places.Place.{Place};
ghost use Rattle.fc_position.specs.Board.{playable, IsNext};
ghost use Rattle.fc_position.specs.Position.{IsPosition, Fits};
ghost use Rattle.fc_moves.specs.MoveText.{IsThere};
ghost use Rattle.fc_moves.specs.Run.{Run};
ghost use Rattle.fc_moves.specs.Step.{place_number};
ghost use Rattle.fc_home.specs.HomeRule.{GoesHome};
ghost use Rattle.fc_home.specs.inner.Known.{IsKnown};
ghost use Rattle.fc_home.specs.inner.Nexts.{HasNexts, IsLeastBelow, IsEarlier};
ghost use Rattle.fc_home.specs.Settles.{IsFirstHome, PlayableGoesHome, NoneGoesHome, SettlesBy, Settles};

use crate::home_rules::HomeRule;
use crate::known::Known;
use crate::rules::goes_home;
use arrayvec::ArrayVec;
use fc_cards::{Card, Place};
use fc_moves::{Game, Move};
use fc_position::Position;

/// The greatest number of a home rule: 0 sends nothing home, 1 the forced cards, 2 the free ones.
pub const GREATEST_RULE: u8 = 2;

// A playable card that is next in its suit, and where it lies.
#[derive(Clone, Copy)]
struct Goer {
    card: Card,
    from: Place,
}

/// The forced card with the least number: playable, next in its suit, and with every card that may stand on it home.
/// `None` where no card is forced.
pub fn forced<G: Game>(game: &G, position: &Position) -> Option<Card>
    ensures least { IfSome result (λ c. (from : Place) × IsFirstHome 1 (G.game game.now) position.now from c) }
    ensures none { IfNone result (NoneGoesHome 1 (G.game game.now) position.now) }
    ensures whole { IsPosition position.now }
{
    let goer = first_home(game, position, 1, &mut Known::new())?;
    Some(goer.card)
}

/// Whether the place has a playable card and it goes home by the home rule.
#[inline]
pub fn goes_home_from<G: Game>(game: &G, position: &Position, rule: HomeRule, from: Place) -> bool
    ensures value { IsTrue result ↔ PlayableGoesHome rule (G.game game.now) position.now from }
    ensures whole { IsPosition position.now }
{
    match position.playable(from) {
        // Few cards are next, and the others need no more than that look.
        Some(card) if position.is_next(card) => {
            let mut known = Known::new();
            goes_home(game, position, rule.get(), card, &mut known)
        }
        _ => false,
    }
}

/// Settles a position by a home rule, at most 2: sends cards home one by one, always the one with the least number that
/// goes by the rule, until none goes. The moves that it made, in order.
pub fn settle<G: Game>(game: &G, position: &mut Position, rule: u8) -> ArrayVec<Move, 52>
    requires rule { rule ≤ GREATEST_RULE }
    ensures settled { SettlesBy (G.game game.now) rule position.old result.items position.new }
    ensures count { Settles (G.game game.now) rule position.old (length result.items) position.new }
    ensures run { Run (G.game game.now) position.old result.items position.new }
    ensures whole { IsPosition position.new }
    ensures fits { Fits (G.game game.now).cells position.old → Fits (G.game game.now).cells position.new }
{
    let mut moves = ArrayVec::new();
    let mut known = Known::new();
    while let Some(goer) = first_home(game, position, rule, &mut known) {
        position.shift(goer.from, Place::Home);
        known.send(goer.card.suit());
        moves.push(Move {
            from: goer.from,
            to: Place::Home,
        });
    }
    moves
}

// The first card that goes home by the rule. The next cards are asked by rising number, and no more are asked once one
// goes.
fn first_home<G: Game>(game: &G, position: &Position, rule: u8, known: &mut Known) -> Option<Goer>
    requires known { IsKnown (G.game game.now) position.now.homes known.old }
    ensures first { IfSome result (λ goer. IsFirstHome rule (G.game game.now) position.now goer.from goer.card) }
    ensures none { IfNone result (NoneGoesHome rule (G.game game.now) position.now) }
    ensures known { IsKnown (G.game game.now) position.now.homes known.new }
    ensures whole { IsPosition position.now }
{
    let mut nexts = [None; 4];
    add_columns(position, &mut nexts);
    add_cells(position, &mut nexts);
    while let Some(goer) = least(&nexts) {
        if goes_home(game, position, rule, goer.card, known) {
            return Some(goer);
        }
        nexts[goer.card.suit().index() as usize] = None;
    }
    None
}

// Finds the next cards that are the last of a column.
fn add_columns(position: &Position, nexts: &mut [Option<Goer>; 4])
    requires before { HasNexts (IsNext position.now.homes) position.now 0 nexts.old }
    ensures after { HasNexts (IsNext position.now.homes) position.now 8 nexts.new }
    ensures whole { IsPosition position.now }
{
    for i in 0..8 {
        add_next(position, Place::Column(i), nexts);
    }
}

// Finds those in a cell too.
fn add_cells(position: &Position, nexts: &mut [Option<Goer>; 4])
    requires before { HasNexts (IsNext position.now.homes) position.now 8 nexts.old }
    ensures after { HasNexts (IsNext position.now.homes) position.now 12 nexts.new }
{
    for i in 0..4 {
        add_next(position, Place::Cell(i), nexts);
    }
}

// Adds the playable card of a place to those of the places before it, where it is next.
fn add_next(position: &Position, from: Place, nexts: &mut [Option<Goer>; 4])
    requires there { IsThere from }
    requires before { HasNexts (IsNext position.now.homes) position.now (place_number from) nexts.old }
    ensures after { HasNexts (IsNext position.now.homes) position.now (place_number from + 1) nexts.new }
    ensures whole { IsPosition position.now }
{
    let Some(card) = position.playable(from) else {
        return;
    };
    if position.is_next(card) {
        nexts[card.suit().index() as usize] = Some(Goer { card, from });
    }
}

// The first of the cards by number.
fn least(nexts: &[Option<Goer>; 4]) -> Option<Goer>
    ensures least { IsLeastBelow 4 nexts.now result }
{
    let mut first = None;
    for goer in nexts {
        first = earlier(first, *goer);
    }
    first
}

// Of two cards the one with the lower number, if there is one.
fn earlier(one: Option<Goer>, other: Option<Goer>) -> Option<Goer>
    ensures earlier { IsEarlier one other result }
{
    match (one, other) {
        (None, _) => other,
        (_, None) => one,
        (Some(first), Some(second)) => { if second.card < first.card { other } else { one } }
    }
}
