//! Entries of lists in standard notation.

ghost use Rattle.std.specs.Prelude.{◌≡◌, ℕ, ◌↔◌, ◌+◌, ◌<◌, ◌≤◌, length, IfSome, IfNone, IsTrue, OnOk};
ghost use Rattle.fc_position.specs.Board.{Board};
ghost use Rattle.fc_moves.specs.GameRules.{IsPositionOf};
ghost use Rattle.fc_moves.specs.MoveText.{place_letter};
ghost use Rattle.fc_sequences.specs.Carry.{AddsRun};
ghost use Rattle.fc_sequences.specs.Pair.{HasPairText, SpellsPair, IsNoPair, hexadecimal, PlaysBy, PlaysCards, moves_for};

use crate::carries::{carry, may_carry, step};
use fc_cards::Place;
use fc_moves::{Game, Move, allows, read_move};
use fc_position::Position;
use std::alloc::AllocError;

/// An entry: where cards go from, where to, and how many, where that is told.
#[derive(Clone, Copy, Debug, PartialEq, Eq)]
pub struct Pair {
    pub from: Place,
    pub to: Place,
    pub count: Option<u8>,
}

/// The entry that a token spells in either case: a move's two letters, and perhaps `v` and how many cards, in hexadecimal
/// from 1 to F. `None` at any other token.
pub fn read_pair(token: &[u8]) -> Option<Pair>
    ensures read { IfSome result (SpellsPair token.now) }
    ensures refused { IfNone result (IsNoPair token.now) }
{
    match token {
        [from, to] => of_places(from.to_ascii_lowercase(), to.to_ascii_lowercase(), None),
        [from, to, v, digit] => {
            if v.to_ascii_lowercase() != b'v' {
                return None;
            }
            let count = read_digit(digit.to_ascii_lowercase())?;
            of_places(
                from.to_ascii_lowercase(),
                to.to_ascii_lowercase(),
                Some(count),
            )
        }
        _ => None,
    }
}

// The entry of the two letters of a move.
fn of_places(from: u8, to: u8, count: Option<u8>) -> Option<Pair>
    requires count { IfSome count (λ n. (1 ≤ n) × (n < 16)) }
    ensures read { IfSome result (λ p. HasPairText p × (p.count ≡ count) × (from ≡ place_letter p.from) × (to ≡ place_letter p.to)) }
    ensures refused { IfNone result ((p : Pair) → HasPairText p → from ≡ place_letter p.from → to ≡ place_letter p.to → ⊥) }
{
    match read_move(&[from, to]) {
        Some(Move { from, to }) => Some(Pair { from, to, count }),
        None => None,
    }
}

// The number from 1 to 15 of a hexadecimal digit.
fn read_digit(digit: u8) -> Option<u8>
    ensures read { IfSome result (λ n. (1 ≤ n) × (n < 16) × (digit ≡ hexadecimal n)) }
    ensures refused { IfNone result ((n : ℕ) → 1 ≤ n → n < 16 → digit ≡ hexadecimal n → ⊥) }
{
    match digit {
        b'1'..=b'9' => Some(digit - b'0'),
        b'a'..=b'f' => Some(digit - b'a' + 10),
        _ => None,
    }
}

// Whether an entry may be played with so many cards.
pub(crate) fn may_play<G: Game>(game: &G, position: &Position, pair: Pair, count: u8) -> bool
    ensures value { IsTrue result ↔ ((c : Board) × PlaysBy (G.game game.now) position.now pair count c) }
{
    if pair.count.is_some_and(|told| told != count) {
        return false;
    }
    may_play_cards(game, position, pair.from, pair.to, count)
}

// Whether so many cards may be played from the one place to the other.
pub(crate) fn may_play_cards<G: Game>(
    game: &G,
    position: &Position,
    from: Place,
    to: Place,
    count: u8,
) -> bool
    ensures value { IsTrue result ↔ ((c : Board) × PlaysCards (G.game game.now) position.now from to count c) }
{
    match (from, to) {
        (Place::Column(i), Place::Column(j)) => may_carry(game, position, i, j, count),
        (from, to) => count == 1 && allows(game, position, Move { from, to }),
    }
}

// Plays an entry with so many cards, and adds the one-card moves that do it.
pub(crate) fn play_pair<G: Game>(
    game: &G,
    position: &mut Position,
    pair: Pair,
    count: u8,
    moves: &mut Vec<Move>,
) -> Result<(), AllocError>
    requires may { (c : Board) × PlaysBy (G.game game.now) position.old pair count c }
    requires fits { IsPositionOf (G.game game.now) position.old }
    ensures played { OnOk result (PlaysBy (G.game game.now) position.old pair count position.new) }
    ensures run { OnOk result (AddsRun (G.game game.now) position.old moves.old.items position.new moves.new.items) }
    ensures count { OnOk result (length moves.new.items ≡ length moves.old.items + moves_for (G.game game.now) position.old pair.from pair.to count) }
    ensures whole { OnOk result (IsPositionOf (G.game game.now) position.new) }
{
    match (pair.from, pair.to) {
        (Place::Column(from), Place::Column(to)) => carry(game, position, from, to, count, moves),
        (from, to) => step(game, position, from, to, moves),
    }
}
