//! How many entries of a list of moves are left to a player's hands.

ghost use Rattle.std.specs.Prelude.{◌≡◌, ◌↔◌, ◌<◌, ◌^◌, IfOk, IfErr, IsTrue, length};
ghost use Rattle.fc_position.specs.Board.{Board};
ghost use Rattle.fc_moves.specs.GameRules.{IsPositionOf};
ghost use Rattle.fc_moves.specs.Run.{Run};
ghost use Rattle.fc_sequences.specs.Gathering.{IsGatherFault};
ghost use Rattle.fc_review.specs.Hands.{GoesByItself, IsByHand};
ghost use Rattle.fc_review.specs.inner.Goers.{GoByThemselves};

use fc_cards::Place;
use fc_home::{HomeRule, goes_home_from};
use fc_moves::{Game, Move, apply};
use fc_position::Position;
use fc_sequences::{GatherFault, gather};
use std::alloc::Global;

/// How many entries of a list of one-card moves are left to a player's hands, where cards go home by themselves by the home
/// rule: moves that together carry a sequence are one entry, and a card that goes home by itself is none.
///
/// # Errors
/// `NotAllowed` with the step of the first move that the rules don't allow; `Memory` where a growth was refused.
pub fn count_by_hand<G: Game>(
    alloc: Global,
    game: &G,
    start: &Position,
    moves: &[Move],
    rule: HomeRule,
) -> Result<usize, GatherFault>
    requires position { IsPositionOf (G.game game.now) start.now }
    requires few { length moves.now < 2 ^ 32 }
    ensures count { IfOk result (IsByHand rule (G.game game.now) start.now moves.now) }
    ensures fault { IfErr result (IsGatherFault (G.game game.now) start.now moves.now) }
{
    let entries = gather(alloc, game, start, moves)?;
    let alone = goers(game, start, moves, rule);
    Ok(entries.len() - alone)
}

// How many moves of a list take a card home that goes there by itself.
fn goers<G: Game>(game: &G, start: &Position, moves: &[Move], rule: HomeRule) -> usize
    requires run { (c : Board) × Run (G.game game.now) start.now moves.now c }
    ensures count { GoByThemselves rule (G.game game.now) start.now moves.now result }
{
    let mut board = start.copy();
    let mut count = 0;
    for m in moves {
        if goes_by_itself(game, &board, *m, rule) {
            count += 1;
        }
        apply(game, &mut board, *m);
    }
    count
}

// Whether a move takes a card home that goes there by itself.
fn goes_by_itself<G: Game>(game: &G, position: &Position, m: Move, rule: HomeRule) -> bool
    ensures value { IsTrue result ↔ GoesByItself rule (G.game game.now) position.now m.from m.to }
{
    match m.to {
        Place::Home => goes_home_from(game, position, rule, m.from),
        Place::Column(_) | Place::Cell(_) => false,
    }
}
