//! How many entries of an answer are left to a player's hands.
ghost use Rattle.fc_moves.specs.GameRules.{IsPositionOf};

use crate::output::endings::Ending;
use crate::output::found_answers::Answered;
use fc_methods::HomeRule;
use fc_moves::{Game, Move};
use fc_position::Position;
use fc_review::count_by_hand;
use fc_runs::{Input, ProgramFault};
use std::alloc::Global;

/// How many entries of an answer's list are left to a player's hands, where cards go home by themselves by this rule; nothing of an
/// answer without a list.
pub fn by_hand_told<G: Game>(
    alloc: Global,
    game: &G,
    start: &Position,
    answered: &Answered,
    rule: HomeRule,
) -> Result<Option<u64>, Ending>
    requires position { IsPositionOf (G.game game.now) start.now }
{
    match answered.count() {
        Some(_) => Ok(Some(by_hand_of(alloc, game, start, answered.moves(), rule)?)),
        None => Ok(None),
    }
}

/// How many entries of a list are left to a player's hands.
pub fn by_hand_of<G: Game>(
    alloc: Global,
    game: &G,
    start: &Position,
    moves: &[Move],
    rule: HomeRule,
) -> Result<u64, Ending>
    requires position { IsPositionOf (G.game game.now) start.now }
{
    if moves.len() > u32::MAX as usize {
        return Err(Ending::Fault(ProgramFault::TooLong(Input::Moves)));
    }
    match count_by_hand(alloc, game, start, moves, rule) {
        Ok(count) => Ok(count as u64),
        // (the moves are allowed)
        Err(_) => Err(Ending::Fault(ProgramFault::Memory)),
    }
}
