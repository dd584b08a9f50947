//! `replay --json`: how a list ended, and its moves, as an object.
ghost use Rattle.fc_moves.specs.GameRules.{IsPositionOf};

use crate::input::moves::moves_played;
use crate::output::answer_objects::{Name, list_line};
use crate::output::endings::Ending;
use crate::output::hand_counts::by_hand_of;
use fc_lists::push_moves;
use fc_methods::HomeRule;
use fc_moves::{Game, Move, allows, apply};
use fc_position::Position;
use fc_replay::Ended;
use fc_runs::{Input, ProgramFault};
use std::alloc::Global;

/// How a list ended that is played to its end, and the object, on a line, that tells it and the list's one-card moves.
///
/// # Errors
/// What a replay of the list refuses.
pub fn replay_line<G: Game>(
    alloc: Global,
    game: &G,
    start: &Position,
    name: Name<'_>,
    list: &[u8],
    has_sequences: bool,
) -> Result<(String, Ended), ProgramFault>
    requires position { IsPositionOf (G.game game.now) start.now }
{
    let moves = moves_played(alloc, game, start, list, has_sequences)?;
    let is_won = is_won_by(game, start, moves.as_slice());
    let by_hand = match by_hand_of(alloc, game, start, moves.as_slice(), HomeRule::FREE) {
        Ok(count) => count,
        Err(Ending::Fault(fault)) => return Err(fault),
        Err(Ending::Told(_)) => return Err(ProgramFault::Memory),
    };
    let mut letters = Vec::new(alloc);
    push_moves(&mut letters, moves.as_slice())?;
    let Ok(count) = u32::try_from(moves.len()) else {
        return Err(ProgramFault::TooLong(Input::Moves));
    };
    let answer = if is_won { "won" } else { "not won" };
    let ended = Ended {
        moves: count,
        is_won,
    };
    match list_line(alloc, name, answer, count, letters.as_slice(), by_hand) {
        Ok(line) => Ok((line, ended)),
        Err(_) => Err(ProgramFault::Memory),
    }
}

// Whether a board is won once these moves are played, as far as the rules allow them.
fn is_won_by<G: Game>(game: &G, start: &Position, moves: &[Move]) -> bool {
    let mut board = start.copy();
    for m in moves {
        if !allows(game, &board, *m) {
            return false;
        }
        apply(game, &mut board, *m);
    }
    board.is_won()
}
