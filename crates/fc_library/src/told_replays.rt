//! Lists of moves played on boards.
ghost use Rattle.std.specs.Prelude.{IfOk, IfErr};
ghost use Rattle.fc_library.specs.Replays.{IsReplayRefused, IsReplayTold};

use crate::call_refusals::CallRefusal;
use crate::game_names::{GameName, game_of};
use crate::sinks::ToVec;
use crate::told_answers::Told;
use crate::typed_boards::start_of;
use fc_lists::LONGEST_MOVES;
use fc_moves::Game;
use fc_replay::{Page, replay_as};
use std::alloc::Global;

/// The boards after the first move of a list, the second, and so on, from a board of the game of this name.
/// The status tells whether the last board is won: 0, or 3 where it isn't.
///
/// # Errors
/// In this order: `Game`; `Board`; `TooLong` for a list of more than 1,048,576 bytes; then `Moves`: at its step a token that
/// is no move or a move that isn't allowed, or, as `ReplayFault::Write`, want of memory for the boards.
pub fn replay_list(
    alloc: Global,
    name: GameName,
    board: &[u8],
    list: &[u8],
) -> Result<Told, CallRefusal>
    ensures told { IfOk result (IsReplayTold name board.now list.now) }
    ensures refused { IfErr result (IsReplayRefused name board.now list.now) }
{
    let Some(game) = game_of(name) else {
        return Err(CallRefusal::Game);
    };
    let start = match start_of(board, name.cells) {
        Ok(start) => start,
        Err(fault) => return Err(CallRefusal::Board(fault)),
    };
    if list.len() > LONGEST_MOVES {
        return Err(CallRefusal::TooLong);
    }
    let mut boards = ToVec::new(alloc);
    match replay_as(&game, &start, list, Page::Board, &mut boards) {
        Ok(ended) => Ok(Told {
            status: if ended.is_won { 0 } else { 3 },
            place: 0,
            outcome: None,
            text: boards.into_bytes(),
        }),
        Err(fault) => Err(CallRefusal::Moves(fault)),
    }
}
