//! The runs that the product's definition writes out word for word.

ghost use Rattle.std.specs.Prelude.{◌≡◌, ◌+◌, ◌≤◌, IfOk, IfErr};
ghost use Rattle.fc_io.specs.Moves.{GivesAtMost};
ghost use Rattle.fc_board_runs.specs.Devices.{change};
ghost use Rattle.fc_board_runs.specs.Runs.{IsDealt, IsDealFault, IsReplayed, IsReplayFault};

use crate::faults::{Output, ProgramFault};
use crate::runs::{LONGEST_BOARD, read_position, run_replay_as};
use fc_deal::{deal, deal_text};
use fc_io::{Sink, Source, write_all};
use fc_lists::LONGEST_MOVES;
use fc_moves::Game;
use fc_replay::Page;
use std::alloc::Global;

/// Writes the columns of deal `n`. The status is 0.
///
/// # Errors
/// A number outside 1 to 1,000,000, and nothing is written; or a text that can't be written, of which a front may be.
pub fn run_deal<K: Sink>(n: u32, out: &mut K) -> Result<u8, ProgramFault>
    ensures dealt { IfOk result (IsDealt n
        (change K.held K.has_failed out.old out.new)) }
    ensures fault { IfErr result (IsDealFault n
        (change K.held K.has_failed out.old out.new)) }
{
    let Some(position) = deal(n) else {
        return Err(ProgramFault::Number(n));
    };
    match write_all(out, deal_text(&position).as_bytes()) {
        Ok(()) => Ok(0),
        Err(_) => Err(ProgramFault::Write(Output::Answer)),
    }
}

/// Reads a board of the game and a text of moves, and writes the boards after the first move, the second, and so on. The
/// status is 0.
///
/// # Errors
/// In this order: a board that can't be read; a text that is none of the game; moves that can't be read, are longer than
/// 1,048,576 bytes, or want of memory, whichever is met first; then at its step a token that is no move, a move that
/// isn't allowed, or a board that can't be written. The boards before that step stand written.
pub fn run_replay<G: Game, B: Source, M: Source, K: Sink>(
    alloc: Global,
    game: &G,
    board: &mut B,
    moves: &mut M,
    out: &mut K,
) -> Result<u8, ProgramFault>
    ensures replayed { IfOk result (IsReplayed (G.game game.now)
        (change B.told B.has_failed board.old board.new)
        (change M.told M.has_failed moves.old moves.new)
        (change K.held K.has_failed out.old out.new)) }
    ensures fault { IfErr result (IsReplayFault (G.game game.now)
        (change B.told B.has_failed board.old board.new)
        (change M.told M.has_failed moves.old moves.new)
        (change K.held K.has_failed out.old out.new)) }
    ensures taken_board { GivesAtMost (B.told board.old) (B.told board.new) (LONGEST_BOARD + 1) }
    ensures taken_moves { GivesAtMost (M.told moves.old) (M.told moves.new) (LONGEST_MOVES + 1) }
{
    let start = read_position(board, game.cells())?;
    match run_replay_as(alloc, game, &start, moves, Page::Board, out) {
        Ok(_) => Ok(0),
        Err(fault) => Err(fault),
    }
}
