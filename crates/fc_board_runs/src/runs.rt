//! The runs of the program that read a board and replay moves, over any source and any sink.

ghost use Rattle.std.specs.Prelude.{◌≡◌, ◌+◌, ◌≤◌, IfOk, IfErr};
ghost use Rattle.fc_io.specs.Moves.{GivesAtMost};
ghost use Rattle.fc_position.specs.Position.{Fits};
ghost use Rattle.fc_board_runs.specs.Devices.{change, GivesBoard, IsInputFault};
ghost use Rattle.fc_board_runs.specs.inner.Fault.{replay_fault};
ghost use Rattle.fc_board_runs.specs.Runs.{IsReplayedAs, IsReplayFaultAs};

use crate::faults::{Input, Output, ProgramFault, read_fault};
use fc_io::{Sink, Source, read_to_vec, read_up_to};
use fc_lists::LONGEST_MOVES;
use fc_moves::Game;
use fc_position::Position;
use fc_replay::{Ended, Page, ReplayFault, replay_as};
use fc_text::read_board;
use std::alloc::Global;

/// The most bytes that a board's text may have.
pub const LONGEST_BOARD: usize = 4096;

/// Reads a board of a game with so many cells, at most 4.
///
/// # Errors
/// A source that has failed, or a text that spells no board of such a game: one of more than 4,096 bytes does not.
pub fn read_position<S: Source>(board: &mut S, cells: u8) -> Result<Position, ProgramFault>
    requires game { cells ≤ 4 }
    ensures read { IfOk result (GivesBoard cells (change S.told S.has_failed board.old board.new)) }
    ensures fits { IfOk result (Fits cells) }
    ensures fault { IfErr result (IsInputFault cells (change S.told S.has_failed board.old board.new)) }
    ensures taken { GivesAtMost (S.told board.old) (S.told board.new) (LONGEST_BOARD + 1) }
{
    let mut room = [0; LONGEST_BOARD + 1];
    let count = match read_up_to(board, &mut room) {
        Ok(count) => count,
        Err(_) => return Err(ProgramFault::Read(Input::Board)),
    };
    match read_board(&room[..count], cells) {
        Ok(position) => Ok(position),
        Err(fault) => Err(ProgramFault::Board(fault)),
    }
}

/// Reads a text of moves and makes them from a position that fits the game, and writes a page after each. It answers the
/// number of moves, and whether the last board is won.
///
/// # Errors
/// In this order: moves that can't be read, are longer than 1,048,576 bytes, or want of memory, whichever is met first; then
/// at its step a token that is no move, a move that isn't allowed, or a page that can't be written. The pages before that
/// step stand written.
pub fn run_replay_as<G: Game, M: Source, K: Sink>(
    alloc: Global,
    game: &G,
    start: &Position,
    moves: &mut M,
    page: Page,
    out: &mut K,
) -> Result<Ended, ProgramFault>
    requires fits { Fits (G.game game.now).cells start.now }
    ensures replayed { IfOk result (IsReplayedAs page (G.game game.now) start.now
        (change M.told M.has_failed moves.old moves.new)
        (change K.held K.has_failed out.old out.new)) }
    ensures fault { IfErr result (IsReplayFaultAs page (G.game game.now) start.now
        (change M.told M.has_failed moves.old moves.new)
        (change K.held K.has_failed out.old out.new)) }
    ensures taken_moves { GivesAtMost (M.told moves.old) (M.told moves.new) (LONGEST_MOVES + 1) }
{
    let text = match read_to_vec(alloc, moves, LONGEST_MOVES) {
        Ok(text) => text,
        Err(fault) => return Err(read_fault(Input::Moves, fault)),
    };
    match replay_as(game, start, text.as_slice(), page, out) {
        Ok(ended) => Ok(ended),
        Err(fault) => Err(replay_fault(fault)),
    }
}

// The fault of moves that weren't replayed to their end.
fn replay_fault(fault: ReplayFault) -> ProgramFault
    ensures value { result ≡ replay_fault fault }
{
    match fault {
        ReplayFault::Write => ProgramFault::Write(Output::Answer),
        _ => ProgramFault::Moves(fault),
    }
}
