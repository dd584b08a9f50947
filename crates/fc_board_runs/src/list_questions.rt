//! The run of the program that answers a question about a list of moves, over any source and any sink: which one-card moves
//! it comes to, or how the board stands after some of its entries.

ghost use Rattle.std.specs.Prelude.{◌≡◌, ◌+◌, ◌≤◌, All, IfOk, IfErr};
ghost use Rattle.fc_io.specs.Moves.{GivesAtMost};
ghost use Rattle.fc_position.specs.Position.{Fits};
ghost use Rattle.fc_moves.specs.GameRules.{IsPositionOf};
ghost use Rattle.fc_moves.specs.MoveText.{HasText};
ghost use Rattle.fc_board_runs.specs.Devices.{change};
ghost use Rattle.fc_board_runs.specs.Lists.{IsListAnswered, IsNotAnswered, wanted_text};

use crate::faults::{Input, Output, ProgramFault, read_fault};
use fc_io::{Sink, Source, read_to_vec, write_all};
use fc_lists::{LONGEST_MOVES, ListQuestion, ListWants, last_board, list_moves, moves_text};
use fc_moves::{Game, Move};
use fc_position::Position;
use fc_replay::Ended;
use fc_text::print_board;
use std::alloc::{AllocError, Global};

/// Reads a list of moves, plays it from a position of the game, or as many of its entries as are asked of, and writes what
/// is asked: nothing else of the list is read as entries. Where it isn't told how many cards go to an empty column, they
/// are so many that the entries that are played can be. It answers how many one-card moves were made, and whether the board
/// after them is won.
///
/// # Errors
/// In this order: moves that can't be read, are longer than 1,048,576 bytes, or want of memory, whichever is met first;
/// fewer entries than are asked of; what `run_replay_as` or `run_replay_sequences` says of entries that aren't played; want
/// of memory; and an answer that can't be written. Before the answer nothing is written.
pub fn run_list<G: Game, M: Source, K: Sink>(
    alloc: Global,
    game: &G,
    start: &Position,
    moves: &mut M,
    question: ListQuestion,
    out: &mut K,
) -> Result<Ended, ProgramFault>
    requires fits { IsPositionOf (G.game game.now) start.now }
    ensures answered { IfOk result (IsListAnswered question (G.game game.now) start.now
        (change M.told M.has_failed moves.old moves.new)
        (change K.held K.has_failed out.old out.new)) }
    ensures fault { IfErr result (IsNotAnswered question (G.game game.now) start.now
        (change M.told M.has_failed moves.old moves.new)
        (change K.held K.has_failed out.old out.new)) }
    ensures taken_moves { GivesAtMost (M.told moves.old) (M.told moves.new) (LONGEST_MOVES + 1) }
{
    let text = match read_to_vec(alloc, moves, LONGEST_MOVES) {
        Ok(text) => text,
        Err(fault) => return Err(read_fault(Input::Moves, fault)),
    };
    let steps = match list_moves(alloc, game, start, text.as_slice(), question) {
        Ok(steps) => steps,
        Err(fault) => return Err(ProgramFault::from(fault)),
    };
    let last = last_board(game, start, steps.as_slice());
    let answer = wanted_text(alloc, question.wants, steps.as_slice(), &last, game.cells())?;
    match write_all(out, answer.as_slice()) {
        Ok(()) => Ok(Ended {
            moves: steps.len() as u32,
            is_won: last.is_won(),
        }),
        Err(_) => Err(ProgramFault::Write(Output::Answer)),
    }
}

// What is asked of a list that comes to these moves, which lead to this position, in a game with so many cells.
fn wanted_text(
    alloc: Global,
    wants: ListWants,
    moves: &[Move],
    last: &Position,
    cells: u8,
) -> Result<Vec<u8>, AllocError>
    requires game { cells ≤ 4 }
    requires fits { Fits cells last.now }
    requires texts { All HasText moves.now }
    ensures text { IfOk result (λ t. t.items ≡ wanted_text wants cells moves.now last.now) }
{
    match wants {
        ListWants::Line => moves_text(alloc, moves),
        ListWants::BoardAfter(_) => Vec::from_slice(alloc, print_board(last, cells).as_bytes()),
    }
}
