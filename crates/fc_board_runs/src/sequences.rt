//! The run of the program that replays lists in standard notation, whose entries may move sequences, over any source and any
//! sink.

ghost use Rattle.std.specs.Prelude.{◌+◌, IfOk, IfErr};
ghost use Rattle.fc_io.specs.Moves.{GivesAtMost};
ghost use Rattle.fc_moves.specs.GameRules.{IsPositionOf};
ghost use Rattle.fc_board_runs.specs.Devices.{change};
ghost use Rattle.fc_board_runs.specs.Sequences.{IsListFaultAs, IsPlayed};

use crate::faults::{Input, Output, ProgramFault, read_fault};
use fc_io::{Sink, Source, read_to_vec};
use fc_lists::{LONGEST_MOVES, expand_entries};
use fc_moves::Game;
use fc_position::Position;
use fc_replay::{Ended, Page, play};
use std::alloc::Global;

/// Reads a list in standard notation whose entries may move sequences, expands it to one-card moves from a position of the
/// game, and writes a page after each of these. Where it isn't told how many cards go to an empty column, they are so many
/// that the whole list can be played. It answers the number of one-card moves, and whether the last board is won.
///
/// # Errors
/// In this order: moves that can't be read, are longer than 1,048,576 bytes, or want of memory, whichever is met first; then
/// the first token that is no entry; the first step up to which no numbers of cards let the entries be played, or one up to
/// which they lead to more than 1,000 boards, or want of memory, whichever is met first; more than 4,294,967,295 one-card
/// moves, which are too long; and a page that can't be written. Before the pages nothing is written.
pub fn run_replay_sequences<G: Game, M: Source, K: Sink>(
    alloc: Global,
    game: &G,
    start: &Position,
    moves: &mut M,
    page: Page,
    out: &mut K,
) -> Result<Ended, ProgramFault>
    requires fits { IsPositionOf (G.game game.now) start.now }
    ensures played { IfOk result (IsPlayed page (G.game game.now) start.now
        (change M.told M.has_failed moves.old moves.new)
        (change K.held K.has_failed out.old out.new)) }
    ensures fault { IfErr result (IsListFaultAs page (G.game game.now) start.now
        (change M.told M.has_failed moves.old moves.new)
        (change K.held K.has_failed out.old out.new)) }
    ensures taken_moves { GivesAtMost (M.told moves.old) (M.told moves.new) (LONGEST_MOVES + 1) }
{
    let text = match read_to_vec(alloc, moves, LONGEST_MOVES) {
        Ok(text) => text,
        Err(fault) => return Err(read_fault(Input::Moves, fault)),
    };
    let expansion = match expand_entries(alloc, game, start, text.as_slice(), LONGEST_MOVES) {
        Ok(expansion) => expansion,
        Err(fault) => return Err(ProgramFault::from(fault)),
    };
    match play(game, start, expansion.moves.as_slice(), page, out) {
        Ok(ended) => Ok(ended),
        Err(_) => Err(ProgramFault::Write(Output::Answer)),
    }
}
