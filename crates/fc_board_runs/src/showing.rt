//! The run of the program that shows a board, over any source and any sink.

ghost use Rattle.std.specs.Prelude.{◌≡◌, ◌≤◌, ◌↔◌, IfOk, IfErr, OnOk, IsErr, IsTrue};
ghost use Rattle.fc_io.specs.Moves.{TakesBytes, TakesFront};
ghost use Rattle.fc_position.specs.Position.{Fits};
ghost use Rattle.fc_board_runs.specs.Devices.{change};
ghost use Rattle.fc_show.specs.Drawing.{drawing, style_without_mark};
ghost use Rattle.fc_board_runs.specs.Showing.{IsLookWritten, IsShowFault, look_text};

use crate::faults::{Output, ProgramFault};
use fc_io::{Failed, Sink, write_all};
use fc_moves::Game;
use fc_position::Position;
use fc_show::{Drawing, Style, draw};
use fc_text::print_board;

/// How a board is shown.
#[derive(Clone, Copy, Debug, PartialEq, Eq)]
pub enum Look {
    /// As players see it, with its columns downward.
    Drawn,
    /// The same with red suits in red, as terminals show it.
    Coloured,
    /// As its text, which is read again.
    Text,
}

/// Writes what shows a position that fits the game. The status is 0.
///
/// # Errors
/// What shows it can't be written, of which a front may be.
pub fn run_show<G: Game, K: Sink>(
    game: &G,
    look: Look,
    start: &Position,
    out: &mut K,
) -> Result<u8, ProgramFault>
    requires fits { Fits (G.game game.now).cells start.now }
    ensures look_text { IfOk result (IsLookWritten look (G.game game.now).cells start.now
        (change K.held K.has_failed out.old out.new)) }
    ensures fault { IfErr result (IsShowFault look (G.game game.now).cells start.now
        (change K.held K.has_failed out.old out.new)) }
{
    match write_look(start, game.cells(), look, out) {
        Ok(()) => Ok(0),
        Err(Failed) => Err(ProgramFault::Write(Output::Answer)),
    }
}

// Writes what shows a position in a game with so many cells, which it fits.
fn write_look<K: Sink>(
    position: &Position,
    cells: u8,
    look: Look,
    out: &mut K,
) -> Result<(), Failed>
    requires game { cells ≤ 4 }
    requires fits { Fits cells position.now }
    ensures front { TakesFront (K.held out.old) (K.held out.new) (look_text look cells position.now) }
    ensures whole { OnOk result (TakesBytes (K.held out.old) (K.held out.new) (look_text look cells position.now)) }
    ensures fault { IsErr result ↔ IsTrue (K.has_failed out.new) }
{
    match look {
        Look::Drawn => write_all(out, drawn(position, cells, false).as_slice()),
        Look::Coloured => write_all(out, drawn(position, cells, true).as_slice()),
        Look::Text => write_all(out, print_board(position, cells).as_bytes()),
    }
}

// The drawing of a position in which no card is marked.
fn drawn(position: &Position, cells: u8, is_coloured: bool) -> Drawing
    requires game { cells ≤ 4 }
    requires fits { Fits cells position.now }
    ensures value { result.items ≡ drawing (style_without_mark is_coloured) cells position.now }
{
    draw(position, cells, &Style::unmarked(is_coloured))
}
