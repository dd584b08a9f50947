ghost use Rattle.std.specs.Prelude.{◌≡◌, ◌≤◌, length, IfOk, OnOk, IfErr};
ghost use Rattle.fc_position.specs.Position.{Fits};
ghost use Rattle.fc_text.specs.Board.{Spells, IsBoardFault};
ghost use Rattle.fc_text.specs.inner.Board.{card_fault, line_fault};
ghost use Rattle.fc_text.specs.Line.{board_lines};
ghost use Rattle.fc_text.specs.Fault.{AreSound, IsFirstFault};
ghost use Rattle.fc_text.specs.inner.Reading.{IsTally};
ghost use Rattle.fc_text.specs.inner.Draft.{IsDraftOf};

use crate::drafts::Draft;
use crate::faults::{BoardFault, LineFault};
use crate::lines::without_return;
use crate::pieces::Lines;
use fc_position::{PartsFault, Position};

/// The position that a text spells for a game with so many cells.
///
/// A text has at most 4,096 bytes, and its lines are of three kinds, in any order: how many cards of each suit are home
/// (`Foundations: H-0 C-2 D-A S-10`), what the cells hold (`Freecells: - KH`), and the columns from the first on, the
/// deepest card first (`: 7C KH`). Lines are ended by LF or CR LF, tokens are parted by blanks and tabs, letters may be
/// of either case.
///
/// # Errors
/// A text that is too long; then the first line with a fault, and of its faults the first in the order of
/// [`BoardFault`]; then the least card that has two places or more; then the least card that has no place.
pub fn read_board(text: &[u8], cells: u8) -> Result<Position, BoardFault>
    requires game { cells ≤ 4 }
    ensures read { IfOk result (Spells cells text.now) }
    ensures fits { IfOk result (Fits cells) }
    ensures fault { IfErr result (IsBoardFault cells text.now) }
{
    if text.len() > 4096 {
        return Err(BoardFault::TooLong);
    }
    let draft = match read_lines(cells, text) {
        Ok(draft) => draft,
        Err((number, fault)) => return Err(of_line(number, fault)),
    };
    match draft.finish() {
        Ok(position) => Ok(position),
        Err(fault) => Err(of_cards(fault)),
    }
}

// The fault of cards that are no position.
fn of_cards(fault: PartsFault) -> BoardFault
    ensures { result ≡ card_fault fault }
{
    match fault {
        PartsFault::Repeated(card) => BoardFault::RepeatedCard(card),
        PartsFault::Missing(card) => BoardFault::MissingCard(card),
    }
}

// The fault of a line with this number.
fn of_line(number: u32, fault: LineFault) -> BoardFault
    ensures { result ≡ line_fault number fault }
{
    match fault {
        LineFault::BadCard => BoardFault::BadCard(number),
        LineFault::BadFoundation => BoardFault::BadFoundation(number),
        LineFault::TooManyCells => BoardFault::TooManyCells(number),
        LineFault::TooManyColumns => BoardFault::TooManyColumns(number),
        LineFault::RepeatedLine => BoardFault::RepeatedLine(number),
    }
}

// Reads the lines of a text of a game with so many cells; or gives the number of the first line with a fault, from 1,
// and its fault.
fn read_lines(most: u8, text: &[u8]) -> Result<Draft, (u32, LineFault)>
    requires game { most ≤ 4 }
    requires short { length text.now ≤ 4096 }
    ensures read { IfOk result (IsDraftOf (board_lines text.now)) }
    ensures sound { OnOk result (AreSound most (board_lines text.now)) }
    ensures tally { IfOk result (λ draft. IsTally draft.tally) }
    ensures fault { IfErr result (λ e. IsFirstFault most (board_lines text.now) e.0 e.1) }
{
    let mut draft = Draft::new();
    let mut number = 0;
    for line in (Lines { rest: text }) {
        number += 1;
        if let Err(fault) = draft.add_line(most, without_return(line)) {
            return Err((number, fault));
        }
    }
    Ok(draft)
}
