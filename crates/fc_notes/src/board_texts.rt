//! Boards' texts, and the lines of their files by which their faults are told: comments and titles, which a tidy text hasn't, are
//! counted, and in a list of boards the lines above.

ghost use Rattle.std.specs.Prelude.{◌≡◌};
ghost use Rattle.fc_notes.specs.FileFault.{IsInFile, IsRowInFile};
ghost use Rattle.fc_notes.specs.FileLine.{IsFileLine, is_in_units};

use crate::typed_numbers::typed_number;
use fc_row_text::RowTextFault;
use fc_text::BoardFault;

/// A board's text, made tidy, and as it was typed, or nothing where that has other lines.
#[derive(Clone, Copy, Debug)]
pub struct BoardText<'a> {
    /// Its tidy text.
    pub tidy: &'a [u8],
    /// The text that was typed.
    pub typed: &'a [u8],
    /// How many lines of its file stand above it.
    pub above: u32,
}

/// The number in its file of the line with this number, from 1, of a tidy text.
pub fn file_line(text: &BoardText<'_>, line: u32) -> u32
    ensures number { IsFileLine text.now.typed.now text.now.above line result }
{
    if text.typed.is_empty() {
        return line;
    }
    if is_in_units(text.typed) {
        return line;
    }
    let number = u32::try_from(typed_number(text.typed, line as usize)).unwrap_or(u32::MAX);
    text.above.saturating_add(number)
}

// Whether a text is in units of two bytes, whose lines aren't told apart here.
fn is_in_units(typed: &[u8]) -> bool
    ensures value { result ≡ is_in_units typed.now }
{
    match typed {
        [0xff, 0xfe, ..] | [0xfe, 0xff, ..] => true,
        _ => false,
    }
}

/// The fault of a tidy text, its line told by its number in its file.
pub fn in_file(text: &BoardText<'_>, fault: BoardFault) -> BoardFault
    ensures fault { IsInFile text.now.typed.now text.now.above fault result }
{
    match fault {
        BoardFault::BadCard(line) => BoardFault::BadCard(file_line(text, line)),
        BoardFault::BadFoundation(line) => BoardFault::BadFoundation(file_line(text, line)),
        BoardFault::TooManyCells(line) => BoardFault::TooManyCells(file_line(text, line)),
        BoardFault::TooManyColumns(line) => BoardFault::TooManyColumns(file_line(text, line)),
        BoardFault::RepeatedLine(line) => BoardFault::RepeatedLine(file_line(text, line)),
        BoardFault::TooLong | BoardFault::RepeatedCard(_) | BoardFault::MissingCard(_) => fault,
    }
}

/// The fault of a text in rows, its line told by its number in its file.
pub fn row_in_file(text: &BoardText<'_>, fault: RowTextFault) -> RowTextFault
    ensures fault { IsRowInFile text.now.typed.now text.now.above fault result }
{
    match fault {
        RowTextFault::TooLong => fault,
        RowTextFault::BadHead(line) => RowTextFault::BadHead(file_line(text, line)),
        RowTextFault::OpenRow(line, entry) => RowTextFault::OpenRow(file_line(text, line), entry),
        RowTextFault::LongRow(line) => RowTextFault::LongRow(file_line(text, line)),
        RowTextFault::ShortRow(line) => RowTextFault::ShortRow(file_line(text, line)),
    }
}
