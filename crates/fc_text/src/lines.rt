ghost use Rattle.std.specs.Prelude.{◌≡◌, map};
ghost use Rattle.std.specs.Option.{option_copied};
ghost use Rattle.fc_text.specs.Line.{after_blanks, after_colon, after_name, begins_with, line_of, without_return, tokens_of};
ghost use Rattle.fc_text.specs.Spelling.{is_column};

use crate::pieces::{Blanks, gap_len};

/// What a line of a board text tells.
#[derive(Clone, Copy, Debug, PartialEq, Eq)]
pub(crate) enum LineKind {
    /// How many cards of each suit are home.
    Foundations,
    /// The cards in the cells.
    Freecells,
    /// The cards of a column.
    Column,
}

// The names that a foundation line begins with.
const FOUNDATION_NAMES: [&[u8]; 6] = [
    b"Foundations:",
    b"Foundation:",
    b"Founds:",
    b"Found:",
    b"Decks:",
    b"Deck:",
];

// The names that a cell line begins with.
const CELL_NAMES: [&[u8]; 3] = [b"Freecells:", b"Freecell:", b"FC:"];

// The line without the CR that may end it.
pub(crate) fn without_return(line: &[u8]) -> &[u8]
    ensures { result.now ≡ without_return line.now }
{
    match line {
        [front @ .., b'\r'] => front,
        _ => line,
    }
}

// The line without the blanks that it begins with.
fn after_blanks(line: &[u8]) -> &[u8]
    ensures { result.now ≡ after_blanks line.now }
{
    &line[gap_len(line, &Blanks)..]
}

// Whether the piece begins with the name, in either case.
fn begins_with(piece: &[u8], name: &[u8]) -> bool
    ensures { result ≡ begins_with piece.now name.now }
{
    let count = piece.len().min(name.len());
    piece[..count].eq_ignore_ascii_case(name)
}

// What follows the first of the names that the piece begins with.
fn after_name<'a>(names: &[&[u8]], piece: &'a [u8]) -> Option<&'a [u8]>
    ensures { option_copied result ≡ after_name (map (λ name. name.now) names.now) piece.now }
{
    for name in names {
        if begins_with(piece, name) {
            return Some(&piece[name.len()..]);
        }
    }
    None
}

/// Whether a line of a board text, with or without the CR that may end it, is a column's: it begins, after blanks, with
/// no name of a foundation or cell line. So a line of blanks alone is.
pub fn is_column_line(line: &[u8]) -> bool
    ensures { result ≡ is_column (line_of (without_return line.now)).kind }
{
    let (kind, _) = sorted_line(without_return(line));
    matches!(kind, LineKind::Column)
}

// What kind of line it is, and the piece of it that its tokens stand in.
pub(crate) fn sorted_line(line: &[u8]) -> (LineKind, &[u8])
    ensures { line_of line.now ≡ record { kind = result.0; tokens = tokens_of result.1.now } }
{
    let rest = after_blanks(line);
    if let Some(piece) = after_name(&FOUNDATION_NAMES, rest) {
        return (LineKind::Foundations, piece);
    }
    if let Some(piece) = after_name(&CELL_NAMES, rest) {
        return (LineKind::Freecells, piece);
    }
    (LineKind::Column, after_colon(rest))
}

// The piece without the one colon that it may begin with.
fn after_colon(piece: &[u8]) -> &[u8]
    ensures { result.now ≡ after_colon piece.now }
{
    match piece {
        [b':', rest @ ..] => rest,
        _ => piece,
    }
}
