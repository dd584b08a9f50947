ghost use Rattle.std.specs.Prelude.{◌≡◌, ◌≢◌, ℕ, ◌↔◌, List, [], ◌∷◌, ◌++◌, length, IfSome, IfNone, IsTrue};
ghost use Rattle.fc_text.specs.Board.{IsBoardFault};
ghost use Rattle.fc_text.specs.inner.Board.{line_fault};
ghost use Rattle.fc_text.specs.Line.{Line, board_lines, line_of, tokens_of, without_return};
ghost use Rattle.fc_text.specs.Spelling.{SpellsCard};
ghost use Rattle.fc_text.specs.Spot.{HasCard, HasLine, HasSpelled, IsBadHome, IsBadToken, IsFirstBad, IsFirstIn, IsFirstSpelled, IsFirstSpot, IsLastIn, IsLastSpelled, IsLastSpot, IsSpot, LiesAtNone, NoneIsBad, TellsNowhere};
ghost use Rattle.fc_text.specs.inner.Spot.{AreNoted, AreNamed};

use crate::faults::{BoardFault, LineFault};
use crate::lines::{LineKind, sorted_line, without_return};
use crate::pieces::{Blanks, Lines, Tokens};
use crate::tokens::{read_card, read_cell, read_home};
use fc_cards::Card;

/// Where a token stands in a text: the number of its line, its own number there, both from 1, and its bytes.
#[derive(Clone, Copy, Debug)]
pub struct Spot<'a> {
    pub line: usize,
    pub place: usize,
    pub token: &'a [u8],
}

/// Where the fault of a board text lies that `read_board` gave for a game with so many cells: the first token of the line
/// that is no card or no foundation, or names a suit again; the one past the last cell; the first one past the last column.
/// `None` for a fault that lies at no token.
pub fn spot_of<'a>(text: &'a [u8], cells: u8, fault: BoardFault) -> Option<Spot<'a>>
    ensures spot { IfSome result (λ spot. IsSpot cells text.now fault spot.line spot.place spot.token.now) }
    ensures none { IfNone result (IsBoardFault cells text.now fault → LiesAtNone fault) }
{
    let (number, fault) = line_of_fault(fault)?;
    let line = nth_line(text, number)?;
    let (kind, piece) = sorted_line(without_return(line));
    let (place, token) = first_bad(kind, piece, cells, fault)?;
    Some(Spot {
        line: number as usize,
        place,
        token,
    })
}

// The number of the line that has the fault, and its fault, if a line has it.
fn line_of_fault(fault: BoardFault) -> Option<(u32, LineFault)>
    ensures line { IfSome result (λ line. fault ≡ line_fault line.0 line.1) }
    ensures none { IfNone result (LiesAtNone fault) }
{
    match fault {
        BoardFault::BadCard(number) => Some((number, LineFault::BadCard)),
        BoardFault::BadFoundation(number) => Some((number, LineFault::BadFoundation)),
        BoardFault::TooManyCells(number) => Some((number, LineFault::TooManyCells)),
        BoardFault::TooManyColumns(number) => Some((number, LineFault::TooManyColumns)),
        BoardFault::RepeatedLine(_)
        | BoardFault::TooLong
        | BoardFault::RepeatedCard(_)
        | BoardFault::MissingCard(_) => None,
    }
}

// The line with this number, from 1, with the CR that may end it.
fn nth_line(text: &[u8], number: u32) -> Option<&[u8]>
    ensures line { IfSome result (λ line. HasLine (board_lines text.now) number (line_of (without_return line.now))) }
    ensures none { IfNone result ((line : Line) → HasLine (board_lines text.now) number line → ⊥) }
{
    let mut count = 0;
    for line in (Lines { rest: text }) {
        count += 1;
        if count == number as usize {
            return Some(line);
        }
    }
    None
}

// The first token by which a line has the fault, and its number, from 1.
fn first_bad(kind: LineKind, piece: &[u8], cells: u8, fault: LineFault) -> Option<(usize, &[u8])>
    ensures bad { IfSome result (λ found. IsFirstBad cells fault (record { kind = kind; tokens = tokens_of piece.now }) found.0 found.1.now) }
    ensures none { IfNone result (NoneIsBad cells fault kind (tokens_of piece.now)) }
{
    let mut named = [false; 4];
    let mut place = 0;
    for token in Tokens::new(piece, Blanks) {
        if is_bad(kind, token, place, cells, fault, &mut named) {
            return Some((place + 1, token));
        }
        place += 1;
    }
    None
}

// Whether a token behind so many others has the fault; of foundations, those that were named are noted.
fn is_bad(
    kind: LineKind,
    token: &[u8],
    place: usize,
    cells: u8,
    fault: LineFault,
    named: &mut [bool; 4],
) -> bool
    ensures bad { (before : List (List ℕ)) → place ≡ length before → AreNoted fault kind before named.old
        → (IsTrue result ↔ IsBadToken cells fault kind before token.now) }
    ensures noted { (before : List (List ℕ)) → AreNoted fault kind before named.old
        → (IsTrue result → ⊥) → AreNoted fault kind (before ++ token.now ∷ []) named.new }
{
    match (fault, kind) {
        (LineFault::BadCard, LineKind::Column) => read_card(token).is_none(),
        (LineFault::BadCard, LineKind::Freecells) => read_cell(token).is_none(),
        (LineFault::BadFoundation, LineKind::Foundations) => is_bad_home(token, named),
        (LineFault::TooManyCells, LineKind::Freecells) => place == cells as usize,
        (LineFault::TooManyColumns, LineKind::Column) => place == 0,
        _ => false,
    }
}

// Whether a token tells of no foundation, or of one that was named; else it is noted.
fn is_bad_home(token: &[u8], named: &mut [bool; 4]) -> bool
    ensures bad { (before : List (List ℕ)) → AreNamed before named.old → (IsTrue result ↔ IsBadHome before token.now) }
    ensures noted { (before : List (List ℕ)) → AreNamed before named.old
        → (IsTrue result → ⊥) → AreNamed (before ++ token.now ∷ []) named.new }
{
    let Some((suit, _)) = read_home(token) else {
        return true;
    };
    let index = suit.index() as usize;
    let was_named = named[index];
    named[index] = true;
    was_named
}

/// The first token of a column or a cell that spells the card; `None` where none does.
pub fn first_spot_of<'a>(text: &'a [u8], card: Card) -> Option<Spot<'a>>
    ensures spot { IfSome result (λ spot. IsFirstSpot text.now card spot.line spot.place spot.token.now) }
    ensures none { IfNone result (TellsNowhere text.now card) }
{
    let mut number = 0;
    for line in (Lines { rest: text }) {
        number += 1;
        if let Some((place, token)) = first_in_line(line, card) {
            return Some(Spot {
                line: number,
                place,
                token,
            });
        }
    }
    None
}

/// The last token of a column or a cell that spells the card; `None` where none does.
pub fn last_spot_of<'a>(text: &'a [u8], card: Card) -> Option<Spot<'a>>
    ensures spot { IfSome result (λ spot. IsLastSpot text.now card spot.line spot.place spot.token.now) }
    ensures none { IfNone result (TellsNowhere text.now card) }
{
    let mut number = 0;
    let mut last = None;
    for line in (Lines { rest: text }) {
        number += 1;
        if let Some((place, token)) = last_in_line(line, card) {
            last = Some(Spot {
                line: number,
                place,
                token,
            });
        }
    }
    last
}

// The first token of a line of a column or of cells that spells the card, and its number, from 1.
fn first_in_line(line: &[u8], card: Card) -> Option<(usize, &[u8])>
    ensures first { IfSome result (λ found. IsFirstIn card (line_of (without_return line.now)) found.0 found.1.now) }
    ensures none { IfNone result (HasCard card (line_of (without_return line.now)) → ⊥) }
{
    let piece = dealt_piece(line)?;
    first_spelled(piece, card)
}

// The first token of a piece of a line that spells the card, and its number, from 1.
fn first_spelled(piece: &[u8], card: Card) -> Option<(usize, &[u8])>
    ensures first { IfSome result (λ found. IsFirstSpelled card (tokens_of piece.now) found.0 found.1.now) }
    ensures none { IfNone result (HasSpelled card (tokens_of piece.now) → ⊥) }
{
    let mut place = 0;
    for token in Tokens::new(piece, Blanks) {
        place += 1;
        if spells(token, card) {
            return Some((place, token));
        }
    }
    None
}

// The last token of a line of a column or of cells that spells the card, and its number, from 1.
fn last_in_line(line: &[u8], card: Card) -> Option<(usize, &[u8])>
    ensures last { IfSome result (λ found. IsLastIn card (line_of (without_return line.now)) found.0 found.1.now) }
    ensures none { IfNone result (HasCard card (line_of (without_return line.now)) → ⊥) }
{
    let piece = dealt_piece(line)?;
    last_spelled(piece, card)
}

// The last token of a piece of a line that spells the card, and its number, from 1.
fn last_spelled(piece: &[u8], card: Card) -> Option<(usize, &[u8])>
    ensures last { IfSome result (λ found. IsLastSpelled card (tokens_of piece.now) found.0 found.1.now) }
    ensures none { IfNone result (HasSpelled card (tokens_of piece.now) → ⊥) }
{
    let mut place = 0;
    let mut last = None;
    for token in Tokens::new(piece, Blanks) {
        place += 1;
        if spells(token, card) {
            last = Some((place, token));
        }
    }
    last
}

// The piece of a line of a column or of cells that its tokens stand in.
fn dealt_piece(line: &[u8]) -> Option<&[u8]>
    ensures outside { IfSome result (λ piece. (line_of (without_return line.now)).kind ≢ LineKind.Foundations) }
    ensures piece { IfSome result (λ piece. (line_of (without_return line.now)).tokens ≡ tokens_of piece.now) }
    ensures none { IfNone result ((line_of (without_return line.now)).kind ≡ LineKind.Foundations) }
{
    let (kind, piece) = sorted_line(without_return(line));
    match kind {
        LineKind::Foundations => None,
        LineKind::Freecells | LineKind::Column => Some(piece),
    }
}

// Whether a token spells the card.
fn spells(token: &[u8], card: Card) -> bool
    ensures { IsTrue result ↔ SpellsCard token.now card }
{
    match read_card(token) {
        Some(told) => told == card,
        None => false,
    }
}
