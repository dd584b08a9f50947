//! What is said of a board's lengths, and of the other way in which its text may be read.

ghost use Rattle.std.specs.Prelude.{◌≡◌, ◌≢◌, ℕ, ◌<◌, ◌≤◌, ◌↔◌, [], IsTrue, IfSome, IfNone};
ghost use Rattle.fc_position.specs.Board.{Board, column};
ghost use Rattle.fc_text.specs.Board.{Spells};
ghost use Rattle.fc_notes.specs.Length.{AllInColumns, HasSameColumns, IsAsLongAsDeal, IsDealInRows, IsLikeNoDeal, SpellsInRows};
ghost use Rattle.fc_notes.specs.LengthNote.{IsColumnsNote, IsRowsNote, IsReadingNote};

use crate::deal_lengths::{has_all_in_columns, has_lengths_of_deal, lengths_of};
use crate::played_columns::can_be_played_to;
use fc_cards::Card;
use fc_position::Position;
use fc_row_text::columns_of_row_text;
use fc_text::read_board;

/// What is said of a board that was read.
#[derive(Clone, Copy, Debug, PartialEq, Eq)]
pub enum LengthNote {
    /// All its cards stand in columns, which aren't as long as a deal's.
    NotOfDeal {
        /// How many cards each column has.
        lengths: [usize; 8],
        /// Whether the text is as long in its columns as a deal once it is read in rows.
        is_deal_in_rows: bool,
    },
    /// It comes from no deal, and what the text spells when it is read the other way can come from one.
    Other,
    /// Read the other way, the text spells another board, which has a card in column 8, and both or neither can come from a deal.
    Either,
}

/// What is said of a board that a text spells in columns, for a game with so many cells: that its cards all stand in columns that
/// are as long as those of no deal; else that in rows the text spells a board that it may mean.
pub fn note_of_columns(start: &Position, text: &[u8], cells: u8) -> Option<LengthNote>
    requires cells { cells ≤ 4 }
    ensures note { IsColumnsNote cells text.now start.now result }
{
    if is_like_no_deal(start) {
        return Some(LengthNote::NotOfDeal {
            lengths: lengths_of(start),
            is_deal_in_rows: is_deal_in_rows(text, cells),
        });
    }
    let other = board_in_rows(text, cells)?;
    reading_note(start, &other)
}

/// What is said of a board that a text spells in rows, for a game with so many cells: that its cards all stand in columns that
/// are as long as those of no deal; else that in columns the text spells a board that it may mean.
pub fn note_of_rows(start: &Position, text: &[u8], cells: u8) -> Option<LengthNote>
    requires cells { cells ≤ 4 }
    ensures note { IsRowsNote cells text.now start.now result }
{
    if is_like_no_deal(start) {
        return Some(LengthNote::NotOfDeal {
            lengths: lengths_of(start),
            is_deal_in_rows: false,
        });
    }
    match read_board(text, cells) {
        Ok(other) => reading_note(start, &other),
        Err(_) => None,
    }
}

/// Whether a text, read in rows, spells a board with a card in column 8, for a game with so many cells.
pub fn is_board_in_rows(text: &[u8], cells: u8) -> bool
    requires cells { cells ≤ 4 }
    ensures value { IsTrue result ↔ ((b : Board) × SpellsInRows cells text.now b × (column b 7 ≢ [])) }
{
    match board_in_rows(text, cells) {
        Some(other) => has_eighth(&other),
        None => false,
    }
}

/// Whether a board's cards all stand in columns that are as long as a deal's.
pub fn is_like_deal(board: &Position) -> bool
    ensures value { IsTrue result ↔ (AllInColumns board.now × IsAsLongAsDeal board.now) }
{
    has_all_in_columns(board) && has_lengths_of_deal(board)
}

// Whether the text, read in rows, is as long in its columns as a deal.
fn is_deal_in_rows(text: &[u8], cells: u8) -> bool
    requires cells { cells ≤ 4 }
    ensures value { IsTrue result ↔ IsDealInRows cells text.now }
{
    match board_in_rows(text, cells) {
        Some(other) => is_like_deal(&other),
        None => false,
    }
}

// The board that the text, read in rows, spells.
fn board_in_rows(text: &[u8], cells: u8) -> Option<Position>
    requires cells { cells ≤ 4 }
    ensures some { IfSome result (SpellsInRows cells text.now) }
    ensures none { IfNone result ((b : Board) → SpellsInRows cells text.now b → ⊥) }
{
    let Ok(columns) = columns_of_row_text(text) else {
        return None;
    };
    match read_board(columns.bytes(), cells) {
        Ok(board) => Some(board),
        Err(_) => None,
    }
}

// What is said of the board that was taken, beside the one that the text spells when it is read the other way.
fn reading_note(start: &Position, other: &Position) -> Option<LengthNote>
    ensures note { IsReadingNote start.now other.now result }
{
    if has_same_columns(start, other) {
        return None;
    }
    let is_own = can_be_played_to(start);
    let is_others = can_be_played_to(other);
    if is_alike(is_own, is_others) {
        if has_eighth(other) {
            return Some(LengthNote::Either);
        }
        return None;
    }
    if is_others {
        Some(LengthNote::Other)
    } else {
        None
    }
}

// Whether two tests answer alike.
fn is_alike(is_own: bool, is_others: bool) -> bool
    ensures value { IsTrue result ↔ (is_own ≡ is_others) }
{
    is_own == is_others
}

// Whether a board has a card in column 8.
fn has_eighth(board: &Position) -> bool
    ensures value { IsTrue result ↔ (column board.now 7 ≢ []) }
{
    !board.column(7).is_empty()
}

// Whether a board's cards all stand in columns that are as long as those of no deal.
fn is_like_no_deal(board: &Position) -> bool
    ensures value { IsTrue result ↔ IsLikeNoDeal board.now }
{
    has_all_in_columns(board) && !has_lengths_of_deal(board)
}

// Whether two boards have the same columns, each in its place.
fn has_same_columns(start: &Position, other: &Position) -> bool
    ensures value { IsTrue result ↔ HasSameColumns start.now other.now }
{
    for column in 0..8 {
        if !is_same(start.column(column), other.column(column)) {
            return false;
        }
    }
    true
}

// Whether two columns have the same cards, in the same order.
fn is_same(cards: &[Card], other: &[Card]) -> bool
    ensures value { IsTrue result ↔ (cards.now ≡ other.now) }
{
    if cards.len() != other.len() {
        return false;
    }
    for i in 0..cards.len() {
        if cards[i] != other[i] {
            return false;
        }
    }
    true
}
