//! Where a board's fault lies and what would mend it.

ghost use Rattle.std.specs.Prelude.{◌≡◌, ◌≤◌, ◌↔◌, IsTrue, length};
ghost use Rattle.fc_typed.specs.Typed.{typed_word};
ghost use Rattle.fc_notes.specs.FaultNote.{IsFaultNote, IsMissingNote, IsPlaceOf, IsPlacesNote, IsSamePlace, IsTokenNote};
ghost use Rattle.fc_notes.specs.TokenNote.{are_plain, shown_token};

use crate::board_texts::{BoardText, file_line};
use crate::reasons::{Reason, reason_of};
use arrayvec::ArrayVec;
use fc_cards::Card;
use fc_text::{BoardFault, Spot, first_spot_of, last_spot_of, spot_of};
use fc_typed::{GuessedText, MOST_BYTES, missing_cards, typed_word};

/// Where a token stands: its line by its number in its file, and its own number there, from 1.
#[derive(Clone, Copy, Debug, PartialEq, Eq)]
pub struct TokenPlace {
    /// The number of its line in its file.
    pub line: u32,
    /// Its own number in the line.
    pub place: usize,
}

/// Where a board's fault lies, or what would mend it.
#[derive(Debug, Drop)]
pub enum FaultNote<'a> {
    /// The text has more bytes than a board's may have.
    TooLong,
    /// This line of the file tells again what one above it tells.
    RepeatedLine(u32),
    /// A card stands here that is home.
    AtHome(TokenPlace, Card),
    /// A card stands here and there.
    Twice(TokenPlace, TokenPlace, Card),
    /// With the first line of this text it is a board.
    Guess(GuessedText),
    /// These cards are missing.
    Missing(ArrayVec<Card, 52>),
    /// The fault lies here at this token, as it is shown.
    Token(TokenPlace, &'a [u8], Reason),
}

/// Where the fault of a board's text lies, which was read for a game with so many cells, and why it is one.
pub fn fault_note<'a>(text: &BoardText<'a>, fault: BoardFault, cells: u8) -> Option<FaultNote<'a>>
    requires cells { cells ≤ 4 }
    ensures note { IsFaultNote cells text.now fault result }
{
    match fault {
        BoardFault::TooLong => Some(FaultNote::TooLong),
        BoardFault::RepeatedLine(line) => Some(FaultNote::RepeatedLine(file_line(text, line))),
        BoardFault::RepeatedCard(card) => places_note(text, card),
        BoardFault::MissingCard(_) => Some(missing_note(text.tidy, cells)),
        BoardFault::BadCard(_)
        | BoardFault::BadFoundation(_)
        | BoardFault::TooManyCells(_)
        | BoardFault::TooManyColumns(_) => token_note(text, &fault, cells),
    }
}

// Which cards are missing, or by which foundation line none is.
fn missing_note<'a>(text: &[u8], cells: u8) -> FaultNote<'a>
    requires cells { cells ≤ 4 }
    ensures note { IsMissingNote cells text.now result }
{
    match GuessedText::of(text, cells) {
        Some(guess) => FaultNote::Guess(guess),
        None => FaultNote::Missing(missing_cards(text)),
    }
}

// Where a card stands that has two places or more.
fn places_note<'a>(text: &BoardText<'a>, card: Card) -> Option<FaultNote<'a>>
    ensures note { IsPlacesNote text.now card result }
{
    let first = first_spot_of(text.tidy, card)?;
    let last = last_spot_of(text.tidy, card)?;
    let from = place_of(text, first.line, first.place);
    let to = place_of(text, last.line, last.place);
    if is_same_place(from, to) {
        return Some(FaultNote::AtHome(from, card));
    }
    Some(FaultNote::Twice(from, to, card))
}

// Whether two places are the same.
fn is_same_place(from: TokenPlace, to: TokenPlace) -> bool
    ensures value { IsTrue result ↔ IsSamePlace from to }
{
    from.line == to.line && from.place == to.place
}

// Where a token stands with this number in the line with this number of the tidy text.
fn place_of(text: &BoardText<'_>, line: usize, place: usize) -> TokenPlace
    ensures value { IsPlaceOf text.now line place result }
{
    TokenPlace {
        line: file_line(text, u32::try_from(line).unwrap_or(u32::MAX)),
        place,
    }
}

// Where the fault of a line lies.
fn token_note<'a>(text: &BoardText<'a>, fault: &BoardFault, cells: u8) -> Option<FaultNote<'a>>
    ensures note { IsTokenNote cells text.now fault.now result }
{
    let Spot { line, place, token } = spot_of(text.tidy, cells, *fault)?;
    let reason = reason_of(fault, place, token);
    let shown = token_shown(text.typed, line, token);
    Some(FaultNote::Token(place_of(text, line, place), shown, reason))
}

// A token as it was typed, where that is known and has no signs: a sign of a suit is told by its letter.
fn token_shown<'a>(typed: &'a [u8], line: usize, token: &'a [u8]) -> &'a [u8]
    ensures shown { length typed.now ≤ MOST_BYTES → result.now ≡ shown_token (typed_word typed.now line token.now) token.now }
{
    match typed_word(typed, line, token) {
        Some(word) if are_plain(word) => word,
        _ => token,
    }
}

// Whether all bytes are letters, digits and the like, and none is of a sign.
fn are_plain(word: &[u8]) -> bool
    ensures value { result ≡ are_plain word.now }
{
    word.iter().all(|byte| *byte < 128)
}
