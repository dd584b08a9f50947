ghost use Rattle.std.specs.Prelude.{ℕ, ◌≤◌, ◌↔◌, IsTrue};
ghost use Rattle.fc_cards.specs.Card.{rank};
ghost use Rattle.fc_cards.specs.Texts.{IsRank, IsRankText};
ghost use Rattle.fc_text.specs.Line.{board_lines, line_of, tokens_of, without_return};
ghost use Rattle.fc_text.specs.Spot.{TellsNowhere};
ghost use Rattle.fc_typed.specs.Guess.{AnyTellsHome, AreMissing, IsMissing, TellsHome, TellsHomeIn, TokenTellsHome};

use crate::labels::{blanks_len, line_len};
use crate::names::{FOUNDATION_NAMES, after_name};
use crate::spellings::without_return;
use arrayvec::ArrayVec;
use fc_cards::{Card, read_rank};
use fc_text::{Blanks, Tokens, first_spot_of};

/// The cards that a tidy text lacks, by rising number: those that stand in no column and no cell, and of which no
/// foundation line tells that they are home. Of a text whose fault is a missing card these are all of them.
pub fn missing_cards(text: &[u8]) -> ArrayVec<Card, 52>
    ensures { AreMissing text.now result.items }
{
    let mut cards = ArrayVec::new();
    for index in 0..52 {
        let card = Card::from_index(index).unwrap();
        if is_missing(text, card) {
            cards.push(card);
        }
    }
    cards
}

// Whether a card stands in no column and no cell, and no foundation line tells that it is home.
fn is_missing(text: &[u8], card: Card) -> bool
    ensures { IsTrue result ↔ IsMissing text.now card }
{
    stands_nowhere(text, card) && !is_told_home(text, card)
}

/// Whether no column and no cell has the card.
pub(crate) fn stands_nowhere(text: &[u8], card: Card) -> bool
    ensures { IsTrue result ↔ TellsNowhere text.now card }
{
    first_spot_of(text, card).is_none()
}

// Whether a foundation line tells that the card is home.
fn is_told_home(text: &[u8], card: Card) -> bool
    ensures { IsTrue result ↔ TellsHomeIn card (board_lines text.now) }
{
    let mut rest = text;
    while let Some(len) = line_len(rest) {
        if line_tells_home(&rest[..len], card) {
            return true;
        }
        rest = &rest[len + 1..];
    }
    line_tells_home(rest, card)
}

// Whether a line is a foundation line that tells that the card is home.
fn line_tells_home(line: &[u8], card: Card) -> bool
    ensures { IsTrue result ↔ TellsHome card (line_of (without_return line.now)) }
{
    let body = without_return(line);
    let rest = &body[blanks_len(body)..];
    match after_name(&FOUNDATION_NAMES, rest) {
        Some(piece) => piece_tells_home(piece, card),
        None => false,
    }
}

// Whether a token of a foundation line tells that the card is home.
fn piece_tells_home(piece: &[u8], card: Card) -> bool
    ensures { IsTrue result ↔ AnyTellsHome card (tokens_of piece.now) }
{
    for token in Tokens::new(piece, Blanks) {
        if token_tells_home(token, card) {
            return true;
        }
    }
    false
}

// Whether a token tells so many cards of the card's suit that it is one of them.
fn token_tells_home(token: &[u8], card: Card) -> bool
    ensures { IsTrue result ↔ TokenTellsHome card token.now }
{
    match token {
        [suit, b'-', rank @ ..] => {
            suit.to_ascii_uppercase() == card.suit().letter() && is_enough(rank, card)
        }
        _ => false,
    }
}

// Whether a text is a rank's from the card's own on.
fn is_enough(text: &[u8], card: Card) -> bool
    ensures { IsTrue result ↔ ((n : ℕ) × IsRank n × IsRankText n text.now × (rank card ≤ n)) }
{
    match read_rank(text) {
        Some(rank) => card.rank() <= rank,
        None => false,
    }
}
