//! Words of the lists that people write: what each of them alone says.

ghost use Rattle.std.specs.Prelude.{◌≡◌, ◌≤◌, length, IfSome, IfNone};
ghost use Rattle.fc_cards.specs.declared.places.Place.{Place};
ghost use Rattle.fc_moves.specs.MoveText.{IsThere, place_letter};
ghost use Rattle.fc_lists.specs.Word.{IsMoveWord, IsNoMoveWord, NamesNoPlace, NamesPlace, after_number, digit_count, ends_number, is_link};

use fc_cards::Place;
use fc_moves::{Move, read_move};
use fc_replay::read_token;

// A word without the number that it begins with, and the point behind that.
pub(crate) fn after_number(word: &[u8]) -> &[u8]
    ensures value { result.now ≡ after_number word.now }
{
    let count = digit_count(word);
    if count == 0 {
        return word;
    }
    match &word[count..] {
        [end, rest @ ..] if ends_number(*end) => rest,
        _ => word,
    }
}

// Whether a byte ends the number of an entry.
fn ends_number(byte: u8) -> bool
    ensures value { result ≡ ends_number byte }
{
    matches!(byte, b'.' | b')' | b':')
}

// How many digits a text begins with.
pub(crate) fn digit_count(text: &[u8]) -> usize
    ensures value { result ≡ digit_count text.now }
    ensures within { result ≤ length text.now }
{
    for (i, byte) in text.iter().enumerate() {
        if !byte.is_ascii_digit() {
            return i;
        }
    }
    text.len()
}

// The move that a word is: two letters, perhaps with a dash or an arrow between.
pub(crate) fn move_of(word: &[u8]) -> Option<Move>
    ensures read { IfSome result (IsMoveWord word.now) }
    ensures refused { IfNone result (IsNoMoveWord word.now) }
{
    match word {
        [from, b'-', to] => read_token(&[*from, *to]),
        [from, b'-', b'>', to] => read_token(&[*from, *to]),
        _ => read_token(word),
    }
}

// Whether a word stands between a card and its place.
pub(crate) fn is_link(word: &[u8]) -> bool
    ensures value { result ≡ is_link word.now }
{
    word == b"to".as_slice() || word == b"->".as_slice() || word == b"-".as_slice()
}

// The place that a word names.
pub(crate) fn named_place(word: &[u8]) -> Option<Place>
    ensures named { IfSome result (NamesPlace word.now) }
    ensures refused { IfNone result (NamesNoPlace word.now) }
{
    if word == b"home".as_slice() {
        return Some(Place::Home);
    }
    match word {
        [letter] => place_of(*letter),
        _ => None,
    }
}

// The place of a letter: a move goes there, from whatever column.
fn place_of(letter: u8) -> Option<Place>
    ensures named { IfSome result (λ place. IsThere place × (place_letter place ≡ letter)) }
    ensures refused { IfNone result ((place : Place) → IsThere place → place_letter place ≡ letter → ⊥) }
{
    match read_move(&[b'1', letter]) {
        Some(m) => Some(m.to),
        None => None,
    }
}
