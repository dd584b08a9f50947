ghost use Rattle.std.specs.Prelude.{◌≡◌, ℕ, List, ◌≤◌, Some, None, length, IfNone, IfSome};
ghost use Rattle.std.specs.List.{slice_split};
ghost use Rattle.std.specs.Option.{option_copied};
ghost use Rattle.fc_text.specs.Line.{is_line_end, tokens_of};
ghost use Rattle.fc_typed.specs.Tidy.{left_title};
ghost use Rattle.fc_typed.specs.Title.{any_token, are_title, begins_word, has_token, has_word, is_board_token, is_letter, is_none_sign, is_title, title_in, without_title};

use crate::labels::{blanks_len, line_len, push_all};
use crate::spellings::{after_label, without_return};
use crate::tidy_texts::{MOST_BYTES, ROOM, said_text};
use crate::token_spellings::card_parts;
use arrayvec::ArrayVec;
use fc_text::{Blanks, Tokens, is_column_line};
use std::marker::Model;

/// The title that was left out of a text, seen by contracts as its bytes.
#[derive(Debug, Drop)]
pub struct Title {
    bytes: ArrayVec<u8, ROOM>,
}

impl Model for Title {
    ghost use Rattle.std.specs.Prelude.{ℕ, List};

    ghost Value = { List ℕ };

    ghost view = { λ s. s.bytes.items };
}

impl Title {
    /// The title that `TidyText::of` leaves out of a text: its first line that has more than blanks and a comment, where a
    /// token has four letters in a row, none is a card, `-`, `--`, `*` or `.`, and another line stands below. Signs are
    /// replaced, and its comment is left out.
    ///
    /// `None` where it leaves out none, and for a text of more than 16,384 bytes.
    pub fn of(text: &[u8]) -> Option<Title>
        ensures some { IfSome result (λ title. left_title text.now ≡ Some title) }
        ensures none { IfNone result (length text.now ≤ MOST_BYTES → left_title text.now ≡ None) }
    {
        if text.len() > MOST_BYTES {
            return None;
        }
        let said = said_text(text);
        let title = title_of(said.as_slice())?;
        let mut bytes = ArrayVec::new();
        push_all(&mut bytes, title);
        Some(Title { bytes })
    }

    /// Its bytes.
    pub fn bytes(&self) -> &[u8]
        ensures value { result.now ≡ self.now }
    {
        self.bytes.as_slice()
    }
}

/// The text without its title.
pub(crate) fn without_title(text: &[u8]) -> ArrayVec<u8, ROOM>
    requires room { length text.now ≤ ROOM }
    ensures value { result.items ≡ without_title text.now }
    ensures within { length result.items ≤ length text.now }
{
    let mut tidy = ArrayVec::new();
    let mut rest = text;
    while let Some(len) = line_len(rest) {
        let (line, behind) = (&rest[..len], &rest[len + 1..]);
        if has_token(line) {
            if is_title(line) {
                push_all(&mut tidy, behind);
            } else {
                push_all(&mut tidy, rest);
            }
            return tidy;
        }
        push_all(&mut tidy, line);
        tidy.push(b'\n');
        rest = behind;
    }
    push_all(&mut tidy, rest);
    tidy
}

// The title of a text, if it has one.
fn title_of(text: &[u8]) -> Option<&[u8]>
    ensures value { option_copied result ≡ title_in (slice_split is_line_end text.now) }
    ensures within { IfSome result (λ title. length title.now ≤ length text.now) }
{
    let mut rest = text;
    while let Some(len) = line_len(rest) {
        let line = &rest[..len];
        if has_token(line) {
            if is_title(line) {
                return Some(line);
            }
            return None;
        }
        rest = &rest[len + 1..];
    }
    None
}

/// Whether a line has more than blanks.
pub(crate) fn has_token(line: &[u8]) -> bool
    ensures { result ≡ has_token line.now }
{
    let body = without_return(line);
    blanks_len(body) < body.len()
}

/// Whether a line is a title.
pub(crate) fn is_title(line: &[u8]) -> bool
    ensures { result ≡ is_title line.now }
{
    let body = without_return(line);
    is_column_line(line) && are_title(after_label(&body[blanks_len(body)..]))
}

// Whether the tokens of a piece are a title's.
fn are_title(piece: &[u8]) -> bool
    ensures { result ≡ are_title (tokens_of piece.now) }
{
    has_worded_token(piece) && !has_board_token(piece)
}

// Whether one of the tokens of a piece has a word.
fn has_worded_token(piece: &[u8]) -> bool
    ensures { result ≡ any_token has_word (tokens_of piece.now) }
{
    for token in Tokens::new(piece, Blanks) {
        if has_word(token) {
            return true;
        }
    }
    false
}

// Whether one of the tokens of a piece may stand in a column.
fn has_board_token(piece: &[u8]) -> bool
    ensures { result ≡ any_token is_board_token (tokens_of piece.now) }
{
    for token in Tokens::new(piece, Blanks) {
        if is_board_token(token) {
            return true;
        }
    }
    false
}

// Whether a token has a word.
fn has_word(token: &[u8]) -> bool
    ensures { result ≡ has_word token.now }
{
    let mut rest = token;
    while let [_, others @ ..] = rest {
        if begins_word(rest) {
            return true;
        }
        rest = others;
    }
    false
}

// Whether a text begins with a word.
fn begins_word(text: &[u8]) -> bool
    ensures { result ≡ begins_word text.now }
{
    match text {
        [a, b, c, d, ..] => is_letter(*a) && is_letter(*b) && is_letter(*c) && is_letter(*d),
        _ => false,
    }
}

// Whether a byte is a letter, in either case.
fn is_letter(byte: u8) -> bool
    ensures { result ≡ is_letter byte }
{
    matches!(byte, b'A'..=b'Z' | b'a'..=b'z')
}

// Whether a token may stand in a column.
fn is_board_token(token: &[u8]) -> bool
    ensures { result ≡ is_board_token token.now }
{
    card_parts(token).is_some() || is_none_sign(token)
}

// Whether a token is a sign for no card.
fn is_none_sign(token: &[u8]) -> bool
    ensures { result ≡ is_none_sign token.now }
{
    matches!(token, [b'-' | b'*' | b'.'] | [b'-', b'-'])
}
