ghost use Rattle.std.specs.Prelude.{◌≡◌, ◌≤◌, ◌||◌, ◌&&◌, length, not, position, None, Some, IfNone, IfSome};
ghost use Rattle.std.specs.List.{slice_get};
ghost use Rattle.std.specs.Option.{option_copied};
ghost use Rattle.std.specs.Str.{bytes_eq};
ghost use Rattle.fc_typed.specs.Comment.{is_comment};
ghost use Rattle.fc_typed.specs.Tidy.{without_signs};
ghost use Rattle.fc_typed.specs.Title.{has_token, is_title};
ghost use Rattle.fc_typed.specs.Typed.{is_word_gap, is_made_of, made_word, said_of, typed_lines, typed_word};
ghost use Rattle.fc_typed.specs.inner.Respelled.{respelled_token};

use crate::comments::{is_comment, push_said};
use crate::labels::line_len;
use crate::signs::{after_mark, without_signs};
use crate::tidy_texts::{MOST_BYTES, ROOM};
use crate::titles::{has_token, is_title};
use crate::token_spellings::{Telling, push_token};
use arrayvec::ArrayVec;

/// The piece of a typed text that a word of its tidy text was made of, as a fault quotes it: `2c` for `c-2` of a foundation
/// line, `d7` for `7D` of a column. It is the first such piece between blanks and commas, of the line that became the line
/// with this number, from 1, of the tidy text.
///
/// `None` where there is none, as for a text in UTF-16 and where a label stands right before the piece, and for a text of
/// more than 16,384 bytes.
pub fn typed_word<'a>(text: &'a [u8], number: usize, word: &[u8]) -> Option<&'a [u8]>
    ensures some { IfSome result (λ piece. typed_word text.now number word.now ≡ Some piece.now) }
    ensures none { IfNone result (length text.now ≤ MOST_BYTES → typed_word text.now number word.now ≡ None) }
{
    if text.len() > MOST_BYTES || number == 0 {
        return None;
    }
    let line = typed_line(text, number - 1)?;
    made_word(line, word)
}

// The line of a typed text that the tidy text's line is made of that so many stand before.
fn typed_line(text: &[u8], before: usize) -> Option<&[u8]>
    requires short { length text.now ≤ MOST_BYTES }
    ensures value { option_copied result ≡ slice_get (typed_lines text.now) before }
    ensures within { IfSome result (λ line. length line.now ≤ MOST_BYTES) }
{
    let mut rest = after_mark(text);
    let mut left = before;
    let mut is_top = true;
    while let Some(len) = line_len(rest) {
        let line = &rest[..len];
        let said = said_of(line);
        if !vanishes(line, said.as_slice(), is_top) {
            if left == 0 {
                return Some(line);
            }
            left -= 1;
        }
        is_top = stays_top(said.as_slice(), is_top);
        rest = &rest[len + 1..];
    }
    if left == 0 { Some(rest) } else { None }
}

// What a typed line says.
fn said_of(line: &[u8]) -> ArrayVec<u8, ROOM>
    requires short { length line.now ≤ MOST_BYTES }
    ensures value { result.items ≡ said_of line.now }
{
    let mut said = ArrayVec::new();
    push_said(&mut said, without_signs(line).as_slice());
    said
}

// Whether a line above others vanishes that says this: it has nothing but a comment, or is a title below nothing but blanks.
fn vanishes(line: &[u8], said: &[u8], is_top: bool) -> bool
    requires short { length line.now ≤ MOST_BYTES }
    ensures { result ≡ (is_comment (without_signs 0 line.now) || (is_top && (has_token said.now && is_title said.now))) }
{
    is_comment(without_signs(line).as_slice()) || (is_top && has_token(said) && is_title(said))
}

// Whether nothing but blanks stands above the line below one that says this.
fn stays_top(said: &[u8], is_top: bool) -> bool
    ensures { result ≡ (is_top && not (has_token said.now)) }
{
    is_top && !has_token(said)
}

// The first piece of a line that this word was made of.
fn made_word<'a>(line: &'a [u8], word: &[u8]) -> Option<&'a [u8]>
    requires short { length line.now ≤ MOST_BYTES }
    ensures value { option_copied result ≡ made_word word.now line.now }
{
    let mut rest = line;
    while let Some(len) = piece_len(rest) {
        let piece = &rest[..len];
        if is_made_of(word, piece) {
            return Some(piece);
        }
        rest = &rest[len + 1..];
    }
    if is_made_of(word, rest) {
        Some(rest)
    } else {
        None
    }
}

// How many bytes stand before the first gap, if there is one.
fn piece_len(line: &[u8]) -> Option<usize>
    ensures { result ≡ position is_word_gap line.now }
{
    line.iter().position(|byte| is_word_gap(*byte))
}

// Whether a byte stands between words.
fn is_word_gap(byte: u8) -> bool
    ensures { result ≡ is_word_gap byte }
{
    matches!(byte, b' ' | b'\t' | b',' | b'\r')
}

// Whether the word is what the piece is made, as an entry of a column or a cell, or of a foundation.
fn is_made_of(word: &[u8], piece: &[u8]) -> bool
    requires short { length piece.now ≤ MOST_BYTES }
    ensures { result ≡ is_made_of word.now piece.now }
{
    let spelled = without_signs(piece);
    is_respelled(word, spelled.as_slice(), Telling::Cards)
        || is_respelled(word, spelled.as_slice(), Telling::Homes)
}

// Whether the word is a token as the reader spells it.
fn is_respelled(word: &[u8], token: &[u8], telling: Telling) -> bool
    requires short { length token.now ≤ MOST_BYTES }
    ensures { result ≡ bytes_eq (respelled_token telling token.now) word.now }
{
    let mut made = ArrayVec::new();
    push_token(&mut made, token, telling);
    made.as_slice() == word
}
