//! Lines of entries in letters: which lines of a text have them, and what they are.

ghost use Rattle.std.specs.Prelude.{◌≡◌, ◌↔◌, ◌+◌, ◌^◌, ◌<◌, ◌≤◌, ◌∷◌, [], ◌++◌, ℕ, List, IfOk, IsTrue, OnOk, length, position};
ghost use Rattle.std.specs.List.{position_or_len};
ghost use Rattle.fc_text.specs.Line.{is_line_end};
ghost use Rattle.fc_replay.specs.Token.{move_tokens};
ghost use Rattle.fc_lists.specs.Alone.{AllTokens, IsInLetters, IsPairText, after_space, ends_entries, is_answer, is_before, is_ruled, letter_lines, letters_alone, letters_at, line_letters, text_lines, without_number};
ghost use Rattle.fc_lists.specs.inner.Spaces.{lines_left, solver_lines, space_len};

use crate::words::digit_count;
use fc_replay::MoveGaps;
use fc_sequences::{print_pair, read_pair};
use fc_text::Tokens;
use std::alloc::{AllocError, Global};

// The lines that have entries, counted from 0.
#[derive(Clone, Copy)]
pub(crate) struct LetterLines {
    pub first: usize,
    // The line behind the last, if there is an end.
    pub end: Option<usize>,
}

// How many bytes stand before the first LF, if there is one.
pub(crate) fn line_len(text: &[u8]) -> Option<usize>
    ensures { result ≡ position is_line_end text.now }
{
    text.iter().position(|byte| *byte == b'\n')
}

// The letters of a line: without white space before them, and the number of the first move.
pub(crate) fn line_letters(line: &[u8]) -> &[u8]
    ensures value { result.now ≡ line_letters line.now }
{
    without_number(after_space(line))
}

// A line without the number that it begins with, a point and a blank.
fn without_number(line: &[u8]) -> &[u8]
    ensures value { result.now ≡ without_number line.now }
{
    let count = digit_count(line);
    if count == 0 {
        return line;
    }
    match &line[count..] {
        [b'.', b' ', letters @ ..] => letters,
        _ => line,
    }
}

// A line without the white space that it begins with.
fn after_space(line: &[u8]) -> &[u8]
    ensures value { result.now ≡ after_space line.now }
{
    &line[space_len(line)..]
}

// How many bytes of white space a line begins with.
fn space_len(line: &[u8]) -> usize
    ensures value { result ≡ space_len line.now }
    ensures within { result ≤ length line.now }
{
    for (i, byte) in line.iter().enumerate() {
        if !byte.is_ascii_whitespace() {
            return i;
        }
    }
    line.len()
}

// Whether a line has entries in small letters alone, as no drawn board has: its cards are in capitals.
pub(crate) fn is_in_letters(line: &[u8]) -> bool
    ensures value { IsTrue result ↔ IsInLetters line.now }
{
    let letters = line_letters(line);
    has_token(letters) && are_pairs(letters)
}

// Whether a text has a token.
fn has_token(text: &[u8]) -> bool
    ensures value { IsTrue result ↔ (0 < length (move_tokens text.now)) }
{
    let mut tokens = Tokens::new(text, MoveGaps);
    tokens.next().is_some()
}

// Whether each token of a text is that of an entry.
fn are_pairs(text: &[u8]) -> bool
    ensures value { IsTrue result ↔ AllTokens IsPairText (move_tokens text.now) }
{
    for token in Tokens::new(text, MoveGaps) {
        if !is_pair_text(token) {
            return false;
        }
    }
    true
}

// Whether a token is the text of an entry.
fn is_pair_text(token: &[u8]) -> bool
    ensures value { IsTrue result ↔ IsPairText token.now }
{
    match read_pair(token) {
        Some(pair) => print_pair(pair).as_slice() == token,
        None => false,
    }
}

// The lines of a text that have entries in letters.
pub(crate) fn letter_lines(text: &[u8], has_sequences: bool) -> LetterLines
    ensures value { result ≡ letter_lines has_sequences text.now }
{
    let first = if is_answer(text) { 1 } else { 0 };
    if has_sequences {
        solver_lines(text, first)
    } else {
        LetterLines { first, end: None }
    }
}

// Whether a text begins as the answer of a board that is won.
fn is_answer(text: &[u8]) -> bool
    ensures value { result ≡ is_answer text.now }
{
    text.starts_with(b"shortest ") || text.starts_with(b"won ")
}

// Whether a solver's entries end before a line.
fn ends_entries(line: &[u8]) -> bool
    ensures value { result ≡ ends_entries line.now }
{
    line.starts_with(b"===") || line.starts_with(b"This game is ")
}

// Whether a line is ruled, as that above a solver's entries.
fn is_ruled(line: &[u8]) -> bool
    ensures value { result ≡ is_ruled line.now }
{
    line.starts_with(b"-=-=")
}

// Whether a line is before the end.
fn is_before(number: usize, end: Option<usize>) -> bool
    ensures value { result ≡ is_before number end }
{
    match end {
        Some(end) => number < end,
        None => true,
    }
}

// Appends the entries of the line of a number.
pub(crate) fn push_letters(
    list: &mut Vec<u8>,
    lines: LetterLines,
    number: usize,
    line: &[u8],
) -> Result<(), AllocError>
    ensures pushed { OnOk result (list.new.items ≡ list.old.items ++ letters_at lines (number, line.now)) }
{
    if lines.first <= number && is_before(number, lines.end) {
        return list.extend_from_slice(line_letters(line));
    }
    Ok(())
}

// The lines with a solver's entries: behind the last ruled one before the end, or else from this one on.
fn solver_lines(text: &[u8], otherwise: usize) -> LetterLines
    ensures value { result ≡ solver_lines otherwise (text_lines text.now) }
{
    let mut first = otherwise;
    let mut number = 0;
    let mut rest = text;
    while let Some(len) = line_len(rest) {
        let line = &rest[..len];
        if ends_entries(line) {
            let end = Some(number);
            return LetterLines { first, end };
        }
        rest = &rest[len + 1..];
        number += 1;
        if is_ruled(line) {
            first = number;
        }
    }
    last_lines(first, number, rest)
}

// The lines with a solver's entries, behind so many lines before the last.
fn last_lines(first: usize, number: usize, last: &[u8]) -> LetterLines
    requires room { number + length last.now < 2 ^ 64 }
    ensures value { result ≡ lines_left first number (last.now ∷ []) }
{
    if ends_entries(last) {
        let end = Some(number);
        return LetterLines { first, end };
    }
    if is_ruled(last) {
        let first = number + 1;
        return LetterLines { first, end: None };
    }
    LetterLines { first, end: None }
}
