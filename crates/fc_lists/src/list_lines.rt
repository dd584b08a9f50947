//! Lists of moves as programs print them: on each line its entries alone, so that the lines keep their numbers.

ghost use Rattle.std.specs.Prelude.{◌≡◌, ◌↔◌, ◌<◌, ◌∷◌, ◌++◌, [], ℕ, List, IfOk, IsTrue, OnOk};
ghost use Rattle.std.specs.List.{join_with_byte};
ghost use Rattle.fc_sequences.specs.Pair.{hexadecimal};
ghost use Rattle.fc_lists.specs.Alone.{AreAlone, AreOnLines, AreSaid, AreWorded, IsSaid, IsSaidLine, IsSaidText, IsWorded, IsWordedLine, begins_saying, letters_alone, text_lines, told_text};
ghost use Rattle.fc_lists.specs.inner.Form.{IsLineEntry};

use crate::letter_lines::{
    LetterLines, is_in_letters, letter_lines, line_len, line_letters, push_letters,
};
use crate::told_entries::{ToldEntry, said_entry, told_entry};
use fc_sequences::print_pair;
use std::alloc::{AllocError, Global};

// How the lines of a text tell entries in words: as Freecell Solver does, or as the program does; and whether an entry may move
// several cards.
#[derive(Clone, Copy)]
pub(crate) enum Form {
    Sayings,
    InWords(bool),
}

/// The entries of a list, each on the line of the text where it stands; whether they may move several cards. Where lines of
/// the text tell moves in words, of the others those have entries that are entries in small letters, and nothing else.
///
/// # Errors
/// Want of memory.
pub fn entries_alone(alloc: Global, text: &[u8], has_sequences: bool) -> Result<Vec<u8>, AllocError>
    ensures alone { IfOk result (λ list. AreAlone has_sequences text.now list.items) }
{
    if is_said_text(text, has_sequences) {
        return told_alone(alloc, text, Form::Sayings);
    }
    if is_worded_text(text) {
        return told_alone(alloc, text, Form::InWords(has_sequences));
    }
    letters_alone(alloc, text, letter_lines(text, has_sequences))
}

// The entries of a text in letters, each on its line.
fn letters_alone(alloc: Global, text: &[u8], lines: LetterLines) -> Result<Vec<u8>, AllocError>
    ensures alone { IfOk result (λ list. list.items ≡ letters_alone lines text.now) }
{
    let mut list = Vec::new(alloc);
    let mut number = 0;
    let mut rest = text;
    while let Some(len) = line_len(rest) {
        push_letters(&mut list, lines, number, &rest[..len])?;
        list.push(b'\n')?;
        number += 1;
        rest = &rest[len + 1..];
    }
    push_letters(&mut list, lines, number, rest)?;
    Ok(list)
}

// The entries of a text that tells them in words, each on its line.
fn told_alone(alloc: Global, text: &[u8], form: Form) -> Result<Vec<u8>, AllocError>
    ensures alone { IfOk result (λ list. AreOnLines (IsLineEntry form) text.now list.items) }
{
    let mut list = Vec::new(alloc);
    let mut rest = text;
    while let Some(len) = line_len(rest) {
        push_entry(&mut list, form, &rest[..len])?;
        list.push(b'\n')?;
        rest = &rest[len + 1..];
    }
    push_entry(&mut list, form, rest)?;
    Ok(list)
}

// Appends the entry of a line.
fn push_entry(list: &mut Vec<u8>, form: Form, line: &[u8]) -> Result<(), AllocError>
    ensures pushed { OnOk result ((own : List ℕ) × IsLineEntry form line.now own × (list.new.items ≡ list.old.items ++ own)) }
{
    match form {
        Form::Sayings => push_saying(list, line),
        Form::InWords(has_sequences) => push_worded(list, line, has_sequences),
    }
}

// Appends the entry that a line tells as Freecell Solver does, or what it begins with, which is no entry.
fn push_saying(list: &mut Vec<u8>, line: &[u8]) -> Result<(), AllocError>
    ensures pushed { OnOk result ((own : List ℕ) × IsSaidLine line.now own × (list.new.items ≡ list.old.items ++ own)) }
{
    if !begins_saying(line) {
        return Ok(());
    }
    match said_entry(line) {
        Some(pair) => list.extend_from_slice(&print_pair(pair)),
        None => list.extend_from_slice(b"Move"),
    }
}

// Appends the entry that a line tells in words, or those in letters that it has.
fn push_worded(list: &mut Vec<u8>, line: &[u8], has_sequences: bool) -> Result<(), AllocError>
    ensures pushed { OnOk result ((own : List ℕ) × IsWordedLine has_sequences line.now own × (list.new.items ≡ list.old.items ++ own)) }
{
    if let Some(told) = told_entry(line) {
        return push_told(list, told, has_sequences);
    }
    if is_in_letters(line) {
        return list.extend_from_slice(line_letters(line));
    }
    Ok(())
}

// Appends an entry that a line tells in words: with how many cards it moves where that isn't plain, as a single card's number
// isn't where an entry may move several.
fn push_told(list: &mut Vec<u8>, told: ToldEntry, has_sequences: bool) -> Result<(), AllocError>
    requires few { told.count < 14 }
    ensures pushed { OnOk result (list.new.items ≡ list.old.items ++ told_text has_sequences told) }
{
    if told.count == 1 && !has_sequences {
        return list.extend_from_slice(&[told.from, told.to]);
    }
    list.extend_from_slice(&[told.from, told.to, b'v', count_digit(told.count)])
}

// How many cards are moved, in hexadecimal.
fn count_digit(count: u8) -> u8
    requires few { count < 14 }
    ensures value { result ≡ hexadecimal count }
{
    if count < 10 {
        b'0' + count
    } else {
        b'a' + (count - 10)
    }
}

// Whether Freecell Solver tells the entries of a text, as it may where an entry may move several cards.
fn is_said_text(text: &[u8], has_sequences: bool) -> bool
    ensures value { IsTrue result ↔ IsSaidText has_sequences text.now }
{
    has_sequences && are_said(text)
}

// Whether the first line that begins as Freecell Solver's do tells an entry.
fn are_said(text: &[u8]) -> bool
    ensures value { IsTrue result ↔ AreSaid (text_lines text.now) }
{
    let mut rest = text;
    while let Some(len) = line_len(rest) {
        let line = &rest[..len];
        if begins_saying(line) {
            return is_said(line);
        }
        rest = &rest[len + 1..];
    }
    begins_saying(rest) && is_said(rest)
}

// Whether a line begins as those do by which Freecell Solver tells an entry.
fn begins_saying(line: &[u8]) -> bool
    ensures value { result ≡ begins_saying line.now }
{
    line.starts_with(b"Move")
}

// Whether a line tells an entry as Freecell Solver does.
fn is_said(line: &[u8]) -> bool
    ensures value { IsTrue result ↔ IsSaid line.now }
{
    said_entry(line).is_some()
}

// Whether some line of a text tells an entry in words.
fn is_worded_text(text: &[u8]) -> bool
    ensures value { IsTrue result ↔ AreWorded (text_lines text.now) }
{
    let mut rest = text;
    while let Some(len) = line_len(rest) {
        if is_worded(&rest[..len]) {
            return true;
        }
        rest = &rest[len + 1..];
    }
    is_worded(rest)
}

// Whether a line tells an entry in words.
fn is_worded(line: &[u8]) -> bool
    ensures value { IsTrue result ↔ IsWorded line.now }
{
    told_entry(line).is_some()
}
