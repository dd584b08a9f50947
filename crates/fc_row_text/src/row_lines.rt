ghost use Rattle.std.specs.Prelude.{◌≡◌, ◌<◌, ◌≤◌, ◌∷◌, length};
ghost use Rattle.std.specs.List.{position_or_len};
ghost use Rattle.std.specs.Iterator.{YieldsFirstBy, item_count};
ghost use Rattle.fc_text.specs.Line.{is_line_end, lines_of, parts_of, without_return};
ghost use Rattle.fc_row_text.specs.RowText.{cells_named, head_below, kind_below, line_reading, names_below, own_kind, row_line_below, row_lines, words_of};
ghost use Rattle.fc_row_text.specs.Lines.{lines_left, row_line_of};

use crate::readings::{Places, Reading, are_apart, places_with, reading_of, words_from_first};
use crate::row_words::{are_letters, word_count};
use crate::spans::words_in;
use fc_text::is_column_line;

/// What a line of a text in rows tells.
#[derive(Clone, Copy, Debug, PartialEq, Eq)]
pub enum RowLineKind {
    /// Nothing.
    Blank,
    /// What foundations or cells hold, as the reader reads it.
    Kept,
    /// The numbers of the columns.
    Numbers,
    /// The names of so many cells and of the foundations.
    Names(u8),
    /// What so many cells and the foundations hold.
    Held(u8),
    /// A card of each column, or none.
    Row,
}

/// A line of a text in rows, without what ends it.
#[derive(Debug, Drop)]
pub struct LineTold<'a> {
    /// What it tells.
    pub kind: RowLineKind,
    /// Its bytes.
    pub line: &'a [u8],
    /// How it is read, where it is a row.
    pub reading: Reading,
}

/// The lines of a text, without what ends them, each with what it tells.
#[derive(Debug, Drop)]
pub struct RowLines<'a> {
    rest: &'a [u8],
    names: Option<u8>,
    // Where the numbers of the columns stand.
    head: Places,
    // Where the entries stand that are nearest above.
    above: Places,
}

impl<'a> RowLines<'a> {
    /// The lines of this text.
    pub fn new(text: &'a [u8]) -> RowLines<'a>
        ensures lines { lines_left result ≡ row_lines text.now }
    {
        RowLines {
            rest: text,
            names: None,
            head: [None; 8],
            above: [None; 8],
        }
    }
}

impl<'a> Iterator for RowLines<'a> {
    type Item = LineTold<'a>;

    ghost next_gives = { YieldsFirstBy row_line_of lines_left };

    ghost remaining = { item_count lines_left };

    fn next(&mut self) -> Option<LineTold<'a>> {
        if self.rest.is_empty() {
            return None;
        }
        let (line, rest) = split_line(self.rest);
        let told = told_below(self.names, &self.head, &self.above, line);
        self.rest = rest;
        self.names = names_below(self.names, told.kind);
        self.head = head_below(told.kind, self.head, line);
        self.above = places_with(&told.reading.entries, &self.above);
        Some(told)
    }
}

// A line below these names, numbers and entries.
fn told_below<'a>(names: Option<u8>, head: &Places, above: &Places, line: &'a [u8]) -> LineTold<'a>
    ensures { row_line_of result ≡ row_line_below names head.now above.now line.now }
{
    let kind = kind_below(names, line);
    LineTold {
        kind,
        line,
        reading: line_reading(kind, head, above, line),
    }
}

// How a line is read below these numbers and entries.
fn line_reading(kind: RowLineKind, head: &Places, above: &Places, line: &[u8]) -> Reading
    ensures { result ≡ line_reading kind head.now above.now line.now }
{
    if kind == RowLineKind::Row {
        reading_of(head, above, words_in(line).as_slice())
    } else {
        Reading {
            entries: [None; 8],
            gap: None,
            is_sure: true,
        }
    }
}

// Where the numbers of the columns stand for the lines below this one.
fn head_below(kind: RowLineKind, head: Places, line: &[u8]) -> Places
    ensures { result ≡ head_below kind head line.now }
{
    if kind != RowLineKind::Numbers {
        return head;
    }
    let words = words_in(line);
    if are_apart(words.as_slice()) {
        words_from_first(words.as_slice())
    } else {
        head
    }
}

// The first line of a text that isn't empty, without what ends it, and the text behind it.
fn split_line(text: &[u8]) -> (&[u8], &[u8])
    requires some { 0 < length text.now }
    ensures { lines_of text.now ≡ result.0.now ∷ lines_of result.1.now }
{
    let (line, rest) = text.split_at(line_len(text));
    match rest {
        [_, rest @ ..] => (without_return(line), rest),
        [] => (without_return(line), rest),
    }
}

// How many bytes stand before the first LF.
fn line_len(text: &[u8]) -> usize
    ensures value { result ≡ position_or_len is_line_end text.now }
    ensures within { result ≤ length text.now }
{
    for (i, byte) in text.iter().enumerate() {
        if *byte == b'\n' {
            return i;
        }
    }
    text.len()
}

// The line without the CR that may end it.
fn without_return(line: &[u8]) -> &[u8]
    ensures { result.now ≡ without_return line.now }
{
    match line {
        [front @ .., b'\r'] => front,
        _ => line,
    }
}

// What a line tells below the names of so many cells, if names stand above it.
fn kind_below(names: Option<u8>, line: &[u8]) -> RowLineKind
    ensures { result ≡ kind_below names line.now }
{
    if word_count(line) == 0 {
        return RowLineKind::Blank;
    }
    match names {
        Some(cells) => RowLineKind::Held(cells),
        None => own_kind(line),
    }
}

// What a line tells by itself.
fn own_kind(line: &[u8]) -> RowLineKind
    ensures { result ≡ own_kind line.now }
{
    if !is_column_line(line) {
        return RowLineKind::Kept;
    }
    match cells_named(line) {
        Some(cells) => RowLineKind::Names(cells),
        None if are_letters(line, b"12345678") => RowLineKind::Numbers,
        None => RowLineKind::Row,
    }
}

// How many cells a line names, if it has the names above a drawing.
fn cells_named(line: &[u8]) -> Option<u8>
    ensures { result ≡ cells_named (words_of line.now) }
{
    if are_letters(line, b"CDHS") {
        return Some(0);
    }
    if are_letters(line, b"aCDHS") {
        return Some(1);
    }
    if are_letters(line, b"abCDHS") {
        return Some(2);
    }
    if are_letters(line, b"abcCDHS") {
        return Some(3);
    }
    if are_letters(line, b"abcdCDHS") {
        return Some(4);
    }
    None
}

// The names that stand above the line below one of this kind.
fn names_below(names: Option<u8>, kind: RowLineKind) -> Option<u8>
    ensures { result ≡ names_below names kind }
{
    match kind {
        RowLineKind::Blank => names,
        RowLineKind::Names(cells) => Some(cells),
        _ => None,
    }
}
