ghost use Rattle.std.specs.Prelude.{◌≡◌, ◌+◌, ◌≤◌, ◌==◌, ◌&&◌, ◌++◌, cond, length, not, position, slice_index};
ghost use Rattle.std.specs.List.{position_or_len};
ghost use Rattle.fc_text.specs.Line.{is_blank, is_line_end};
ghost use Rattle.fc_typed.specs.Tidy.{is_column_line, is_next_digit, tidy_lines, without_digit, without_label};

use crate::tidy_texts::ROOM;
use arrayvec::ArrayVec;
use fc_text::is_column_line;

/// The text without the numbers of its columns, each where it heads the column line of its number.
pub(crate) fn without_labels(text: &[u8]) -> ArrayVec<u8, ROOM>
    requires room { length text.now ≤ ROOM }
    ensures value { result.items ≡ tidy_lines text.now }
    ensures within { length result.items ≤ length text.now }
{
    let mut tidy = ArrayVec::new();
    let mut columns = 0;
    let mut rest = text;
    while let Some(len) = line_len(rest) {
        columns = push_line(&mut tidy, &rest[..len], columns);
        tidy.push(b'\n');
        rest = &rest[len + 1..];
    }
    push_line(&mut tidy, rest, columns);
    tidy
}

// How many bytes stand before the first LF, if there is one.
pub(crate) fn line_len(text: &[u8]) -> Option<usize>
    ensures { result ≡ position is_line_end text.now }
{
    text.iter().position(|byte| *byte == b'\n')
}

// Pushes a line that so many column lines stand before, without its label; how many stand before the next one.
fn push_line(tidy: &mut ArrayVec<u8, ROOM>, line: &[u8], columns: usize) -> usize
    requires room { length tidy.old.items + length line.now ≤ ROOM }
    requires few { columns ≤ ROOM }
    ensures pushed { tidy.new.items ≡ tidy.old.items
        ++ cond (is_column_line line.now) (without_label columns line.now) line.now }
    ensures within { length tidy.new.items ≤ length tidy.old.items + length line.now }
    ensures count { result ≡ cond (is_column_line line.now) (1 + columns) columns }
    ensures few { result ≤ columns + 1 }
{
    if !is_column_line(line) {
        push_all(tidy, line);
        return columns;
    }
    let (blanks, piece) = line.split_at(blanks_len(line));
    push_all(tidy, blanks);
    push_all(tidy, without_digit(piece, columns));
    columns + 1
}

// How many blanks a line begins with.
pub(crate) fn blanks_len(line: &[u8]) -> usize
    ensures value { result ≡ position_or_len (λ b. not (is_blank b)) line.now }
    ensures within { result ≤ length line.now }
{
    for (i, byte) in line.iter().enumerate() {
        if *byte != b' ' && *byte != b'\t' {
            return i;
        }
    }
    line.len()
}

// The piece of a column line behind its blanks, without the number that is its own where so many columns stand before.
fn without_digit(piece: &[u8], columns: usize) -> &[u8]
    ensures value { result.now ≡ without_digit columns piece.now }
    ensures within { length result.now ≤ length piece.now }
{
    match piece {
        [byte, rest @ ..] if is_label(columns, *byte, rest) => rest,
        _ => piece,
    }
}

// Whether a byte with these behind it is the label of the column that so many columns stand before.
fn is_label(columns: usize, byte: u8, rest: &[u8]) -> bool
    ensures { result ≡ (is_next_digit columns byte && (slice_index rest.now 0 == 58)) }
{
    columns < 8 && byte == b'1' + columns as u8 && rest.starts_with(b":")
}

// Pushes all bytes of a piece.
pub(crate) fn push_all(tidy: &mut ArrayVec<u8, ROOM>, piece: &[u8])
    requires room { length tidy.old.items + length piece.now ≤ ROOM }
    ensures { tidy.new.items ≡ tidy.old.items ++ piece.now }
{
    let _has_room = tidy.try_extend_from_slice(piece);
}
