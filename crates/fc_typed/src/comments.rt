ghost use Rattle.std.specs.Prelude.{◌≡◌, ◌+◌, ◌≤◌, ◌∷◌, ◌++◌, [], IfSome, cond, length, map, position};
ghost use Rattle.std.specs.Option.{option_copied};
ghost use Rattle.fc_text.specs.Line.{after_name};
ghost use Rattle.fc_typed.specs.Comment.{before_comment, comma_blank, is_comment, is_comment_mark, more_cell_names, more_home_names, mark_colon, renamed_line, said_line, without_comments};

use crate::labels::{blanks_len, line_len, push_all};
use crate::names::{MORE_CELL_NAMES, MORE_HOME_NAMES, after_name};
use crate::tidy_texts::ROOM;
use arrayvec::ArrayVec;

/// The text without its comments, its cells by a name that the reader knows, and its cards between blanks.
pub(crate) fn without_comments(text: &[u8]) -> ArrayVec<u8, ROOM>
    requires room { length text.now ≤ ROOM }
    ensures value { result.items ≡ without_comments text.now }
    ensures within { length result.items ≤ length text.now }
{
    let mut tidy = ArrayVec::new();
    let mut rest = text;
    while let Some(len) = line_len(rest) {
        push_ended(&mut tidy, &rest[..len]);
        rest = &rest[len + 1..];
    }
    push_said(&mut tidy, rest);
    tidy
}

// Pushes what a line says, and the LF that ends it, unless it has nothing but a comment.
fn push_ended(tidy: &mut ArrayVec<u8, ROOM>, line: &[u8])
    requires room { length tidy.old.items + length line.now + 1 ≤ ROOM }
    ensures pushed { tidy.new.items ≡ tidy.old.items ++ cond (is_comment line.now) [] (said_line line.now ++ 10 ∷ []) }
    ensures within { length tidy.new.items ≤ length tidy.old.items + length line.now + 1 }
{
    if !is_comment(line) {
        push_said(tidy, line);
        tidy.push(b'\n');
    }
}

/// Pushes what a line says.
pub(crate) fn push_said(tidy: &mut ArrayVec<u8, ROOM>, line: &[u8])
    requires room { length tidy.old.items + length line.now ≤ ROOM }
    ensures pushed { tidy.new.items ≡ tidy.old.items ++ said_line line.now }
    ensures within { length tidy.new.items ≤ length tidy.old.items + length line.now }
{
    if !is_comment(line) {
        push_renamed(tidy, before_comment(line));
    }
}

/// Whether a line has nothing but a comment, and blanks before it.
pub(crate) fn is_comment(line: &[u8]) -> bool
    ensures { result ≡ is_comment line.now }
{
    line[blanks_len(line)..].starts_with(b"#")
}

// What stands in a line before its comment.
fn before_comment(line: &[u8]) -> &[u8]
    ensures value { result.now ≡ before_comment line.now }
    ensures within { length result.now ≤ length line.now }
{
    match comment_at(line) {
        Some(len) => &line[..len],
        None => line,
    }
}

// How many bytes stand before the comment of a line, if it has one.
fn comment_at(line: &[u8]) -> Option<usize>
    ensures { result ≡ position is_comment_mark line.now }
{
    line.iter().position(|byte| *byte == b'#')
}

// Pushes a line without a comment, under a name that the reader knows.
fn push_renamed(tidy: &mut ArrayVec<u8, ROOM>, line: &[u8])
    requires room { length tidy.old.items + length line.now ≤ ROOM }
    ensures pushed { tidy.new.items ≡ tidy.old.items ++ renamed_line line.now }
    ensures within { length tidy.new.items ≤ length tidy.old.items + length line.now }
{
    let (blanks, rest) = line.split_at(blanks_len(line));
    if let Some(piece) = after_cell_name(rest) {
        push_all(tidy, blanks);
        push_all(tidy, b"FC:");
        return push_spaced(tidy, piece);
    }
    if let Some(piece) = after_home_name(rest) {
        push_all(tidy, blanks);
        push_all(tidy, b"Deck:");
        return push_spaced(tidy, piece);
    }
    push_spaced(tidy, blanks);
    push_numbered(tidy, rest);
}

// What follows a further name of the cells, if the piece begins with one.
fn after_cell_name(piece: &[u8]) -> Option<&[u8]>
    ensures value { option_copied result ≡ after_name more_cell_names piece.now }
    ensures shorter { IfSome result (λ rest. 3 + length rest.now ≤ length piece.now) }
{
    after_name(&MORE_CELL_NAMES, piece)
}

// What follows a further name of the foundations, if the piece begins with one.
fn after_home_name(piece: &[u8]) -> Option<&[u8]>
    ensures value { option_copied result ≡ after_name more_home_names piece.now }
    ensures shorter { IfSome result (λ rest. 5 + length rest.now ≤ length piece.now) }
{
    after_name(&MORE_HOME_NAMES, piece)
}

// Pushes a piece with a colon behind the number that it may begin with, and blanks for its commas.
fn push_numbered(tidy: &mut ArrayVec<u8, ROOM>, piece: &[u8])
    requires room { length tidy.old.items + length piece.now ≤ ROOM }
    ensures pushed { tidy.new.items ≡ tidy.old.items ++ map comma_blank (mark_colon piece.now) }
    ensures within { length tidy.new.items ≤ length tidy.old.items + length piece.now }
{
    match piece {
        [number @ b'1'..=b'8', b'.' | b')', rest @ ..] => {
            push_all(tidy, &[*number, b':']);
            push_spaced(tidy, rest);
        }
        _ => push_spaced(tidy, piece),
    }
}

// Pushes a piece with blanks for its commas.
fn push_spaced(tidy: &mut ArrayVec<u8, ROOM>, piece: &[u8])
    requires room { length tidy.old.items + length piece.now ≤ ROOM }
    ensures pushed { tidy.new.items ≡ tidy.old.items ++ map comma_blank piece.now }
    ensures within { length tidy.new.items ≤ length tidy.old.items + length piece.now }
{
    for byte in piece {
        tidy.push(comma_blank(*byte));
    }
}

// A blank for a comma, and any other byte as it is.
fn comma_blank(byte: u8) -> u8
    ensures { result ≡ comma_blank byte }
{
    if byte == b',' { b' ' } else { byte }
}
