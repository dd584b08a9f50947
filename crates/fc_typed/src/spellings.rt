ghost use Rattle.std.specs.Prelude.{◌≡◌, ◌+◌, ◌*◌, ◌≤◌, ◌==◌, ◌++◌, length, position, drop, [], not};
ghost use Rattle.std.specs.List.{position_or_len};
ghost use Rattle.fc_text.specs.Line.{is_blank, tokens_of, without_return};
ghost use Rattle.fc_typed.specs.Respelled.{after_label, before_piece, each_token, is_dash_alone, line_spelling, respelled_text, respelled_column, respelled_line};
ghost use Rattle.fc_typed.specs.inner.Respelled.{respelled_token};

use crate::labels::{blanks_len, line_len, push_all};
use crate::names::{CELL_NAMES, FOUNDATION_NAMES, after_name};
use crate::tidy_texts::ROOM;
use crate::token_spellings::{Telling, push_token};
use arrayvec::ArrayVec;
use fc_text::{Blanks, Tokens};

/// The text with each token spelled as the reader spells it.
pub(crate) fn respelled_text(text: &[u8]) -> ArrayVec<u8, ROOM>
    requires room { 3 * length text.now ≤ 2 * ROOM }
    ensures value { result.items ≡ respelled_text text.now }
    ensures within { 2 * length result.items ≤ 3 * length text.now }
{
    let mut tidy = ArrayVec::new();
    let mut rest = text;
    while let Some(len) = line_len(rest) {
        push_line(&mut tidy, &rest[..len]);
        tidy.push(b'\n');
        rest = &rest[len + 1..];
    }
    push_line(&mut tidy, rest);
    tidy
}

// Pushes a line as the reader spells it.
fn push_line(tidy: &mut ArrayVec<u8, ROOM>, line: &[u8])
    requires room { 2 * length tidy.old.items + 3 * length line.now ≤ 2 * ROOM }
    ensures pushed { tidy.new.items ≡ tidy.old.items ++ respelled_line line.now }
    ensures within { 2 * length tidy.new.items ≤ 2 * length tidy.old.items + 3 * length line.now }
{
    let body = without_return(line);
    push_body(tidy, body);
    push_all(tidy, &line[body.len()..]);
}

/// The line without the CR that may end it.
pub(crate) fn without_return(line: &[u8]) -> &[u8]
    ensures value { result.now ≡ without_return line.now }
    ensures within { length result.now ≤ length line.now }
{
    match line {
        [front @ .., b'\r'] => front,
        _ => line,
    }
}

// Pushes a line without a CR, by its kind.
#[tactic(auto, using(crate::proofs::SpellingLemmas::spelling_homes))]
fn push_body(tidy: &mut ArrayVec<u8, ROOM>, line: &[u8])
    requires room { 2 * length tidy.old.items + 3 * length line.now ≤ 2 * ROOM }
    ensures pushed { tidy.new.items ≡ tidy.old.items ++ line_spelling line.now }
    ensures within { 2 * length tidy.new.items ≤ 2 * length tidy.old.items + 3 * length line.now }
{
    let rest = &line[blanks_len(line)..];
    if let Some(piece) = after_name(&FOUNDATION_NAMES, rest) {
        return push_piece(tidy, line, piece, Telling::Homes);
    }
    if let Some(piece) = after_name(&CELL_NAMES, rest) {
        return push_piece(tidy, line, piece, Telling::Cards);
    }
    push_column(tidy, line, after_label(rest));
}

/// The piece of a column line behind its label or its colon.
pub(crate) fn after_label(piece: &[u8]) -> &[u8]
    ensures value { result.now ≡ after_label piece.now }
    ensures within { length result.now ≤ length piece.now }
{
    match piece {
        [b'1'..=b'8', b':', rest @ ..] | [b':', rest @ ..] => rest,
        _ => piece,
    }
}

// Pushes a column line that ends with this piece, which is left out where it is a dash alone.
fn push_column(tidy: &mut ArrayVec<u8, ROOM>, line: &[u8], piece: &[u8])
    requires room { 2 * length tidy.old.items + 3 * length line.now ≤ 2 * ROOM }
    requires within { length piece.now ≤ length line.now }
    ensures pushed { tidy.new.items ≡ tidy.old.items ++ (before_piece piece.now line.now ++ respelled_column piece.now) }
    ensures within { 2 * length tidy.new.items ≤ 2 * length tidy.old.items + 3 * length line.now }
{
    if is_dash_alone(piece) {
        push_all(tidy, &line[..line.len() - piece.len()]);
    } else {
        push_piece(tidy, line, piece, Telling::Cards);
    }
}

// Pushes a line that ends with this piece, whose tokens tell this.
fn push_piece(tidy: &mut ArrayVec<u8, ROOM>, line: &[u8], piece: &[u8], telling: Telling)
    requires room { 2 * length tidy.old.items + 3 * length line.now ≤ 2 * ROOM }
    requires within { length piece.now ≤ length line.now }
    ensures pushed { tidy.new.items ≡ tidy.old.items
        ++ (before_piece piece.now line.now ++ each_token (respelled_token telling) [] piece.now) }
    ensures within { 2 * length tidy.new.items ≤ 2 * length tidy.old.items + 3 * length line.now }
{
    push_all(tidy, &line[..line.len() - piece.len()]);
    push_tokens(tidy, piece, telling);
}

// Whether a dash is all that a piece has but for blanks.
fn is_dash_alone(piece: &[u8]) -> bool
    ensures { result ≡ is_dash_alone (tokens_of piece.now) }
{
    let mut tokens = Tokens::new(piece, Blanks);
    let Some([b'-']) = tokens.next() else {
        return false;
    };
    tokens.next().is_none()
}

// Pushes each token of a piece as the reader spells it, and the blanks between them.
fn push_tokens(tidy: &mut ArrayVec<u8, ROOM>, piece: &[u8], telling: Telling)
    requires room { 2 * length tidy.old.items + 3 * length piece.now ≤ 2 * ROOM }
    ensures pushed { tidy.new.items ≡ tidy.old.items ++ each_token (respelled_token telling) [] piece.now }
    ensures within { 2 * length tidy.new.items ≤ 2 * length tidy.old.items + 3 * length piece.now }
{
    let mut rest = piece;
    while let Some(len) = token_len(rest) {
        push_token(tidy, &rest[..len], telling);
        tidy.push(rest[len]);
        rest = &rest[len + 1..];
    }
    push_token(tidy, rest, telling);
}

// How many bytes stand before the first blank, if there is one.
fn token_len(piece: &[u8]) -> Option<usize>
    ensures { result ≡ position is_blank piece.now }
{
    piece
        .iter()
        .position(|byte| *byte == b' ' || *byte == b'\t')
}
