//! The numbers of the typed lines that a tidy text's lines are made of: comments and titles, which it hasn't, are counted.

ghost use Rattle.std.specs.Prelude.{◌≡◌, ℕ, ◌+◌, ◌<◌, ◌≤◌, ◌++◌, ◌∷◌, [], IfSome, IfNone, false, length, count_by};
ghost use Rattle.fc_text.specs.Line.{is_line_end};
ghost use Rattle.fc_notes.specs.FileLine.{IsTypedNumber, first_lines, is_in_units, line_count, staying_count};

use crate::file_lines::split_line;
use arrayvec::ArrayVec;
use fc_typed::{MOST_BYTES, TidyText};

/// The number of the typed line that the tidy text's line with this number, from 1, is made of: the first one up to which so many
/// stay.
pub(crate) fn typed_number(typed: &[u8], line: usize) -> usize
    ensures number { length typed.now < MOST_BYTES → is_in_units typed.now ≡ false → 0 < line → IsTypedNumber typed.now line result }
{
    let mut least = 1;
    let mut most = line_count(typed);
    while least < most {
        let middle = least + (most - least) / 2;
        if staying_count(typed, middle) < line {
            least = middle + 1;
        } else {
            most = middle;
        }
    }
    least
}

// How many lines a text has, the one behind its last LF among them.
fn line_count(text: &[u8]) -> usize
    ensures value { result ≡ line_count text.now }
{
    end_count(text) + 1
}

// How many of the first lines, so many of them, stay where another line stands below.
fn staying_count(typed: &[u8], count: usize) -> usize
    ensures value { length typed.now < MOST_BYTES → is_in_units typed.now ≡ false → result ≡ staying_count typed.now count }
{
    let Some(front) = above_dash(first_lines(typed, count)) else {
        return usize::MAX;
    };
    match TidyText::of(front.as_slice()) {
        Some(tidy) => end_count(tidy.bytes()),
        None => usize::MAX,
    }
}

// A text above a line with a dash; `None` where that has no room.
fn above_dash(text: &[u8]) -> Option<ArrayVec<u8, MOST_BYTES>>
    ensures some { IfSome result (λ made. made.items ≡ text.now ++ 45 ∷ []) }
    ensures none { IfNone result (MOST_BYTES ≤ length text.now) }
{
    let mut made = ArrayVec::new();
    if made.try_extend_from_slice(text).is_err() {
        return None;
    }
    if made.try_push(b'-').is_err() {
        return None;
    }
    Some(made)
}

// The first lines of a text, so many, with the LFs that end them.
fn first_lines(text: &[u8], count: usize) -> &[u8]
    ensures value { result.now ≡ first_lines count text.now }
    ensures within { length result.now ≤ length text.now }
{
    let mut rest = text;
    let mut taken = 0;
    while taken < count {
        if rest.is_empty() {
            return text;
        }
        let (_, below) = split_line(rest);
        rest = below;
        taken += 1;
    }
    &text[..text.len() - rest.len()]
}

// How many LFs a text has.
fn end_count(text: &[u8]) -> usize
    ensures value { result ≡ count_by is_line_end text.now }
    ensures within { result ≤ length text.now }
{
    let mut count = 0;
    for byte in text {
        if *byte == b'\n' {
            count += 1;
        }
    }
    count
}
