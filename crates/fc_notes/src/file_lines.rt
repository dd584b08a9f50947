//! The lines of a file, and those that part its boards.

ghost use Rattle.std.specs.Prelude.{◌≡◌, ℕ, ◌+◌, ◌<◌, ◌≤◌, ◌∷◌, ◌++◌, [], cond, length, not, position};
ghost use Rattle.std.specs.Char.{is_ascii_whitespace};
ghost use Rattle.std.specs.List.{position_or_len};
ghost use Rattle.fc_text.specs.Line.{is_line_end};
ghost use Rattle.fc_notes.specs.File.{boards_below, ended_lines, is_blank_text, is_dash, is_rule};
ghost use Rattle.fc_notes.specs.inner.File.{one_board};

/// Whether a text has nothing but blanks.
pub fn is_blank(text: &[u8]) -> bool
    ensures value { result ≡ is_blank_text text.now }
{
    text.iter().all(|byte| byte.is_ascii_whitespace())
}

/// What stands in a text above its first line of dashes, how many lines these are together, and the text below. A text
/// without such a line is all above it.
pub(crate) fn split_part(text: &[u8]) -> (&[u8], usize, &[u8])
    ensures parts { (above : ℕ) → boards_below above text.now
        ≡ one_board above result.0.now ++ boards_below (above + result.1) result.2.now }
    ensures shorter { 0 < length text.now → length result.2.now < length text.now }
    ensures lines { result.1 + length result.2.now ≤ length text.now }
{
    let mut rest = text;
    let mut lines = 0;
    while !rest.is_empty() {
        let (line, below) = split_line(rest);
        lines += 1;
        if is_rule(line) {
            return (&text[..text.len() - rest.len()], lines, below);
        }
        rest = below;
    }
    (text, lines, rest)
}

// Whether a line parts boards: three dashes or more, and blanks.
pub(crate) fn is_rule(line: &[u8]) -> bool
    ensures value { result ≡ is_rule line.now }
{
    let rest = &line[blanks_len(line)..];
    let dashes = dashes_len(rest);
    dashes >= 3 && is_blank(&rest[dashes..])
}

// How many blanks a line begins with.
fn blanks_len(line: &[u8]) -> usize
    ensures value { result ≡ position_or_len (λ b. not (is_ascii_whitespace b)) line.now }
    ensures within { result ≤ length line.now }
{
    for (i, byte) in line.iter().enumerate() {
        if !byte.is_ascii_whitespace() {
            return i;
        }
    }
    line.len()
}

// How many dashes a text begins with.
fn dashes_len(text: &[u8]) -> usize
    ensures value { result ≡ position_or_len (λ b. not (is_dash b)) text.now }
    ensures within { result ≤ length text.now }
{
    for (i, byte) in text.iter().enumerate() {
        if *byte != b'-' {
            return i;
        }
    }
    text.len()
}

// The first line of a text that isn't empty, with the LF that ends it, and the text below it.
pub(crate) fn split_line(text: &[u8]) -> (&[u8], &[u8])
    requires some { 0 < length text.now }
    ensures line { ended_lines text.now ≡ result.0.now ∷ ended_lines result.1.now }
    ensures joined { text.now ≡ result.0.now ++ result.1.now }
    ensures shorter { length result.1.now < length text.now }
{
    match line_len(text) {
        Some(len) => text.split_at(len + 1),
        None => text.split_at(text.len()),
    }
}

// How many bytes stand before the first LF, if there is one.
fn line_len(text: &[u8]) -> Option<usize>
    ensures value { result ≡ position is_line_end text.now }
{
    text.iter().position(|byte| *byte == b'\n')
}
