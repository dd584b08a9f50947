ghost use Rattle.std.specs.Prelude.{◌≡◌, ◌≤◌, length};
ghost use Rattle.fc_row_text.specs.RowText.{are_letters, is_letter_alone, word_at, words_of};
ghost use Rattle.fc_row_text.specs.Places.{is_row_gap};

use fc_text::{Gaps, Tokens};

/// The gaps between words: spaces, tabs and all other control bytes.
#[derive(Debug, Drop)]
struct WordGaps;

impl Gaps for WordGaps {
    ghost gap = { is_row_gap };

    fn is_gap(&self, byte: u8) -> bool {
        is_row_gap(byte)
    }
}

/// Whether a byte parts words.
pub(crate) fn is_row_gap(byte: u8) -> bool
    ensures { result ≡ is_row_gap byte }
{
    byte <= b' '
}

/// The word with this number, from 0; past the last one nothing.
pub(crate) fn word_at(text: &[u8], k: usize) -> &[u8]
    ensures { result.now ≡ word_at k text.now }
{
    let mut left = k;
    for word in Tokens::new(text, WordGaps) {
        if left == 0 {
            return word;
        }
        left -= 1;
    }
    &text[..0]
}

/// How many words a text has.
pub(crate) fn word_count(text: &[u8]) -> usize
    ensures value { result ≡ length (words_of text.now) }
    ensures most { result ≤ length text.now }
{
    let mut count = 0;
    for _ in Tokens::new(text, WordGaps) {
        count += 1;
    }
    count
}

/// Whether the words of a text are these letters, one each.
pub(crate) fn are_letters(text: &[u8], letters: &[u8]) -> bool
    ensures { result ≡ are_letters (words_of text.now) letters.now }
{
    let mut left = letters;
    for word in Tokens::new(text, WordGaps) {
        match left {
            [letter, others @ ..] if is_letter_alone(*letter, word) => left = others,
            _ => return false,
        }
    }
    left.is_empty()
}

/// Whether a word is this letter alone.
pub(crate) fn is_letter_alone(letter: u8, word: &[u8]) -> bool
    ensures { result ≡ is_letter_alone letter word.now }
{
    match word {
        [byte] => *byte == letter,
        _ => false,
    }
}
