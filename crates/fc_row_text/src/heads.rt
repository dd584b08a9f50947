ghost use Rattle.std.specs.Prelude.{◌≡◌, ◌++◌, ◌∷◌, OnOk, IfErr};
ghost use Rattle.fc_cards.specs.Texts.{with_line_end};
ghost use Rattle.fc_row_text.specs.RowText.{cells_head, has_suit, head_text, home_entry, homes_head};
ghost use Rattle.fc_row_text.specs.inner.RowLine.{IsFull};

use crate::column_texts::{Bytes, push, push_word};
use crate::faults::RowTextFault;
use crate::row_words::{is_letter_alone, word_at};

/// Pushes what so many cells and the foundations of a drawing hold, as the reader reads it.
pub(crate) fn push_head(bytes: &mut Bytes, cells: u8, line: &[u8]) -> Result<(), RowTextFault>
    ensures pushed { OnOk result (bytes.new.items ≡ bytes.old.items ++ head_text cells line.now) }
    ensures full { IfErr result (IsFull bytes.old.items (head_text cells line.now)) }
{
    push_homes(bytes, cells, line)?;
    push_cells(bytes, cells, line)
}

// Pushes the line of the foundations.
fn push_homes(bytes: &mut Bytes, cells: u8, line: &[u8]) -> Result<(), RowTextFault>
    ensures pushed { OnOk result (bytes.new.items ≡ bytes.old.items ++ with_line_end (homes_head cells line.now)) }
    ensures full { IfErr result (IsFull bytes.old.items (with_line_end (homes_head cells line.now))) }
{
    let first = cells as usize;
    push(bytes, b"Foundations:")?;
    push_home(bytes, b'H', word_at(line, first + 2))?;
    push_home(bytes, b'C', word_at(line, first))?;
    push_home(bytes, b'D', word_at(line, first + 1))?;
    push_home(bytes, b'S', word_at(line, first + 3))?;
    push(bytes, b"\n")
}

// Pushes a blank, and how many cards of the suit with this letter are home, from what its foundation holds.
fn push_home(bytes: &mut Bytes, letter: u8, word: &[u8]) -> Result<(), RowTextFault>
    ensures pushed { OnOk result (bytes.new.items ≡ bytes.old.items ++ 32 ∷ home_entry letter word.now) }
    ensures full { IfErr result (IsFull bytes.old.items (32 ∷ home_entry letter word.now)) }
{
    if is_letter_alone(b'-', word) {
        return push_word(bytes, &[letter, b'-', b'0']);
    }
    if !has_suit(letter, word) {
        return push_word(bytes, word);
    }
    push(bytes, &[b' ', letter, b'-'])?;
    push(bytes, &word[..word.len() - 1])
}

// Whether a word ends with this letter of a suit, in either case.
fn has_suit(letter: u8, word: &[u8]) -> bool
    ensures { result ≡ has_suit letter word.now }
{
    match word {
        [.., suit] => suit.to_ascii_uppercase() == letter,
        [] => false,
    }
}

// Pushes the line of the cells.
fn push_cells(bytes: &mut Bytes, cells: u8, line: &[u8]) -> Result<(), RowTextFault>
    ensures pushed { OnOk result (bytes.new.items ≡ bytes.old.items ++ with_line_end (cells_head cells line.now)) }
    ensures full { IfErr result (IsFull bytes.old.items (with_line_end (cells_head cells line.now))) }
{
    push(bytes, b"Freecells:")?;
    for i in 0..cells {
        push_word(bytes, word_at(line, i as usize))?;
    }
    push(bytes, b"\n")
}
