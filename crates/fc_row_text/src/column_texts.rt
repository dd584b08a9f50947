ghost use Rattle.std.specs.Prelude.{◌≡◌, ◌≤◌, ◌++◌, ◌∷◌, Some, None, length, IfOk, OnOk, IfErr};
ghost use Rattle.fc_row_text.specs.RowText.{text_in_columns, row_text_fault};
ghost use Rattle.fc_row_text.specs.inner.RowLine.{IsFull};

use crate::column_lines::{push_columns, push_front};
use crate::faults::RowTextFault;
use crate::row_checks::check_lines;
use arrayvec::ArrayVec;
use std::marker::Model;

/// The most bytes that a text in rows may have, and the text in columns for which it stands. The reader of board texts takes
/// at most 4,096.
pub const MOST_BYTES: usize = 16_384;

/// The bytes of a text that is put together.
pub(crate) type Bytes = ArrayVec<u8, MOST_BYTES>;

/// A board text in columns that was made from one in rows, seen by contracts as its bytes.
#[derive(Debug, Drop)]
pub struct ColumnText {
    bytes: Bytes,
}

impl Model for ColumnText {
    ghost use Rattle.std.specs.Prelude.{ℕ, List};

    ghost Value = { List ℕ };

    ghost view = { λ s. s.bytes.items };
}

impl ColumnText {
    /// Its bytes, at most 16,384.
    pub fn bytes(&self) -> &[u8]
        ensures value { result.now ≡ self.now }
        ensures most { length result.now ≤ MOST_BYTES }
    {
        self.bytes.as_slice()
    }
}

/// The text in columns that a text in rows stands for: what its lines say of foundations and cells, and then a line for each
/// of the eight columns.
///
/// The deepest cards stand in the first row; an entry of `--`, `-` or `.` is no card. A row of eight entries has one for each
/// column. One of fewer is read under the numbers of the columns, where these stand three places or more apart: a column's entry
/// is the first of its row that shares a place with the number, and these are all of the row, in their order. Else they are those
/// of the columns from the first on, where no gap is between them, and else are read so under the entries nearest above. A gap
/// has room for another entry: four blanks or two tabs. It stands before the first entry too, where that doesn't share a place
/// with column 1's. A column that a row leaves out has no card in a row below.
///
/// Foundation and cell lines stay as they are; blank lines and the numbers of the columns say nothing else. Names as a drawing
/// has them, the first few of `a b c d` for the cells and `C D H S`, say that the next line that isn't blank has what these
/// hold. Lines are ended by LF or CR LF, entries parted by spaces, tabs and all other control bytes. Entries are handed on as
/// they are: the reader says what is wrong with one that is no card.
///
/// # Errors
/// `TooLong` for a text of more than 16,384 bytes; then the first line that is at fault: a row is, where a gap leaves open which
/// columns its entries are those of, where it has a card in a column that a row above leaves out (the first such row is told),
/// and where it has more than eight entries; then `TooLong` where the text in columns would have more than 16,384 bytes.
pub fn columns_of_row_text(text: &[u8]) -> Result<ColumnText, RowTextFault>
    ensures value { IfOk result (λ columns. columns ≡ text_in_columns text.now) }
    ensures sound { OnOk result (row_text_fault text.now ≡ None) }
    ensures fault { IfErr result (λ fault. row_text_fault text.now ≡ Some fault) }
{
    if text.len() > MOST_BYTES {
        return Err(RowTextFault::TooLong);
    }
    check_lines(text)?;
    let mut bytes = ArrayVec::new();
    push_front(&mut bytes, text)?;
    push_columns(&mut bytes, text)?;
    Ok(ColumnText { bytes })
}

// Pushes a piece of a text.
pub(crate) fn push(bytes: &mut Bytes, piece: &[u8]) -> Result<(), RowTextFault>
    ensures pushed { OnOk result (bytes.new.items ≡ bytes.old.items ++ piece.now) }
    ensures within { OnOk result (length bytes.new.items ≤ MOST_BYTES) }
    ensures full { IfErr result (IsFull bytes.old.items piece.now) }
{
    match bytes.try_extend_from_slice(piece) {
        Ok(()) => Ok(()),
        Err(_) => Err(RowTextFault::TooLong),
    }
}

// Pushes a blank and a word.
pub(crate) fn push_word(bytes: &mut Bytes, word: &[u8]) -> Result<(), RowTextFault>
    ensures pushed { OnOk result (bytes.new.items ≡ bytes.old.items ++ 32 ∷ word.now) }
    ensures full { IfErr result (IsFull bytes.old.items (32 ∷ word.now)) }
{
    push(bytes, b" ")?;
    push(bytes, word)
}
