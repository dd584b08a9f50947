ghost use Rattle.std.specs.Prelude.{◌≡◌, ◌≤◌};
ghost use Rattle.fc_row_text.specs.RowText.{entry_at, is_none};
ghost use Rattle.fc_row_text.specs.Lines.{row_line_of};

use crate::row_lines::LineTold;
use crate::row_words::word_at;

/// The entry of a row for this column, from 0.
pub(crate) fn entry_at<'a>(told: &LineTold<'a>, column: usize) -> &'a [u8]
    requires column { column ≤ 7 }
    ensures { result.now ≡ entry_at column (row_line_of told.now) }
{
    match told.reading.entries[column] {
        Some(word) => word_at(told.line, word.number.saturating_sub(1)),
        None => &[],
    }
}

/// Whether an entry stands for no card.
pub(crate) fn is_none(entry: &[u8]) -> bool
    ensures { result ≡ is_none entry.now }
{
    matches!(entry, [] | [b'-' | b'.'] | [b'-', b'-'])
}
