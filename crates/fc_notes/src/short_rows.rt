//! Rows of a text in rows that might be read otherwise.

ghost use Rattle.std.specs.Prelude.{◌↔◌, IsTrue, IfSome, IfNone};
ghost use Rattle.fc_notes.specs.ShortRow.{AreRead, HasEachEntry, IsShortRow};

use fc_row_text::{LineTold, Places, RowLineKind};

/// For which columns the entries of a row were read, where it has fewer than eight of them and no line of numbers tells; `None`
/// for every other line.
pub fn short_row(told: &LineTold<'_>) -> Option<[bool; 8]>
    ensures read { IfSome result (AreRead told.now.reading.entries) }
    ensures some { IfSome result (λ columns. IsShortRow told.now.kind told.now.reading) }
    ensures none { IfNone result (IsShortRow told.now.kind told.now.reading → ⊥) }
{
    let entries = &told.reading.entries;
    if told.kind != RowLineKind::Row {
        return None;
    }
    if told.reading.is_sure {
        return None;
    }
    if is_whole(entries) {
        return None;
    }
    Some(columns_read(entries))
}

// Whether a row has an entry for each column.
fn is_whole(entries: &Places) -> bool
    ensures value { IsTrue result ↔ HasEachEntry entries.now }
{
    for column in 0..8 {
        if entries[column].is_none() {
            return false;
        }
    }
    true
}

// The columns for which a row has an entry.
fn columns_read(entries: &Places) -> [bool; 8]
    ensures value { AreRead entries.now result }
{
    [
        entries[0].is_some(),
        entries[1].is_some(),
        entries[2].is_some(),
        entries[3].is_some(),
        entries[4].is_some(),
        entries[5].is_some(),
        entries[6].is_some(),
        entries[7].is_some(),
    ]
}
