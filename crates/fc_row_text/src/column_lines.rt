ghost use Rattle.std.specs.Prelude.{◌≡◌, ◌++◌, ◌≤◌, length, OnOk, IfErr};
ghost use Rattle.std.specs.List.{flat_map};
ghost use Rattle.fc_cards.specs.Texts.{with_line_end};
ghost use Rattle.fc_row_text.specs.RowText.{line_of_column, columns_text, front_text, entry_text_at, row_lines};
ghost use Rattle.fc_row_text.specs.inner.RowLine.{IsFull};
ghost use Rattle.fc_row_text.specs.Lines.{row_line_of};

use crate::column_texts::{Bytes, MOST_BYTES, push, push_word};
use crate::faults::RowTextFault;
use crate::heads::push_head;
use crate::row_entries::{entry_at, is_none};
use crate::row_lines::{LineTold, RowLineKind, RowLines};

/// Pushes what stands before the columns: the lines that are kept, and what cells and foundations hold.
pub(crate) fn push_front(bytes: &mut Bytes, text: &[u8]) -> Result<(), RowTextFault>
    ensures pushed { OnOk result (bytes.new.items ≡ bytes.old.items ++ flat_map front_text (row_lines text.now)) }
    ensures full { IfErr result (IsFull bytes.old.items (flat_map front_text (row_lines text.now))) }
{
    for told in RowLines::new(text) {
        push_row_line(bytes, &told)?;
    }
    Ok(())
}

// Pushes what a line tells that stands before the columns.
fn push_row_line(bytes: &mut Bytes, told: &LineTold) -> Result<(), RowTextFault>
    ensures pushed { OnOk result (bytes.new.items ≡ bytes.old.items ++ front_text (row_line_of told.now)) }
    ensures full { IfErr result (IsFull bytes.old.items (front_text (row_line_of told.now))) }
{
    match told.kind {
        RowLineKind::Kept => {
            push(bytes, told.line)?;
            push(bytes, b"\n")
        }
        RowLineKind::Held(cells) => push_head(bytes, cells, told.line),
        _ => Ok(()),
    }
}

/// Pushes the lines of the eight columns.
pub(crate) fn push_columns(bytes: &mut Bytes, text: &[u8]) -> Result<(), RowTextFault>
    ensures pushed { OnOk result (bytes.new.items ≡ bytes.old.items ++ columns_text (row_lines text.now) 8) }
    ensures within { OnOk result (length bytes.new.items ≤ MOST_BYTES) }
    ensures full { IfErr result (IsFull bytes.old.items (columns_text (row_lines text.now) 8)) }
{
    for column in 0..8 {
        push_column(bytes, text, column)?;
    }
    Ok(())
}

// Pushes the line of this column, from 0.
fn push_column(bytes: &mut Bytes, text: &[u8], column: usize) -> Result<(), RowTextFault>
    requires column { column ≤ 7 }
    ensures pushed { OnOk result (bytes.new.items ≡ bytes.old.items ++ with_line_end (line_of_column column (row_lines text.now))) }
    ensures within { OnOk result (length bytes.new.items ≤ MOST_BYTES) }
    ensures full { IfErr result (IsFull bytes.old.items (with_line_end (line_of_column column (row_lines text.now)))) }
{
    push(bytes, b":")?;
    for told in RowLines::new(text) {
        push_entry(bytes, &told, column)?;
    }
    push(bytes, b"\n")
}

// Pushes a blank and the entry of a row for this column, from 0, where the line is a row and has one.
fn push_entry(bytes: &mut Bytes, told: &LineTold, column: usize) -> Result<(), RowTextFault>
    requires column { column ≤ 7 }
    ensures pushed { OnOk result (bytes.new.items ≡ bytes.old.items ++ entry_text_at column (row_line_of told.now)) }
    ensures full { IfErr result (IsFull bytes.old.items (entry_text_at column (row_line_of told.now))) }
{
    if told.kind != RowLineKind::Row {
        return Ok(());
    }
    let entry = entry_at(told, column);
    if is_none(entry) {
        return Ok(());
    }
    push_word(bytes, entry)
}
