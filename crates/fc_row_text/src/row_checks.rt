ghost use Rattle.std.specs.Prelude.{◌≡◌, ◌≤◌, Some, None, length, IfOk, OnOk, IfErr};
ghost use Rattle.std.specs.List.{range_with_len};
ghost use Rattle.fc_row_text.specs.RowText.{fault_of, first_fault, gap_fault, left_above, left_at, left_below, left_by, left_with, long_fault, none_left, row_fault, row_lines};
ghost use Rattle.fc_row_text.specs.Lines.{row_line_of};

use crate::column_texts::MOST_BYTES;
use crate::faults::RowTextFault;
use crate::readings::Places;
use crate::row_entries::{entry_at, is_none};
use crate::row_lines::{LineTold, RowLineKind, RowLines};
use crate::row_words::word_count;
use crate::spans::Span;

// For each column the number of the first row that leaves it out.
type LeftOut = [Option<u32>; 8];

/// Looks for the first line that is at fault.
pub(crate) fn check_lines(text: &[u8]) -> Result<(), RowTextFault>
    requires short { length text.now ≤ MOST_BYTES }
    ensures sound { OnOk result (first_fault none_left 1 (row_lines text.now) ≡ None) }
    ensures fault { IfErr result (λ fault. first_fault none_left 1 (row_lines text.now) ≡ Some fault) }
{
    let mut left = [None; 8];
    let mut number = 1;
    for told in RowLines::new(text) {
        check_line(&left, number, &told)?;
        left = left_below(left, number, &told);
        number += 1;
    }
    Ok(())
}

// Whether a line with its number is at fault, below rows that leave columns out.
fn check_line(left: &LeftOut, number: u32, told: &LineTold) -> Result<(), RowTextFault>
    ensures sound { OnOk result (fault_of left.now number (row_line_of told.now) ≡ None) }
    ensures fault { IfErr result (λ fault. fault_of left.now number (row_line_of told.now) ≡ Some fault) }
{
    match told.kind {
        RowLineKind::Held(cells) => {
            if word_count(told.line) != cells as usize + 4 {
                return Err(RowTextFault::BadHead(number));
            }
            Ok(())
        }
        RowLineKind::Row => check_row(left, number, told),
        _ => Ok(()),
    }
}

// Whether a row with its number is at fault.
fn check_row(left: &LeftOut, number: u32, told: &LineTold) -> Result<(), RowTextFault>
    ensures sound { OnOk result (row_fault left.now number (row_line_of told.now) ≡ None) }
    ensures fault { IfErr result (λ fault. row_fault left.now number (row_line_of told.now) ≡ Some fault) }
{
    check_gap(number, told.reading.gap)?;
    if let Some(above) = left_above(left, told) {
        return Err(RowTextFault::ShortRow(above));
    }
    check_length(number, told.line)
}

// Whether a gap stands before the entry with this number.
fn check_gap(number: u32, gap: Option<usize>) -> Result<(), RowTextFault>
    ensures sound { OnOk result (gap_fault number gap ≡ None) }
    ensures fault { IfErr result (λ fault. gap_fault number gap ≡ Some fault) }
{
    match gap {
        Some(entry) => Err(RowTextFault::OpenRow(number, entry)),
        None => Ok(()),
    }
}

// The first row above that leaves a column out, where this row has a card in it.
fn left_at(left: &LeftOut, told: &LineTold, column: usize) -> Option<u32>
    requires column { column ≤ 7 }
    ensures { result ≡ left_at left.now (row_line_of told.now) column }
{
    if is_none(entry_at(told, column)) {
        None
    } else {
        left[column]
    }
}

// That of the first column for which there is one.
fn left_above(left: &LeftOut, told: &LineTold) -> Option<u32>
    ensures { result ≡ left_above left.now (row_line_of told.now) (range_with_len 0 8) }
{
    for column in 0..8 {
        let above = left_at(left, told, column);
        if above.is_some() {
            return above;
        }
    }
    None
}

// Whether a row with its number has more words than there are columns.
fn check_length(number: u32, line: &[u8]) -> Result<(), RowTextFault>
    ensures sound { OnOk result (long_fault number line.now ≡ None) }
    ensures fault { IfErr result (λ fault. long_fault number line.now ≡ Some fault) }
{
    if word_count(line) > 8 {
        return Err(RowTextFault::LongRow(number));
    }
    Ok(())
}

// The first rows that leave columns out, below a line with its number.
fn left_below(left: LeftOut, number: u32, told: &LineTold) -> LeftOut
    ensures { result ≡ left_below left number (row_line_of told.now) }
{
    if told.kind == RowLineKind::Row {
        left_with(&left, number, &told.reading.entries)
    } else {
        left
    }
}

// The first rows that leave columns out, below a row with its number and entries.
fn left_with(left: &LeftOut, number: u32, entries: &Places) -> LeftOut
    ensures { result ≡ left_with left.now number entries.now }
{
    let mut below = [None; 8];
    for column in 0..8 {
        below[column] = left[column].or(left_by(number, entries[column]));
    }
    below
}

// The row's number, where it has no word for a column.
fn left_by(number: u32, entry: Option<Span>) -> Option<u32>
    ensures { result ≡ left_by number entry }
{
    match entry {
        Some(_) => None,
        None => Some(number),
    }
}
