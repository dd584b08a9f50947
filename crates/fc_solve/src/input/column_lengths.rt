//! What is said of a board whose columns are as long as those of no deal, or that would be another one read the other way.
ghost use Rattle.std.specs.Prelude.{◌≤◌};

use fc_notes::{
    BoardText, LengthNote, file_line, is_board_in_rows, is_like_deal, note_of_columns,
    note_of_rows, reversed_deal, short_row,
};
use fc_position::Position;
use fc_row_text::RowLines;

/// Says on standard error what there is to say of a board that a text spells in columns. Where this can't be written, the board stands
/// all the same.
pub fn tell_of_columns(rt: &HostRuntime, start: &Position, text: &[u8], cells: u8)
    requires cells { cells ≤ 4 }
{
    match note_of_columns(start, text, cells) {
        None => {}
        Some(
            LengthNote::NotOfDeal {
                lengths,
                is_deal_in_rows,
            },
        ) => tell_lengths(rt, &lengths, is_deal_in_rows),
        Some(LengthNote::Other) => note(
            rt,
            "read in columns it comes from no deal, and in rows it can: say --rows",
        ),
        Some(LengthNote::Either) => note(
            rt,
            "read in rows it is another board: for that one say --rows",
        ),
    }
}

/// Says on standard error what there is to say of a board that a text spells in rows.
pub fn tell_of_rows(rt: &HostRuntime, start: &Position, text: &[u8], cells: u8)
    requires cells { cells ≤ 4 }
{
    match note_of_rows(start, text, cells) {
        None => {}
        Some(
            LengthNote::NotOfDeal {
                lengths,
                is_deal_in_rows,
            },
        ) => tell_lengths(rt, &lengths, is_deal_in_rows),
        Some(LengthNote::Other) => note(
            rt,
            "read in rows it comes from no deal, and in columns it can: leave --rows out",
        ),
        Some(LengthNote::Either) => note(
            rt,
            "read in columns it is another board: for that one leave --rows out",
        ),
    }
}

// Says how long the columns are, and what to do where the text, read in rows, is a deal.
fn tell_lengths(rt: &HostRuntime, lengths: &[usize; 8], is_deal_in_rows: bool) {
    let _told = eprint!(rt; "fc_solve: the columns have");
    for count in lengths {
        let _told = eprint!(rt; " {count}");
    }
    let advice = if is_deal_in_rows {
        ": for a board typed in rows say --rows"
    } else {
        ""
    };
    let _told = eprintln!(rt; " cards, as no deal has{advice}");
}

fn note(rt: &HostRuntime, words: &str) {
    let _told = eprintln!(rt; "fc_solve: {words}");
}

/// Says on standard error how the rows with fewer than eight entries were read, where no line of numbers with room for cards stands
/// above them; nothing of a board whose columns are as long as a deal's.
pub fn note_short_rows(rt: &HostRuntime, start: &Position, text: &BoardText<'_>) {
    if is_like_deal(start) {
        return;
    }
    let (mut number, mut told_before) = (0u32, false);
    for told in RowLines::new(text.tidy) {
        number = number.saturating_add(1);
        let Some(columns) = short_row(&told) else {
            continue;
        };
        let begin = if told_before {
            ";"
        } else {
            "fc_solve: short rows were read so:"
        };
        let line = file_line(text, number);
        let _told = eprint!(rt; "{begin} line {line}: columns");
        print_columns(rt, &columns);
        told_before = true;
    }
    if told_before {
        let _told = eprintln!(rt; "");
    }
}

// Prints the numbers of these columns.
fn print_columns(rt: &HostRuntime, columns: &[bool; 8]) {
    let mut number = 0u8;
    for is_read in columns {
        number = number.saturating_add(1);
        if *is_read {
            let _told = eprint!(rt; " {number}");
        }
    }
}

/// Where a board whose cards all stand in its columns is a numbered deal once each column is read the other way round, says so on
/// standard error.
pub fn note_reversed(rt: &HostRuntime, start: &Position) {
    if let Some(number) = reversed_deal(start) {
        let _told = eprintln!(rt;
            "fc_solve: each column turned round, this is deal {number}: a column's deepest card stands first, not the one to play"
        );
    }
}

/// Where a text that is no board in columns is one in rows, one of which has eight entries, says so on standard error.
pub fn note_rows(rt: &HostRuntime, text: &[u8], cells: u8)
    requires cells { cells ≤ 4 }
{
    if is_board_in_rows(text, cells) {
        let _told = eprintln!(rt; "fc_solve: read in rows it is a board: say --rows");
    }
}
