//! Boards typed in rows.

use crate::given::{must, sure};
use fc_row_text::{MOST_BYTES, RowTextFault, columns_of_row_text};
use std::process::Abort;

// A text in rows stands for this one in columns.
fn check_columns(rt: &impl Abort, rows: &[u8], columns: &[u8]) {
    let made = sure(rt, columns_of_row_text(rows));
    must(rt, made.bytes() == columns);
}

// Texts in rows, and those in columns for which they stand.
static TYPED: [(&[u8], &[u8]); 15] = [
    (b"", b":\n:\n:\n:\n:\n:\n:\n:\n"),
    // The last row may be short.
    (b"KC", b": KC\n:\n:\n:\n:\n:\n:\n:\n"),
    (
        b"AC 2C 3C 4C 5C 6C 7C 8C\r\n\r\n9C TC\r\n",
        b": AC 9C\n: 2C TC\n: 3C\n: 4C\n: 5C\n: 6C\n: 7C\n: 8C\n",
    ),
    // Entries that stand for no card, and entries that are none.
    (
        b"AC -- 3C - 5C . * 10c\nx  -- KD\n",
        b": AC x\n:\n: 3C KD\n:\n: 5C\n:\n: *\n: 10c\n",
    ),
    // Numbers of the columns.
    (
        b" 1 2 3 4 5 6 7 8\nAC 2C 3C 4C 5C 6C 7C 8C\n1 2 3 4 5 6 7 8",
        b": AC\n: 2C\n: 3C\n: 4C\n: 5C\n: 6C\n: 7C\n: 8C\n",
    ),
    // Fewer entries are read under the numbers of the columns,
    (
        b"  1  2  3  4  5  6  7  8\n AC    3C       6C    8C\n 2C             7C\n",
        b": AC 2C\n:\n: 3C\n:\n:\n: 6C 7C\n:\n: 8C\n",
    ),
    // else under the entries above, tabs going to the next multiple of eight.
    (
        b"AC\t2C\t3C\t4C\t5C\t6C\t7C\t8C\n\t9C\t\tTC\n        JC\n",
        b": AC\n: 2C 9C JC\n: 3C\n: 4C TC\n: 5C\n: 6C\n: 7C\n: 8C\n",
    ),
    (b" --  2C 3C", b":\n: 2C\n: 3C\n:\n:\n:\n:\n:\n"),
    (b"\t2C\t3C", b": 2C\n: 3C\n:\n:\n:\n:\n:\n:\n"),
    // Foundations and cells stay, wherever they stand.
    (
        b"KC\r\n founds: H-A\r\nFC: - KD",
        b" founds: H-A\nFC: - KD\n: KC\n:\n:\n:\n:\n:\n:\n:\n",
    ),
    // What stands above a drawing, for none to four cells.
    (
        b"C D H S\n\n- KD th 10S\n",
        b"Foundations: H-t C-0 D-K S-10\nFreecells:\n:\n:\n:\n:\n:\n:\n:\n:\n",
    ),
    (
        b"a C D H S\n7S - - - AS",
        b"Foundations: H-0 C-0 D-0 S-A\nFreecells: 7S\n:\n:\n:\n:\n:\n:\n:\n:\n",
    ),
    (
        b"a b c d C D H S\n- KC x * - - - -\n",
        b"Foundations: H-0 C-0 D-0 S-0\nFreecells: - KC x *\n:\n:\n:\n:\n:\n:\n:\n:\n",
    ),
    // A foundation with another suit's card is handed on.
    (
        b"a b C D H S\n- - KD 7 D-7 S\n",
        b"Foundations: D-7 KD 7 S-\nFreecells: - -\n:\n:\n:\n:\n:\n:\n:\n:\n",
    ),
    // Names that nothing stands below say nothing.
    (b"a b c C D H S\n", b":\n:\n:\n:\n:\n:\n:\n:\n"),
];

#[test]
fn rows_are_put_into_columns(rt: HostRuntime) {
    for (rows, columns) in TYPED.as_slice() {
        check_columns(&rt, *rows, *columns);
    }
}

// What is wrong with texts in rows.
static FAULTY: [(&[u8], RowTextFault); 3] = [
    // A gap before the first entry, and two tabs.
    (b"AC 2C\n    3C  4C\n", RowTextFault::OpenRow(2, 1)),
    (b"AC\t\t3C\n", RowTextFault::OpenRow(1, 2)),
    // A column that the second row leaves out has a card in the third.
    (
        b"AC 2C 3C 4C 5C 6C 7C 8C\n9C    JC\n   QC\n",
        RowTextFault::ShortRow(2),
    ),
];

#[test]
fn faults_of_rows_are_told(rt: HostRuntime) {
    for (rows, fault) in FAULTY.as_slice() {
        must(&rt, columns_of_row_text(*rows).err() == Some(*fault));
    }
}

// A text in rows is too long, and without its first byte it is not.
fn check_longest(rt: &impl Abort, text: &[u8]) {
    must(
        rt,
        columns_of_row_text(text).err() == Some(RowTextFault::TooLong),
    );
    let shorter = text.get(1..).expect(rt, "a byte");
    must(rt, columns_of_row_text(shorter).is_ok());
}

#[test]
fn long_texts_are_too_long(rt: HostRuntime) {
    check_longest(&rt, &[b' '; MOST_BYTES + 1]);
    // (its columns have 16 bytes more)
    check_longest(&rt, &[b'K'; MOST_BYTES - 16]);
}
