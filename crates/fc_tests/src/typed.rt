//! Texts and counts as people type them.

use crate::given::{must, sure};
use fc_io::testing::Failing;
use fc_io::{FromSlice, ReadFault};
use fc_typed::{MOST_BYTES, TidyText, read_count};
use std::process::Abort;

// A text stands for this tidy one.
fn check_tidy(rt: &impl Abort, text: &[u8], tidy: &[u8]) {
    let made = TidyText::of(text).expect(rt, "a short text");
    must(rt, made.bytes() == tidy);
    let read = sure(rt, TidyText::read(&mut FromSlice::new(text)));
    must(rt, read.bytes() == tidy);
}

// Texts, and the tidy ones for which they stand.
static COPIED: [(&[u8], &[u8]); 29] = [
    (b"", b""),
    (b": 4C 2C\n:\n", b": 4C 2C\n:\n"),
    // The mark of byte order counts at the beginning alone.
    (b"\xEF\xBB\xBFKC", b"KC"),
    (b"KC\xEF\xBB\xBF", b"KC\xEF\xBB\xBF"),
    (b"\xEF\xBB\xBF1: KC", b": KC"),
    // Symbols of suits, black and white, with the selectors of their shapes.
    (
        b"A\xE2\x99\xA3 2\xE2\x99\xA6 3\xE2\x99\xA5 4\xE2\x99\xA0",
        b"AC 2D 3H 4S",
    ),
    (
        b"A\xE2\x99\xA7 2\xE2\x99\xA2 3\xE2\x99\xA1 4\xE2\x99\xA4",
        b"AC 2D 3H 4S",
    ),
    (
        b"10\xE2\x99\xA5\xEF\xB8\x8F J\xE2\x99\xA0\xEF\xB8\x8E",
        b"10H JS",
    ),
    (b"K\xEF\xB8\x8F", b"K\xEF\xB8\x8F"),
    (b"K\xE2\x99\xA8", b"K\xE2\x99\xA8"),
    (b"K\xE2\x99", b"K\xE2\x99"),
    // No-break spaces.
    (b"KC\xC2\xA0QD\xC2\xA1", b"KC QD\xC2\xA1"),
    // Numbers of columns, each where it heads the column line of its number.
    (b"1: KC\n2:QD\n 3: JC", b": KC\n:QD\n : JC"),
    (b"2: KC\n1: QD\n3: JC", b"2: KC\n1: QD\n: JC"),
    (b"KC\n1: QD\n3: JC", b"KC\n1: QD\n: JC"),
    (b"FC: 1: KC\n1: 2: QD", b"FC: 1: KC\n: 2: QD"),
    (
        b"1: KC\nFounds: H-A\n2: QD\n fc: JC\n\t3: JD\n",
        b": KC\nFounds: H-A\n: QD\n fc: JC\n\t: JD\n",
    ),
    (b"1 : KC\n10: QD", b"1 : KC\n10: QD"),
    (
        b"1:\n2:\n3:\n4:\n5:\n6:\n7:\n8:\n9:\n",
        b":\n:\n:\n:\n:\n:\n:\n:\n9:\n",
    ),
    // A blank line is a column's.
    (b"\n1: KS\n2: QS\n", b"\n1: KS\n2: QS\n"),
    (b"\r\n1: KC\r\n3: QC\r\n", b"\r\n1: KC\r\n: QC\r\n"),
    (b"1: KC\r\n2:\r\n", b": KC\r\n:\r\n"),
    // Texts in units of two bytes.
    (b"\xFF\xFE4\0S\0\n\0", b"4S\n"),
    (b"\xFE\xFF\04\0S\0\n", b"4S\n"),
    // U+2666 and its selector, U+00A0, U+00E9 and U+3042.
    (b"\xFF\xFE7\0\x66\x26\x0F\xFE", b"7D"),
    (
        b"\xFE\xFF\x00\xA0\x00\xE9\x30\x42",
        b" \xC3\xA9\xE3\x81\x82",
    ),
    // A pair of units, a half of one, and a byte that is left alone.
    (b"\xFE\xFF\xD8\x3C\xDC\xA1\xDF\xFF0", b"????"),
    (b"\xFF\xFE", b""),
    (b"\xFF\xFF4\0", b"\xFF\xFF4\0"),
];

// Texts whose tokens are respelled or left out, and the tidy ones for which they stand.
static RESPELLED: [(&[u8], &[u8]); 20] = [
    // Suits before ranks.
    (b"D7 s10 dT\n: CA Hk\r\n", b"7D 10s Td\n: AC kH\r\n"),
    (b"Freecells:S10 - *\tHJ", b"Freecells:10S - *\tJH"),
    (b"1:D7\n2:\tCT C10", b":7D\n:\tTC 10C"),
    (b"\xE2\x99\xA67 \xE2\x99\xA010", b"7D 10S"),
    (b"D1 DD 7 D77 D7S 7DS D0 10", b"D1 DD 7 D77 D7S 7DS D0 10"),
    // A dash alone is an empty column.
    (b"-\n: -\r\n3:- \n -\t", b"\n:\r\n:\n "),
    (b"- 4S\n4S -\n- -\n--\n:: -", b"- 4S\n4S -\n- -\n--\n:: -"),
    (b"Founds: -\nFC: -", b"Founds: -\nFC: -"),
    // Foundations told by their last cards.
    (
        b"Foundations: 4H C5 s-2 10d",
        b"Foundations: H-4 C-5 s-2 d-10",
    ),
    (b"deck:HA", b"deck:H-A"),
    (b"Found: H0 0H 4 H-D10", b"Found: H0 0H 4 H-D10"),
    // Further names of the cells.
    (b"cells: HK - -\n CELL:C2", b"FC: KH - -\n FC:2C"),
    (b"Cell s: 2C\n: Cells: 2C", b"Cell s: 2C\n: Cells: 2C"),
    // Commas between cards.
    (
        b"4S, D2,9C\nDecks: H-4,C-5\n,",
        b"4S  2D 9C\nDecks: H-4 C-5\n ",
    ),
    // Comments.
    (b"4S 2D # the first\r\n9C#8C", b"4S 2D \n9C"),
    (b"# a deal\n1: 4S\n\t # more\r\n2: 5S\n#", b": 4S\n: 5S\n"),
    (b"#", b""),
    (b"#\n#\n", b""),
    (b"4S\n#", b"4S\n"),
    (b"4S\n:#\n5S", b"4S\n:\n5S"),
];

#[test]
fn what_is_copied_is_made_tidy(rt: HostRuntime) {
    for &(text, tidy) in &COPIED {
        check_tidy(&rt, text, tidy);
    }
}

#[test]
fn tokens_are_respelled(rt: HostRuntime) {
    for &(text, tidy) in &RESPELLED {
        check_tidy(&rt, text, tidy);
    }
}

#[test]
fn a_text_of_more_than_16384_bytes_is_too_long(rt: HostRuntime) {
    let text = [b' '; MOST_BYTES + 1];
    must(&rt, TidyText::of(&text[1..]).is_some());
    must(&rt, TidyText::of(text.as_slice()).is_none());
    let read = TidyText::read(&mut FromSlice::new(text.as_slice()));
    must(&rt, read.err() == Some(ReadFault::TooLong));
}

#[test]
fn a_text_that_cannot_be_read_is_none(rt: HostRuntime) {
    let mut source = Failing::new(FromSlice::new(b"KC QD"), 3);
    must(
        &rt,
        TidyText::read(&mut source).err() == Some(ReadFault::Failed),
    );
}

// Texts, and the counts that they spell.
static COUNTS: [(&[u8], Option<u32>); 27] = [
    (b"0", Some(0)),
    (b"7", Some(7)),
    (b"100000", Some(100_000)),
    (b"100_000", Some(100_000)),
    (b"4_", Some(4)),
    (b"007", Some(7)),
    (b"100k", Some(100_000)),
    (b"100K", Some(100_000)),
    (b"4M", Some(4_000_000)),
    (b"4m", Some(4_000_000)),
    (b"1e6", Some(1_000_000)),
    (b"12E1_0", Some(4_294_967_295)),
    (b"1e0", Some(1)),
    (b"0e99999999999", Some(0)),
    (b"4294967295", Some(4_294_967_295)),
    (b"4294967296", Some(4_294_967_295)),
    (b"99999999999999999999", Some(4_294_967_295)),
    (b"5000M", Some(4_294_967_295)),
    (b"", None),
    (b"_4", None),
    (b"k", None),
    (b"4kk", None),
    (b"4 M", None),
    (b"-1", None),
    (b"1.5M", None),
    (b"1e", None),
    (b"many", None),
];

#[test]
fn counts_are_read(rt: HostRuntime) {
    for &(text, count) in &COUNTS {
        must(&rt, read_count(text) == count);
    }
}
