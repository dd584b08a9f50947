//! Canonical positions and their keys.

use crate::boards::{ALL_HOME, DEAL_ONE, LOCKED, THREE_SPADES, TWO_KINGS, WITH_CELLS};
use crate::given::{board, must, sure};
use arrayvec::ArrayVec;
use fc_canonical::{Key, canonical, is_key, key, key_len, position_of, read_key};
use fc_cards::Card;
use std::process::Abort;

// The key of the board of four cards: no cells, `QH KS`, `QS KH`, and six empty columns.
const FOUR_CARDS_KEY: &[u8] = &[
    0x0D, 0x0D, 0x0B, 0x0B, 0xFF, 0xFF, 0xFF, 0xFF, 0x02, 0x2E, 0x33, 0x02, 0x2F, 0x32, 0x00, 0x00,
    0x00, 0x00, 0x00, 0x00,
];

// The key of the locked board.
const LOCKED_KEY: &[u8] = &[
    0x07, 0x07, 0x07, 0x07, 0x30, 0x31, 0x32, 0x33, 0x02, 0x1C, 0x20, 0x02, 0x1D, 0x21, 0x02, 0x1E,
    0x22, 0x02, 0x1F, 0x23, 0x03, 0x24, 0x2C, 0x28, 0x03, 0x25, 0x2D, 0x29, 0x03, 0x26, 0x2E, 0x2A,
    0x03, 0x27, 0x2F, 0x2B,
];

// The keys of boards that other certificates hold: every card home; the queen of spades home too; and three cards of
// spades in two columns.
const ALL_HOME_KEY: &[u8] = &[
    0x0D, 0x0D, 0x0D, 0x0D, 0xFF, 0xFF, 0xFF, 0xFF, 0x00, 0x00, 0x00, 0x00, 0x00, 0x00, 0x00, 0x00,
];

const THREE_CARDS_KEY: &[u8] = &[
    0x0D, 0x0D, 0x0B, 0x0C, 0xFF, 0xFF, 0xFF, 0xFF, 0x02, 0x2E, 0x33, 0x01, 0x32, 0x00, 0x00, 0x00,
    0x00, 0x00, 0x00,
];

const THREE_SPADES_KEY: &[u8] = &[
    0x0D, 0x0D, 0x0D, 0x0A, 0xFF, 0xFF, 0xFF, 0xFF, 0x02, 0x2B, 0x2F, 0x01, 0x33, 0x00, 0x00, 0x00,
    0x00, 0x00, 0x00,
];

// The key of a board of two cards, both in cells.
const SPADES_IN_CELLS_KEY: &[u8] = &[
    0x0D, 0x0D, 0x0D, 0x0B, 0x2F, 0x33, 0xFF, 0xFF, 0x00, 0x00, 0x00, 0x00, 0x00, 0x00, 0x00, 0x00,
];

// The key of a board's text.
fn check_key(rt: &impl Abort, text: &str, bytes: &[u8]) {
    must(rt, key(&board(rt, text)).as_slice() == bytes);
}

// Boards, and the keys of their classes.
static KEYS: [(&str, &[u8]); 6] = [
    (TWO_KINGS, FOUR_CARDS_KEY),
    (
        "Foundations: H-J C-K D-K S-J\n:\nQH KS\n:\nQS KH\n",
        FOUR_CARDS_KEY,
    ),
    (
        "Foundations: H-J C-K D-K S-J\nQH KS\nQS KH\n",
        FOUR_CARDS_KEY,
    ),
    (
        "Foundations: H-J C-K D-K S-J\n:\nQS KH\n:\n:\n:\nQH KS\n",
        FOUR_CARDS_KEY,
    ),
    (LOCKED, LOCKED_KEY),
    (
        "Foundations: H-7 C-7 D-7 S-7\nFreecells: KH KS KC KD\n\
        TS QS JS\n8D 9D\nTC QC JC\n8C 9C\n8S 9S\nTH QH JH\n8H 9H\nTD QD JD\n",
        LOCKED_KEY,
    ),
];

#[test]
fn writes_keys(rt: HostRuntime) {
    for &(text, bytes) in &KEYS {
        check_key(&rt, text, bytes);
    }
}

// Some bytes begin with this key, whose position has it.
fn check_read(rt: &impl Abort, bytes: &[u8], own: &[u8]) {
    let (read, extent) = read_key(bytes).expect(rt, "a key");
    must(rt, extent == own.len());
    must(rt, key(&read).as_slice() == own);
    must(rt, is_key(own, 4));
    must(rt, is_key(bytes, 4) == (bytes.len() == own.len()));
}

// A board has this key, and the key's position does.
fn check_written_and_read(rt: &impl Abort, text: &str, bytes: &[u8]) {
    check_key(rt, text, bytes);
    check_read(rt, bytes, bytes);
}

#[test]
fn writes_and_reads_keys_of_certificates(rt: HostRuntime) {
    check_written_and_read(&rt, ALL_HOME, ALL_HOME_KEY);
    let three = "Foundations: H-J C-K D-K S-Q\nQH KS\nKH\n";
    check_written_and_read(&rt, three, THREE_CARDS_KEY);
    check_written_and_read(&rt, THREE_SPADES, THREE_SPADES_KEY);
}

#[test]
fn makes_canonical_positions(rt: HostRuntime) {
    let text = "Foundations: H-J C-K D-K S-J\nFreecells: - KS\n:\nQS KH\nQH\n";
    let sorted = canonical(&board(&rt, text));
    must(
        &rt,
        sorted.cell(0) == Card::read(b"KS") && sorted.cell(1) == None,
    );
    must(&rt, sorted.column(0).len() == 1);
    must(&rt, sorted.column(1).len() == 2);
    must(&rt, sorted.column(2).len() == 0);
}

// The key of the board of four cards with other bytes behind it.
fn followed(rt: &impl Abort) -> Key {
    let mut followed = ArrayVec::new();
    sure(rt, followed.try_extend_from_slice(FOUR_CARDS_KEY));
    sure(rt, followed.try_extend_from_slice(&[0xFF, 0x00, 0x07]));
    followed
}

// Some bytes begin with no key.
fn check_no_key(rt: &impl Abort, bytes: &[u8]) {
    must(rt, read_key(bytes).is_none());
    must(rt, !is_key(bytes, 4));
}

// So many of the first bytes of a key are none.
fn check_front(rt: &impl Abort, end: usize) {
    let front = FOUR_CARDS_KEY.get(..end).expect(rt, "a front");
    must(rt, key_len(front).is_none());
    check_no_key(rt, front);
}

// The first card of the first column of a key's position.
fn check_first(rt: &impl Abort, bytes: &[u8], text: &[u8]) {
    let (read, _) = read_key(bytes).expect(rt, "a key");
    must(rt, read.column(0).first().copied() == Card::read(text));
}

#[test]
fn reads_keys(rt: HostRuntime) {
    for end in 0..FOUR_CARDS_KEY.len() {
        check_front(&rt, end);
    }
    let followed = followed(&rt);
    must(&rt, key_len(followed.as_slice()) == Some(20));
    check_read(&rt, followed.as_slice(), FOUR_CARDS_KEY);
    check_read(&rt, LOCKED_KEY, LOCKED_KEY);
    check_first(&rt, FOUR_CARDS_KEY, b"QH");
}

// The position of a key, read with no test, is that of a text.
fn check_known(rt: &impl Abort, bytes: &[u8], text: &str) {
    must(rt, read_key(bytes).is_some());
    must(rt, position_of(bytes).equals(&board(rt, text)));
}

#[test]
fn reads_known_keys(rt: HostRuntime) {
    let sorted = "Foundations: H-J C-K D-K S-J\nQH KS\nQS KH\n";
    check_known(&rt, FOUR_CARDS_KEY, sorted);
    check_known(&rt, followed(&rt).as_slice(), sorted);
    check_known(&rt, LOCKED_KEY, LOCKED);
    check_known(&rt, ALL_HOME_KEY, ALL_HOME);
    must(&rt, board(&rt, ALL_HOME).is_won());
}

// The key of the board of four cards with one byte changed.
fn changed(rt: &impl Abort, place: usize, byte: u8) -> Key {
    let mut bytes = ArrayVec::new();
    sure(rt, bytes.try_extend_from_slice(FOUR_CARDS_KEY));
    *bytes.get_mut(place).expect(rt, "a byte there") = byte;
    bytes
}

// The key of the board of four cards with one byte changed is none, and has this extent by its lengths, or none.
fn check_changed(rt: &impl Abort, place: usize, byte: u8, extent: Option<usize>) {
    let bytes = changed(rt, place, byte);
    must(rt, key_len(bytes.as_slice()) == extent);
    check_no_key(rt, bytes.as_slice());
}

#[test]
fn refuses_what_is_no_key(rt: HostRuntime) {
    for &(place, byte, extent) in &CHANGES {
        check_changed(&rt, place, byte, extent);
    }
}

// The place of a byte of that key, another byte, and the extent that the lengths tell then.
static CHANGES: [(usize, u8, Option<usize>); 7] = [
    (3, 0x0E, Some(20)),
    (4, 0x33, Some(20)),
    (5, 0x34, Some(20)),
    (9, 0x2F, Some(20)),
    (10, 0x34, Some(20)),
    (2, 0x0A, Some(20)),
    (19, 1, None),
];

// The key of a board of which so many cells hold a card.
fn check_cells(rt: &impl Abort, text: &str, full: u8) {
    let bytes = key(&board(rt, text));
    for cells in 0..6 {
        must(rt, is_key(bytes.as_slice(), cells) == (full <= cells));
    }
    must(rt, is_key(bytes.as_slice(), 255));
}

#[test]
fn tells_keys_by_their_cells(rt: HostRuntime) {
    let cases = [
        (ALL_HOME, 0),
        (TWO_KINGS, 0),
        ("Foundations: H-K C-K D-K S-Q\nFreecells: - - - KS\n", 1),
        (WITH_CELLS, 2),
        (
            "Foundations: H-K C-K D-J S-J\nFreecells: KS QD - QS\nKD\n",
            3,
        ),
        (LOCKED, 4),
        (DEAL_ONE, 0),
    ];
    for (text, full) in cases {
        check_cells(&rt, text, full);
    }
}

// Bytes that are no key.
static NO_KEYS: [&[u8]; 10] = [
    // Two cells exchanged, and two behind an empty one; in order they are a key.
    b"\x0D\x0D\x0D\x0B\x33\x2F\xFF\xFF\0\0\0\0\0\0\0\0",
    b"\x0D\x0D\x0D\x0B\xFF\x2F\x33\xFF\0\0\0\0\0\0\0\0",
    // Two columns exchanged, and two behind an empty one.
    b"\x0D\x0D\x0D\x0B\xFF\xFF\xFF\xFF\x01\x33\x01\x2F\0\0\0\0\0\0",
    b"\x0D\x0D\x0D\x0B\xFF\xFF\xFF\xFF\0\x01\x2F\x01\x33\0\0\0\0\0",
    // A card in a cell that stands in a column too, and one that is home too.
    b"\x0D\x0D\x0D\x0B\x33\xFF\xFF\xFF\x02\x2F\x33\0\0\0\0\0\0\0",
    b"\x0D\x0D\x0D\x0B\x2F\x33\xFF\xFF\x01\0\0\0\0\0\0\0\0",
    // A card that is nowhere.
    b"\x0D\x0D\x0D\x0B\x33\xFF\xFF\xFF\0\0\0\0\0\0\0\0",
    // Numbers of no card in place of a card's: one above the last, the highest, and 64 more than the card's.
    b"\x0D\x0D\x0D\x0B\x2F\x34\xFF\xFF\0\0\0\0\0\0\0\0",
    b"\x0D\x0D\x0D\x0B\x2F\xFE\xFF\xFF\0\0\0\0\0\0\0\0",
    b"\x0D\x0D\x0D\x0B\xFF\xFF\xFF\xFF\x02\x2F\x73\0\0\0\0\0\0\0",
];

#[test]
fn refuses_parts_of_keys_out_of_place(rt: HostRuntime) {
    for &bytes in &NO_KEYS {
        check_no_key(&rt, bytes);
    }
    check_read(&rt, SPADES_IN_CELLS_KEY, SPADES_IN_CELLS_KEY);
}
