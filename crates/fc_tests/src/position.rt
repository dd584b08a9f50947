//! Positions made from their parts, what they tell, and cards that move.

ghost use Rattle.std.specs.Prelude.{◌≡◌, ◌≤◌, All, map};

use crate::boards::TWO_KINGS;
use crate::given::{board, card, cards, free_cell, make, move_of, must, sure};
use arrayvec::ArrayVec;
use fc_cards::{Card, Place, Suit};
use fc_position::{PartsFault, Position, Tally};
use std::process::Abort;

// The columns of a position.
fn columns(rt: &impl Abort, position: &Position) -> [ArrayVec<Card, 52>; 8] {
    let mut columns: [ArrayVec<Card, 52>; 8] = Default::default();
    for (i, column) in columns.iter_mut().enumerate() {
        if i < 8 {
            sure(rt, column.try_extend_from_slice(position.column(i as u8)));
        }
    }
    columns
}

// The same column.
fn same_column(cards: &ArrayVec<Card, 52>) -> ArrayVec<Card, 52>
    ensures { result.items ≡ cards.now.items }
{
    let mut same = ArrayVec::new();
    let _ = same.try_extend_from_slice(cards.as_slice());
    same
}

// The same columns.
fn same_columns(columns: &[ArrayVec<Card, 52>; 8]) -> [ArrayVec<Card, 52>; 8]
    ensures { map (λ v. v.items) result ≡ map (λ v. v.items) columns.now }
{
    let [a, b, c, d, e, f, g, h] = columns;
    [
        same_column(a),
        same_column(b),
        same_column(c),
        same_column(d),
        same_column(e),
        same_column(f),
        same_column(g),
        same_column(h),
    ]
}

// The card that may be taken from a place is that of this text, or there is none.
fn check_playable(rt: &impl Abort, position: &Position, place: Place, text: &[u8]) {
    must(rt, position.playable(place) == Card::read(text));
}

// So many cards of two suits are home.
fn check_homes(rt: &impl Abort, position: &Position, suits: (Suit, Suit), counts: (u8, u8)) {
    let (one, other) = suits;
    must(rt, (position.home(one), position.home(other)) == counts);
}

// Places of the board of two kings, and the card that may be taken from each, if there is one.
static PLAYABLE: [(Place, &[u8]); 5] = [
    (Place::Column(1), b"KS"),
    (Place::Column(2), b""),
    (Place::Column(8), b""),
    (Place::Cell(4), b""),
    (Place::Home, b""),
];

// The parts of the board of two kings.
fn check_kings(rt: &impl Abort, position: &Position) {
    must(rt, position.column(0) == cards(rt, b"QS KH").as_slice());
    must(rt, position.column(7).is_empty());
    must(rt, position.cell(3).is_none());
    must(rt, !position.is_won() && position.fits(0));
    check_homes(rt, position, (Suit::D, Suit::H), (13, 11));
}

#[test]
fn tells_parts(rt: HostRuntime) {
    let position = board(&rt, TWO_KINGS);
    check_kings(&rt, &position);
    for &(place, text) in &PLAYABLE {
        check_playable(&rt, &position, place, text);
    }
}

// A position of four cards, of which two columns are told.
fn check_four(rt: &impl Abort, position: &Position) {
    check_playable(rt, position, Place::Column(0), b"KH");
    check_playable(rt, position, Place::Column(1), b"KS");
    check_homes(rt, position, (Suit::C, Suit::S), (13, 11));
    must(rt, position.cell(0) == None);
}

#[test]
fn takes_known_parts(rt: HostRuntime) {
    let columns = columns(&rt, &board(&rt, TWO_KINGS));
    let read = Position::from_parts(same_columns(&columns), [None; 4], [13, 13, 11, 11]);
    let tested = sure(&rt, read);
    let position = Position::of_parts(columns, [None; 4], [13, 13, 11, 11]);
    must(
        &rt,
        position.equals(&tested) && position.equals(&board(&rt, TWO_KINGS)),
    );
    check_four(&rt, &position);
}

// Makes a move of FreeCell.
fn make_move(rt: &impl Abort, position: &mut Position, text: &[u8]) {
    make(rt, &free_cell(rt, 4), position, move_of(rt, text));
}

#[test]
fn moves_cards(rt: HostRuntime) {
    let mut position = board(&rt, TWO_KINGS);
    let before = position.copy();
    must(&rt, before.equals(&position));
    make_move(&rt, &mut position, b"1c");
    must(&rt, !before.equals(&position));
    must(&rt, position.fits(3) && !position.fits(2));
    check_playable(&rt, &before, Place::Column(0), b"KH");
}

// Places after a move and exchanges, and the card that may be taken from each, if there is one.
static EXCHANGED: [(Place, &[u8]); 4] = [
    (Place::Column(5), b"QS"),
    (Place::Column(0), b""),
    (Place::Cell(3), b"KH"),
    (Place::Cell(0), b""),
];

#[test]
fn exchanges_places(rt: HostRuntime) {
    let mut position = board(&rt, TWO_KINGS);
    make_move(&rt, &mut position, b"1a");
    position.swap_columns(0, 5);
    position.swap_cells(0, 3);
    for &(place, text) in &EXCHANGED {
        check_playable(&rt, &position, place, text);
    }
}

// What is wrong with one card in the first cell, or none, and so many cards home; where nothing is, whether all are home.
fn check_parts(rt: &impl Abort, cell: Option<Card>, homes: [u8; 4], fault: Option<PartsFault>)
    requires counts { All (λ n. n ≤ 13) homes }
{
    match Position::from_parts(Default::default(), [cell, None, None, None], homes) {
        Ok(position) => {
            must(rt, fault == None);
            must(rt, position.is_won() == cell.is_none());
        }
        Err(found) => must(rt, Some(found) == fault),
    }
}

#[test]
fn names_the_first_fault(rt: HostRuntime) {
    let ace = card(&rt, b"AC");
    let king = card(&rt, b"KS");
    check_parts(&rt, None, [13; 4], None);
    check_parts(&rt, None, [0; 4], Some(PartsFault::Missing(ace)));
    let twice = Some(PartsFault::Repeated(ace));
    check_parts(&rt, Some(ace), [1, 0, 0, 0], twice);
    let twice = Some(PartsFault::Repeated(king));
    check_parts(&rt, Some(king), [0, 13, 13, 13], twice);
    check_parts(&rt, Some(king), [13, 13, 13, 12], None);
}

// The least card that stands twice in a tally is that of this text.
fn check_twice(rt: &impl Abort, tally: &Tally, text: &[u8]) {
    must(
        rt,
        tally.fault() == Some(PartsFault::Repeated(card(rt, text))),
    );
}

// Adds all cards but the clubs from four on: the first of these is missing.
fn add_low_cards(rt: &impl Abort, tally: &mut Tally) {
    tally.add_homes(&[1, 13, 13, 13]);
    tally.add_column(&[card(rt, b"2C")]);
    tally.add_cells(&[None, Card::read(b"3C")]);
    let missing = PartsFault::Missing(card(rt, b"4C"));
    must(rt, tally.fault() == Some(missing));
}

// Adds the clubs from four on, with which nothing is wrong.
fn add_clubs(rt: &impl Abort, tally: &mut Tally) {
    let clubs = "Foundations: H-K C-3 D-K S-K\n4C 5C 6C 7C 8C\n9C TC JC QC KC\n";
    tally.add_columns(&columns(rt, &board(rt, clubs)));
    must(rt, tally.fault() == None);
}

#[test]
fn tallies_cards(rt: HostRuntime) {
    let mut tally = Tally::new();
    add_low_cards(&rt, &mut tally);
    add_clubs(&rt, &mut tally);
    let two = card(&rt, b"2C");
    for _ in 0..300 {
        tally.add(two);
    }
    check_twice(&rt, &tally, b"2C");
    tally.add(card(&rt, b"AC"));
    check_twice(&rt, &tally, b"AC");
}
