//! Cards, ranks, suits and places.

use crate::given::{card, must};
use fc_cards::{Card, Place, Suit, rank_letter, read_rank};
use std::process::Abort;

// The card of a rank and a suit has this number, and tells its rank, suit and number.
fn check_card(rt: &impl Abort, rank: u8, suit: Suit, index: u8) {
    let card = Card::new(rank, suit).expect(rt, "a card");
    must(rt, card.index() == index);
    must(rt, card.rank() == rank && card.suit() == suit);
    must(rt, Card::from_index(index) == Some(card));
}

#[test]
fn numbers_cards(rt: HostRuntime) {
    check_card(&rt, 11, Suit::D, 41);
    check_card(&rt, 1, Suit::C, 0);
    must(&rt, Card::new(0, Suit::C).is_none());
    must(&rt, Card::new(14, Suit::S).is_none());
    let jack = Card::from_index(41).expect(&rt, "a jack");
    let least = Card::from_index(0).expect(&rt, "a card");
    must(
        &rt,
        jack.is_red() && least < jack && least == Card::default(),
    );
    must(&rt, Card::from_index(52) == None);
}

// Texts, and the numbers of the cards that they spell.
static TEXTS: [(&[u8], u8); 6] = [
    (b"AC", 0),
    (b"KS", 51),
    (b"TH", 38),
    (b"10h", 38),
    (b"tH", 38),
    (b"jd", 41),
];

// Texts that spell no card.
static NO_TEXTS: [&[u8]; 6] = [b"1H", b"10", b"H", b"", b"JDX", b" JD"];

#[test]
fn reads_texts(rt: HostRuntime) {
    for &(text, index) in &TEXTS {
        must(&rt, card(&rt, text).index() == index);
    }
    for &text in &NO_TEXTS {
        must(&rt, Card::read(text).is_none());
    }
    for index in 0..52 {
        let card = Card::from_index(index).expect(&rt, "a card");
        must(&rt, Card::read(&card.text()) == Some(card));
    }
}

// A suit has this number, and is read from its letter.
fn check_suit(rt: &impl Abort, index: usize, suit: Suit) {
    must(rt, suit.index() as usize == index);
    must(rt, Suit::read(suit.letter()) == Some(suit));
}

#[test]
fn reads_ranks_and_suits(rt: HostRuntime) {
    must(&rt, read_rank(b"q") == Some(12) && read_rank(b"0") == None);
    must(&rt, rank_letter(10) == b'T');
    must(
        &rt,
        Suit::read(b's') == Some(Suit::S) && Suit::read(b'x') == None,
    );
    for (index, suit) in Suit::ALL.iter().enumerate() {
        check_suit(&rt, index, *suit);
    }
    must(&rt, Place::default() == Place::Home);
}
