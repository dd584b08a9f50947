//! Cards that go home without loss.

ghost use Rattle.std.specs.Prelude.{◌≤◌};

use crate::boards::{FREE_KING, ONE_COLUMN, THIRTY_MOVES};
use crate::given::{bakers_game, board, card, free_cell, listed_moves, must};
use fc_cards::{Card, Place};
use fc_home::{HomeRule, forced, free, goes_home_from, settle};
use fc_moves::{Game, Kings, read_move};
use fc_position::Position;
use std::process::Abort;

// The jack of clubs, which is neither home nor next, could stand on the queen of hearts.
const JACK_LEFT: &str = "\
    Foundations: H-J C-9 D-K S-Q\n\
    KS\n\
    TC JC\n\
    KH\n\
    QH\n\
    QC\n\
    KC\n";

// Settling makes the moves of this text.
fn check_settles<G: Game>(rt: &impl Abort, game: &G, position: &mut Position, rule: u8, text: &[u8])
    requires { rule ≤ 2 }
{
    let made = settle(game, position, rule);
    must(rt, made.as_slice() == listed_moves(rt, text).as_slice());
}

// The forced card is that of this text, or there is none.
fn check_forced<G: Game>(rt: &impl Abort, game: &G, position: &Position, text: &[u8]) {
    must(rt, forced(game, position) == Card::read(text));
}

// Whether the card of this text is free.
fn check_free<G: Game>(rt: &impl Abort, game: &G, position: &Position, text: &[u8], is_free: bool) {
    must(rt, free(game, position, card(rt, text)) == is_free);
}

// All cards of one column go home by a rule, and then nothing more.
fn check_column(rt: &impl Abort, rule: u8)
    requires { rule ≤ 2 }
{
    let game = free_cell(rt, 4);
    let mut position = board(rt, ONE_COLUMN);
    let made = settle(&game, &mut position, rule);
    must(rt, made.len() == 52);
    let home = read_move(b"1h");
    for m in made.as_slice() {
        must(rt, home == Some(*m));
    }
    must(rt, position.is_won());
    check_forced(rt, &game, &position, b"");
    check_settles(rt, &game, &mut position, rule, b"");
}

#[test]
fn settles_one_column(rt: HostRuntime) {
    let game = free_cell(&rt, 4);
    let mut position = board(&rt, ONE_COLUMN);
    check_forced(&rt, &game, &position, b"AC");
    check_settles(&rt, &game, &mut position, 0, b"");
    must(&rt, position.column(0).len() == 52);
    check_column(&rt, 1);
    check_column(&rt, 2);
}

#[test]
fn finds_forced_cards(rt: HostRuntime) {
    let game = free_cell(&rt, 4);
    let suits = bakers_game(&rt, 4);
    let position = board(&rt, THIRTY_MOVES);
    check_forced(&rt, &game, &position, b"");
    check_forced(&rt, &suits, &position, b"9S");
    check_forced(&rt, &Kings::new(suits.copy()), &position, b"9S");
    check_free(&rt, &game, &position, b"9S", false);
    check_free(&rt, &suits, &position, b"9S", true);
}

// Cards of that board, and whether they are free.
static FREE: [(&[u8], bool); 3] = [(b"KS", true), (b"QH", true), (b"KH", false)];

#[test]
fn settles_free_cards(rt: HostRuntime) {
    let game = free_cell(&rt, 4);
    let mut position = board(&rt, FREE_KING);
    for &(text, is_free) in &FREE {
        check_free(&rt, &game, &position, text, is_free);
    }
    check_settles(&rt, &game, &mut position, 1, b"");
    check_settles(&rt, &game, &mut position, 2, b"1h 1h ah");
    must(&rt, position.is_won());
}

#[test]
fn keeps_cards_that_another_may_need(rt: HostRuntime) {
    let game = free_cell(&rt, 4);
    let mut position = board(&rt, JACK_LEFT);
    check_free(&rt, &game, &position, b"KS", false);
    check_free(&rt, &game, &position, b"QH", false);
    check_forced(&rt, &game, &position, b"");
    check_settles(&rt, &game, &mut position, 2, b"");
    must(&rt, position.column(0).len() == 1);
}

// Four kings go home by a rule, the least first.
fn check_kings(rt: &impl Abort, rule: u8)
    requires { rule ≤ 2 }
{
    let game = free_cell(rt, 4);
    let text = "Foundations: H-Q C-Q D-Q S-Q\nFreecells: KS KH\nKD\nKC\n";
    let mut position = board(rt, text);
    check_forced(rt, &game, &position, b"KC");
    check_settles(rt, &game, &mut position, rule, b"2h 1h bh ah");
    must(rt, position.is_won());
}

#[test]
fn settles_the_least_card_first(rt: HostRuntime) {
    check_kings(&rt, 1);
    check_kings(&rt, 2);
}

// Whether the card of a place of a board goes home by a rule.
fn check_goes<G: Game>(rt: &impl Abort, game: &G, text: &str, rule: u8, place: Place, goes: bool) {
    let rule = HomeRule::new(rule).expect(rt, "a home rule");
    must(
        rt,
        goes_home_from(game, &board(rt, text), rule, place) == goes,
    );
}

// Boards of FreeCell with four cells, a rule, a place, and whether its card goes home.
static PLACES: [(&str, u8, Place, bool); 8] = [
    (ONE_COLUMN, 0, Place::Column(0), false),
    (ONE_COLUMN, 1, Place::Column(0), true),
    (ONE_COLUMN, 1, Place::Column(1), false),
    (ONE_COLUMN, 1, Place::Home, false),
    (THIRTY_MOVES, 1, Place::Column(0), false),
    (FREE_KING, 1, Place::Column(0), false),
    (FREE_KING, 2, Place::Column(0), true),
    (JACK_LEFT, 2, Place::Column(0), false),
];

#[test]
fn tells_what_goes_home_from_a_place(rt: HostRuntime) {
    let game = free_cell(&rt, 4);
    for &(text, rule, place, goes) in &PLACES {
        check_goes(&rt, &game, text, rule, place, goes);
    }
}

#[test]
fn tells_what_goes_home_in_another_game(rt: HostRuntime) {
    let game = bakers_game(&rt, 4);
    check_goes(&rt, &game, THIRTY_MOVES, 1, Place::Column(0), true);
}
