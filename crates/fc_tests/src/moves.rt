//! Games, the moves that they allow, and the texts of moves.

use crate::boards::{THREE_SPADES, TWO_KINGS};
use crate::games::AnySuit;
use crate::given::{bakers_game, board, card, cards, free_cell, listed_moves, must, play};
use fc_cards::Place;
use fc_moves::{
    BakersGame, EitherGame, FreeCell, Game, Kings, Move, allows, move_text, moves, read_move,
};
use fc_position::Position;
use std::process::Abort;

// The allowed moves are those of this text, in its order, and no other move is allowed.
fn check_moves<G: Game>(rt: &impl Abort, game: &G, position: &Position, text: &[u8]) {
    let found = moves(game, position);
    must(rt, found.as_slice() == listed_moves(rt, text).as_slice());
    for m in found.as_slice() {
        must(rt, allows(game, position, *m));
    }
}

// Makes the moves of one text, and then the allowed moves are those of another one.
fn check_then<G: Game>(
    rt: &impl Abort,
    game: &G,
    position: &mut Position,
    played: &[u8],
    allowed: &[u8],
) {
    play(rt, game, position, played);
    check_moves(rt, game, position, allowed);
}

#[test]
fn lists_moves(rt: HostRuntime) {
    let game = free_cell(&rt, 4);
    let mut position = board(&rt, TWO_KINGS);
    let first = b"13 14 15 16 17 18 1a 1b 1c 1d 23 24 25 26 27 28 2a 2b 2c 2d";
    check_moves(&rt, &game, &position, first);
    let second = b"13 14 15 16 17 18 1b 1c 1d 1h 23 24 25 26 27 28 2b 2c 2d a3 a4 a5 a6 a7 a8";
    check_then(&rt, &game, &mut position, b"1a", second);
    check_then(&rt, &game, &mut position, b"1h 2h 2h ah", b"");
    must(&rt, position.is_won());
}

// How many cells there are, and the moves of three spades then.
static FEWER: [(u8, &[u8]); 3] = [
    (0, b"13 14 15 16 17 18 23 24 25 26 27 28"),
    (1, b"13 14 15 16 17 18 1a 23 24 25 26 27 28 2a"),
    (3, b"13 14 15 16 17 18 1a 1b 1c 23 24 25 26 27 28 2a 2b 2c"),
];

#[test]
fn lists_moves_with_fewer_cells(rt: HostRuntime) {
    let spades = board(&rt, THREE_SPADES);
    for &(count, text) in &FEWER {
        check_moves(&rt, &free_cell(&rt, count), &spades, text);
    }
}

#[test]
fn lists_moves_of_kings(rt: HostRuntime) {
    let spades = board(&rt, THREE_SPADES);
    let kings = Kings::new(free_cell(&rt, 0));
    check_moves(&rt, &kings, &spades, b"23 24 25 26 27 28");
    let kings = Kings::new(free_cell(&rt, 1));
    check_moves(&rt, &kings, &spades, b"1a 23 24 25 26 27 28 2a");
}

#[test]
fn lists_moves_of_other_games(rt: HostRuntime) {
    let spades = board(&rt, THREE_SPADES);
    let suits = b"12 13 14 15 16 17 18 23 24 25 26 27 28";
    check_moves(&rt, &bakers_game(&rt, 0), &spades, suits);
    let any =
        b"21 23 24 25 26 27 28 2b 2c 2d 2h 31 35 36 37 38 3b 3c 3d 41 45 46 47 48 4b 4c 4d a1 a3 a4 a5 a6 a7 a8 ah";
    check_then(&rt, &AnySuit, &mut board(&rt, TWO_KINGS), b"13 24 1a", any);
}

// What a game tells: its code, its cells, whether the queen of spades may stand on the king of hearts, whether she may go to
// an empty column, and the cards that may stand on the king of hearts.
#[derive(Clone, Copy)]
struct Told(u8, u8, bool, bool, &'static [u8]);

// This is what a game tells; a king may go to an empty column, and no card may stand on an ace.
fn check_game<G: Game>(rt: &impl Abort, game: &G, told: Told) {
    let Told(code, cells_told, stands, opens, hosts) = told;
    let queen = card(rt, b"QS");
    let king = card(rt, b"KH");
    must(rt, game.code() == code && game.cells() == cells_told);
    must(rt, game.stands(queen, king) == stands);
    must(rt, game.opens(queen) == opens && game.opens(king));
    must(
        rt,
        game.hosts_of(king).as_slice() == cards(rt, hosts).as_slice(),
    );
    must(rt, game.hosts_of(card(rt, b"AD")).len() == 0);
}

#[test]
fn tells_games(rt: HostRuntime) {
    must(&rt, FreeCell::new(5) == None);
    must(&rt, BakersGame::new(5) == None);
    let game = free_cell(&rt, 4);
    check_game(&rt, &game.copy(), Told(0, 4, true, true, b"QC QS"));
    let suits = bakers_game(&rt, 3);
    check_game(&rt, &suits.copy(), Told(1, 3, false, true, b"QH"));
    check_game(
        &rt,
        &AnySuit.copy(),
        Told(200, 4, true, true, b"QC QD QH QS"),
    );
}

#[test]
fn tells_games_of_kings(rt: HostRuntime) {
    let game = Kings::new(free_cell(&rt, 4));
    check_game(&rt, &game, Told(2, 4, true, false, b"QC QS"));
    let suits = Kings::new(bakers_game(&rt, 3));
    check_game(&rt, &suits.copy(), Told(3, 3, false, false, b"QH"));
}

#[test]
fn tells_either_game(rt: HostRuntime) {
    let one: EitherGame<FreeCell, BakersGame> = EitherGame::One(free_cell(&rt, 4));
    check_game(&rt, &one.copy(), Told(0, 4, true, true, b"QC QS"));
    let suits = Kings::new(bakers_game(&rt, 3));
    let other: EitherGame<AnySuit, Kings<BakersGame>> = EitherGame::Other(suits);
    check_game(&rt, &other.copy(), Told(3, 3, false, false, b"QH"));
}

// The text of a move is that from which it is read.
fn check_text(rt: &impl Abort, text: [u8; 2]) {
    let m = read_move(&text).expect(rt, "a move");
    must(rt, move_text(m) == text);
}

// The texts of the moves from a place.
fn check_texts(rt: &impl Abort, from: u8) {
    for to in b"12345678abcdh" {
        check_text(rt, [from, *to]);
    }
}

// No text is that of a move.
fn check_no_moves(rt: &impl Abort, texts: &[&[u8]]) {
    for text in texts {
        must(rt, read_move(text) == None);
    }
}

// A text is that of a move.
fn check_read(rt: &impl Abort, text: &[u8], from: Place, to: Place) {
    must(rt, read_move(text) == Some(Move { from, to }));
}

#[test]
fn reads_moves(rt: HostRuntime) {
    check_no_moves(
        &rt,
        &[
            b"", b"1", b"1aa", b"h1", b"1A", b"9h", b"0h", b"e1", b"1H", b" 1",
        ],
    );
    for from in b"12345678abcd" {
        check_texts(&rt, *from);
    }
    check_read(&rt, b"8d", Place::Column(7), Place::Cell(3));
    let m = Move::default();
    must(&rt, m.from == Place::Home && m.to == Place::Home);
}
