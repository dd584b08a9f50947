//! The moves that lead to different classes.

use crate::boards::{LOCKED, LONE_SPADES, TWO_KINGS, WITH_CELLS};
use crate::given::{bakers_game, board, free_cell, make, must};
use fc_canonical::{Key, distinct_moves, find_move, key};
use fc_cards::Place;
use fc_moves::{Game, Kings, Move, allows, moves};
use fc_position::Position;
use std::process::Abort;

// The key of the position that an allowed move leads to.
fn key_after<G: Game>(rt: &impl Abort, game: &G, position: &Position, m: Move) -> Key {
    let mut next = position.copy();
    make(rt, game, &mut next, m);
    key(&next)
}

#[test]
fn finds_moves(rt: HostRuntime) {
    let game = free_cell(&rt, 4);
    let position = board(&rt, TWO_KINGS);
    let m = Move {
        from: Place::Column(0),
        to: Place::Cell(2),
    };
    let next = key_after(&rt, &game, &position, m);
    let found = find_move(&game, &position, &next).expect(&rt, "a move");
    must(&rt, found.from == Place::Column(0));
    must(&rt, matches!(found.to, Place::Cell(_)));
    must(&rt, find_move(&game, &position, &key(&position)) == None);
}

// A board has so many allowed moves, and so many of its distinct moves are listed.
fn check_counts(rt: &impl Abort, text: &str, cells: u8, all: usize, distinct: usize) {
    let game = free_cell(rt, cells);
    let position = board(rt, text);
    must(rt, moves(&game, &position).len() == all);
    must(rt, distinct_moves(&game, &position).len() == distinct);
}

#[test]
fn lists_distinct_moves(rt: HostRuntime) {
    check_counts(&rt, TWO_KINGS, 4, 20, 4);
    check_counts(&rt, LONE_SPADES, 0, 16, 2);
    let none = free_cell(&rt, 0);
    let lone = board(&rt, LONE_SPADES);
    let stays = find_move(&none, &lone, &key(&lone));
    for m in distinct_moves(&none, &lone).as_slice() {
        must(&rt, stays == Some(*m) || m.to == Place::Home);
    }
}

// Whether a move leads to a class to which none of these moves leads.
fn is_first<G: Game>(
    rt: &impl Abort,
    game: &G,
    position: &Position,
    earlier: &[Move],
    m: Move,
) -> bool {
    let end = key_after(rt, game, position, m);
    for old in earlier {
        if key_after(rt, game, position, *old).as_slice() == end.as_slice() {
            return false;
        }
    }
    true
}

// The list of distinct moves has, of all allowed moves in their order, each that leads to a class to which none before
// it leads.
fn check_distinct<G: Game>(rt: &impl Abort, game: &G, position: &Position) {
    let distinct = distinct_moves(game, position);
    let mut kept = 0;
    for m in moves(game, position).as_slice() {
        let earlier = distinct.as_slice().get(..kept).expect(rt, "kept moves");
        if is_first(rt, game, position, earlier, *m) {
            must(rt, distinct.get(kept).copied() == Some(*m));
            kept += 1;
        }
    }
    must(rt, distinct.len() == kept);
}

// The same for some games.
fn check_distinct_in_games(rt: &impl Abort, position: &Position) {
    check_distinct(rt, &free_cell(rt, 4), position);
    check_distinct(rt, &free_cell(rt, 1), position);
    check_distinct(rt, &bakers_game(rt, 3), position);
    check_distinct(rt, &Kings::new(free_cell(rt, 4)), position);
    check_distinct(rt, &Kings::new(bakers_game(rt, 3)), position);
}

#[test]
fn lists_the_first_move_to_each_class(rt: HostRuntime) {
    let full = "\
        Foundations: H-9 C-9 D-9 S-9\n\
        KC TD\n\
        JS KD\n\
        QS TH\n\
        JH QC\n\
        JC KH\n\
        JD TS\n\
        QD KS\n\
        TC QH\n";
    let texts = [
        TWO_KINGS,
        LOCKED,
        full,
        LONE_SPADES,
        "Foundations: H-J C-K D-K S-J\nQS\nKH\n:\nKS\nQH\n",
        WITH_CELLS,
        "Foundations: H-K C-K D-J S-T\nFreecells: - - - JS\nKS\n:\nQD KD\nQS\n",
    ];
    for text in texts {
        check_distinct_in_games(&rt, &board(&rt, text));
    }
}

// A position of the class with this key, from which the last card of the eighth column may go to the one cell of a game
// exactly where the position doesn't fit the game.
fn check_king(rt: &impl Abort, position: &Position, class: &Key, is_allowed: bool) {
    let into_cell = Move {
        from: Place::Column(7),
        to: Place::Cell(0),
    };
    must(rt, key(position).as_slice() == class.as_slice());
    must(rt, position.fits(1) != is_allowed);
    must(
        rt,
        allows(&free_cell(rt, 1), position, into_cell) == is_allowed,
    );
}

// Two boards of one class, of which one doesn't fit a game of one cell, where columns are opened by kings alone: a king
// in a cell that the game lacks leaves the game's own cell to another card.
#[test]
fn boards_that_do_not_fit_step_otherwise(rt: HostRuntime) {
    let fits = "\
        Foundations: H-T C-T D-T S-T\n\
        Freecells: KH\n\
        JC\n\
        JD\n\
        JH\n\
        JS\n\
        QC\n\
        QD\n\
        QH\n\
        KD KC KS QS\n";
    let other = "\
        Foundations: H-T C-T D-T S-T\n\
        Freecells: - KH\n\
        JC\n\
        JD\n\
        JH\n\
        JS\n\
        QC\n\
        QD\n\
        QH\n\
        KD KC KS QS\n";
    let class = key(&board(&rt, fits));
    check_king(&rt, &board(&rt, fits), &class, false);
    check_king(&rt, &board(&rt, other), &class, true);
}
