//! Cards above lower ones of their suit, and how the lower bounds lie. What they are is asked of the program, of known boards by
//! `tests/rows/bounds-of-boards.tsv` and of random ones by `tests/plain.py`.

use crate::boards::{DEAL_ONE, THIRTY_MOVES};
use crate::given::{bakers_game, board, free_cell, make, must};
use fc_bound::{
    BoundKind, ColumnTable, Landing, Shown, bound, clearing_bound, is_held_back, knot_bound,
};
use fc_cards::Place;
use fc_moves::{Game, Kings, Move, moves};
use fc_position::Position;
use std::process::Abort;

// The king of spades stands above its queen; the king of clubs, the queen of diamonds and the queen of clubs in the cell
// don't.
#[test]
fn cards_above_lower_ones_of_their_suit(rt: HostRuntime) {
    let text = "\
        Foundations: H-J C-J D-J S-J\n\
        Freecells: QC\n\
        QS KH KS\n\
        QH KC\n\
        KD QD\n";
    let position = board(&rt, text);
    let places = [
        (Place::Column(0), true),
        (Place::Column(1), false),
        (Place::Column(2), false),
        (Place::Column(3), false),
        (Place::Column(8), false),
        (Place::Cell(0), false),
        (Place::Home, false),
    ];
    for &(place, held) in &places {
        must(&rt, is_held_back(&position, place) == held);
    }
}

// Asked for no further than a number, a bound that is at most the number is told, and else one that is more than it and no more
// than the bound.
fn check_within(rt: &impl Abort, kind: BoundKind, whole: u8, position: &Position) {
    for most in 0..=104u8 {
        let told = kind.guide_within(position, most);
        must(rt, told <= whole);
        must(rt, told == whole || told > most);
    }
}

// The knot bound lies between the others.
fn check_bounds(rt: &impl Abort, position: &Position) {
    let (plain, knots) = (bound(position), knot_bound(position));
    must(rt, plain <= knots && knots <= clearing_bound(position));
    check_within(rt, BoundKind::Plain, plain, position);
    check_within(rt, BoundKind::Clearing, knots, position);
}

// What is shown of a board lies between the plain bound and the bound of its kind.
fn lies(rt: &impl Abort, kind: BoundKind, position: &Position, shown: Shown) {
    must(rt, bound(position) <= shown.number);
    must(rt, shown.number <= kind.low(position));
}

// What is shown of a board, and what is plain to see of where a move leads.
fn check_shown(rt: &impl Abort, kind: BoundKind, position: &Position, m: Move, next: &Position) {
    let table = ColumnTable::new(position);
    let most = kind.low(next);
    let shown = kind.shown(position, &table);
    lies(rt, kind, position, shown);
    must(rt, kind.least_after(position, m, shown) <= most);
    if let Some(known) = kind.known_after(position, m, shown) {
        lies(rt, kind, next, known);
    }
    if let Some(landing) = Landing::of(position, m) {
        must(rt, kind.least_by(position, &table, &landing, shown) <= most);
        if let Some(known) = kind.known_by(position, &table, &landing, shown) {
            lies(rt, kind, next, known);
        }
    }
}

// What is shown by either kind where a move is made, and the cards that are held back.
fn check_move(rt: &impl Abort, position: &Position, m: Move, next: &Position) {
    let table = ColumnTable::new(position);
    let card = position.playable(m.from).expect(rt, "a card");
    let is_held = table.held() >> card.index() & 1 != 0;
    must(rt, is_held == is_held_back(position, m.from));
    check_shown(rt, BoundKind::Plain, position, m, next);
    check_shown(rt, BoundKind::Clearing, position, m, next);
}

// The bounds of so many boards, each reached from the one before by a move that is drawn: by the numbers of the generator of C's
// older libraries.
fn check_on_the_way<G: Game>(rt: &impl Abort, game: &G, text: &str, seed: u32) {
    let mut position = board(rt, text);
    let mut state = seed;
    for _ in 0..60u32 {
        check_bounds(rt, &position);
        let list = moves(game, &position);
        state = state.wrapping_mul(1_103_515_245).wrapping_add(12_345);
        let count = list.len().max(1);
        if let Some(m) = list.get((state >> 16) as usize % count) {
            let before = position.copy();
            make(rt, game, &mut position, *m);
            check_move(rt, &before, *m, &position);
        }
    }
}

// Twelve cards in three columns.
const TWELVE: &str = "\
    Foundations: H-T C-T D-T S-T\n\
    KC JD QC QH\n\
    JS KD JH QS\n\
    JC KH QD KS\n";

#[test]
fn bounds_on_random_ways(rt: HostRuntime) {
    for &text in &[DEAL_ONE, THIRTY_MOVES, TWELVE] {
        check_on_the_way(&rt, &free_cell(&rt, 4), text, 800);
        check_on_the_way(&rt, &bakers_game(&rt, 4), text, 900);
        check_on_the_way(&rt, &Kings::new(free_cell(&rt, 4)), text, 1000);
        check_on_the_way(&rt, &Kings::new(bakers_game(&rt, 4)), text, 1100);
    }
}
