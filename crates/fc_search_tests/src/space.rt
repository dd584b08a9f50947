//! What the core of the search knows of its question.

use crate::given::{board, budget, free_cell, home_rule, must, sure};
use fc_best_first::{Search, Strategy};
use fc_codes::{Code, Layout};
use fc_frontier::ListFrontier;
use fc_moves::FreeCell;
use fc_search::{Method, Positions, Weight};
use fc_tests::boards::TWO_KINGS;
use std::process::Abort;

// A search of a game's positions.
type Core = Search<Code, ListFrontier, Positions<FreeCell>>;

// A search knows its question and the position in which it has begun, whose code is stored at no cost.
fn check_start(rt: &impl Abort, search: &Core) {
    let space = search.space();
    let start = board(rt, &free_cell(rt, 4), TWO_KINGS);
    must(rt, space.start.equals(&start));
    must(rt, space.rules.rule.get() == 1);
    let (code, mark) = search.entry(0).expect(rt, "the start");
    must(rt, *code == Layout::new(&start).start_code());
    must(rt, mark.cost == 0);
}

#[test]
fn a_search_knows_its_question(rt: HostRuntime) {
    let most = budget(&rt, 7);
    let method = Method::shortest(home_rule(&rt, 1), most);
    let game = free_cell(&rt, 4);
    let start = board(&rt, &game, TWO_KINGS);
    let space = Positions::new(game, method, start);
    let strategy = Strategy::full(Weight::ONE, most.into());
    let search: Core = sure(&rt, Search::new(rt.alloc(), space, strategy));
    check_start(&rt, &search);
}
