//! Searches that are taken turn by turn, with each of the queues, one of the tests' own among them; those that want no list of
//! so many moves as a limit; and budgets with which none begins.

use crate::given::{board, check_wins, expanded, free_cell, method, must, sure};
use fc_answer_text::outcome_of;
use fc_answers::Outcome;
use fc_frontier::{BucketFrontier, EitherFrontier, Frontier, ListFrontier};
use fc_moves::FreeCell;
use fc_search::{
    BoundKind, Expansion, MOST_BUDGET, Method, Question, Search, SearchFault, Sought, Step,
    Verdict, Weight, solve,
};
use fc_tests::boards::{
    CLASSES_495, FREE_KING, LOCKED, ONE_COLUMN, QUEEN_UNDER_KING, THIRTY_MOVES, THREE_KINGS,
    TWO_KINGS,
};
use fc_tests::queues::OldestFirst;
use std::alloc::Global;
use std::process::Abort;

// There is no answer while a search isn't done.
fn check_unanswered<F: Frontier + Drop>(rt: &impl Abort, search: &Search<F, FreeCell>) {
    let fault = search.answer().err();
    must(rt, fault == Some(SearchFault::NotDone));
}

// Takes turns until the search is done, and no answer comes before, nor a greater floor than this; how many of them answered
// `Running`.
fn take_turns<F: Frontier + Drop>(
    rt: &impl Abort,
    search: &mut Search<F, FreeCell>,
    most: u32,
) -> u32 {
    for turn in 0..100_000u32 {
        must(rt, search.at_least() <= most);
        if is_done(rt, search) {
            return turn;
        }
    }
    rt.panic("a search that doesn't end")
}

// Takes a turn of a search that has no answer yet; whether it is done.
fn is_done<F: Frontier + Drop>(rt: &impl Abort, search: &mut Search<F, FreeCell>) -> bool {
    check_unanswered(rt, search);
    sure(rt, search.turn()) == Step::Done
}

// In tenths.
const WEIGHTS: [u8; 5] = [10, 13, 20, 30, 100];

// A board of FreeCell with four cells, the moves of a shortest list, if any wins, a home rule, and a bound; and what a search says
// before its first turn by each of the weights: the home moves at its beginning, weighed, over how often a bound counts, rounded
// up, and the bound of the board after them; and how many turns answer `Running` at least.
struct Known {
    text: &'static str,
    shortest: Option<u32>,
    rule: u8,
    bound: BoundKind,
    least: [u32; 5],
    turns: u32,
}

static KNOWN: [Known; 9] = [
    Known {
        text: TWO_KINGS,
        shortest: Some(5),
        rule: 0,
        bound: BoundKind::Plain,
        least: [4, 4, 4, 4, 4],
        turns: 2,
    },
    Known {
        text: TWO_KINGS,
        shortest: Some(5),
        rule: 1,
        bound: BoundKind::Plain,
        least: [4, 4, 4, 4, 4],
        turns: 2,
    },
    Known {
        text: TWO_KINGS,
        shortest: Some(5),
        rule: 1,
        bound: BoundKind::Clearing,
        least: [5, 5, 5, 5, 5],
        turns: 0,
    },
    Known {
        text: FREE_KING,
        shortest: Some(3),
        rule: 1,
        bound: BoundKind::Plain,
        least: [3, 3, 3, 3, 3],
        turns: 0,
    },
    // All three cards go home at once.
    Known {
        text: FREE_KING,
        shortest: Some(3),
        rule: 2,
        bound: BoundKind::Clearing,
        least: [3, 3, 2, 1, 1],
        turns: 0,
    },
    // Two kings go home at once, and a king is left above her queen.
    Known {
        text: THREE_KINGS,
        shortest: Some(5),
        rule: 2,
        bound: BoundKind::Plain,
        least: [5, 5, 4, 4, 4],
        turns: 0,
    },
    Known {
        text: ONE_COLUMN,
        shortest: Some(52),
        rule: 0,
        bound: BoundKind::Plain,
        least: [52, 52, 52, 52, 52],
        turns: 0,
    },
    Known {
        text: LOCKED,
        shortest: None,
        rule: 1,
        bound: BoundKind::Clearing,
        least: [36, 36, 36, 36, 36],
        turns: 0,
    },
    Known {
        text: CLASSES_495,
        shortest: None,
        rule: 1,
        bound: BoundKind::Plain,
        least: [84, 84, 84, 84, 84],
        turns: 0,
    },
];

// Whether an outcome by a weight is right where a shortest list has so many moves: it is told as a shortest one by weight 1 alone.
fn is_within(told: Outcome, weight: Weight, shortest: u32) -> bool {
    match told {
        Outcome::Shortest(moves) => weight == Weight::ONE && moves == shortest,
        Outcome::Won { moves, floor } => {
            let weighed = moves.saturating_mul(u32::from(weight.parts()));
            let most = shortest.saturating_mul(u32::from(weight.times()));
            weight != Weight::ONE && floor <= shortest && shortest <= moves && weighed <= most
        }
        _ => false,
    }
}

// What a search tells at its end is right of a board.
fn check_told(rt: &impl Abort, told: Outcome, weight: Weight, known: &Known) {
    match known.shortest {
        Some(moves) => must(rt, is_within(told, weight, moves)),
        None => must(rt, told == Outcome::CannotWin),
    }
}

// The list of a verdict, if there is one, wins.
fn check_list(rt: &impl Abort, verdict: &Verdict, known: &Known) {
    let game = free_cell(rt, 4);
    let start = board(rt, &game, known.text);
    match verdict {
        Verdict::Shortest(list) => check_wins(rt, &game, &start, list),
        Verdict::Won { moves, .. } => check_wins(rt, &game, &start, moves),
        _ => {}
    }
}

// A search of a board by a method says so much before its first turn, never more than a shortest list has moves, and as much as it
// has where it tells one; once it is done it stays so.
fn check_search<F: Frontier + Drop>(
    rt: &impl Abort,
    alloc: Global,
    method: Method,
    known: &Known,
    least: u32,
) {
    let game = free_cell(rt, 4);
    let start = board(rt, &game, known.text);
    let question = Question::new(&game, Sought::ByMethod, method);
    let weight = question.method().strategy.weight;
    let mut search: Search<F, FreeCell> = sure(rt, Search::new_by(alloc, &question, &start));
    must(rt, search.at_least() == least);
    let turns = take_turns(rt, &mut search, known.shortest.unwrap_or(u32::MAX));
    must(rt, turns >= known.turns && search.turn() == Ok(Step::Done));
    must(rt, search.run() == Ok(()));
    let verdict = sure(rt, search.verdict());
    check_told(rt, outcome_of(&verdict), weight, known);
    check_list(rt, &verdict, known);
    if let Verdict::Shortest(list) = &verdict {
        must(rt, search.at_least() as usize == list.len());
    }
}

// Searches of a board by each weight and either expansion.
fn check_known<F: Frontier + Drop>(rt: &impl Abort, alloc: Global, known: &Known) {
    for i in 0..WEIGHTS.len() {
        let full = method(rt, known.rule, WEIGHTS[i], known.bound, 10_000);
        check_search::<F>(rt, alloc, full, known, known.least[i]);
        let full = method(rt, known.rule, WEIGHTS[i], known.bound, 10_000);
        let partial = expanded(full, Expansion::Partial);
        check_search::<F>(rt, alloc, partial, known, known.least[i]);
    }
}

#[test]
fn known_boards_with_each_queue(rt: HostRuntime) {
    for known in &KNOWN {
        check_known::<ListFrontier>(&rt, rt.alloc(), known);
        check_known::<OldestFirst>(&rt, rt.alloc(), known);
        check_known::<BucketFrontier>(&rt, rt.alloc(), known);
        check_known::<EitherFrontier>(&rt, rt.alloc(), known);
    }
}

// A board of FreeCell with four cells, and how many moves win it at least, where it can be won.
static BOARDS: [(&str, Option<u32>); 3] = [
    (THIRTY_MOVES, Some(30)),
    (TWO_KINGS, Some(5)),
    (LOCKED, None),
];

// Limits of how many moves.
static LIMITS: [Option<u32>; 7] = [
    None,
    Some(31),
    Some(30),
    Some(29),
    Some(6),
    Some(5),
    Some(1),
];

// A search has a verdict exactly where it has no limit.
fn has_verdict(
    rt: &impl Abort,
    search: &Search<EitherFrontier, FreeCell>,
    limit: Option<u32>,
) -> bool {
    match search.verdict() {
        Ok(_) => limit.is_none(),
        Err(fault) => {
            must(rt, fault == SearchFault::Limited);
            limit.is_some()
        }
    }
}

// A shortest list is found where it is below the limit, and is as long as what is shown; else the limit is shown.
fn finds_below(
    rt: &impl Abort,
    alloc: Global,
    method: Method,
    text: &str,
    shortest: Option<u32>,
    limit: Option<u32>,
) {
    let game = free_cell(rt, 4);
    let start = board(rt, &game, text);
    let question = Question::new(&game, Sought::ByMethod, method);
    let mut search: Search<EitherFrontier, FreeCell> = sure(
        rt,
        Search::below(alloc, &question, &start, limit),
    );
    must(rt, search.run() == Ok(()));
    let wanted = match (shortest, limit) {
        (Some(moves), Some(limit)) if limit <= moves => None,
        _ => shortest,
    };
    match (sure(rt, search.found()), wanted) {
        (Some(list), Some(moves)) => {
            check_wins(rt, &game, &start, &list);
            must(rt, list.len() == moves as usize);
        }
        (None, None) => {}
        _ => rt.panic("another list"),
    }
    must(rt, search.shown() == wanted.or(limit));
    must(rt, has_verdict(rt, &search, limit));
}

// The same below each limit, by this bound and expansion.
fn finds_below_limits(
    rt: &impl Abort,
    alloc: Global,
    bound: BoundKind,
    expansion: Expansion,
    text: &str,
    shortest: Option<u32>,
) {
    for &limit in &LIMITS {
        let asked = expanded(method(rt, 1, 10, bound, 10_000), expansion);
        finds_below(rt, alloc, asked, text, shortest, limit);
    }
}

#[test]
fn lists_below_a_limit_are_found(rt: HostRuntime) {
    for &bound in &[BoundKind::Plain, BoundKind::Clearing] {
        for &(text, shortest) in &BOARDS {
            finds_below_limits(&rt, rt.alloc(), bound, Expansion::Full, text, shortest);
            finds_below_limits(&rt, rt.alloc(), bound, Expansion::Partial, text, shortest);
        }
    }
}

#[test]
fn budgets_out_of_range(rt: HostRuntime) {
    must(&rt, MOST_BUDGET == 4_000_000);
    let game = free_cell(&rt, 4);
    let start = board(&rt, &game, QUEEN_UNDER_KING);
    for budget in [0, MOST_BUDGET + 1] {
        let fault = solve(rt.alloc(), &game, 1, &start, budget).err();
        must(&rt, fault == Some(SearchFault::Budget));
        let search: Result<Search<ListFrontier, FreeCell>, SearchFault> = Search::new(
            rt.alloc(),
            &game,
            1,
            &start,
            budget,
        );
        must(&rt, search.err() == Some(SearchFault::Budget));
    }
}
