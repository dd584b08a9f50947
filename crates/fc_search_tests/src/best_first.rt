//! The search over a question of the tests' own.

ghost use Rattle.std.specs.Prelude.{◌≡◌, [], length, ◌≤◌};
ghost use Rattle.fc_best_first.specs.Store.{Stores};

use crate::best_first_sums::{Sum, Sums};
use crate::given::{great_budget, must, sure};
use fc_best_first::{
    Book, Budget, Expansion, GreatBudget, Mark, Offered, Opening, Search, Status, Step, Strategy,
    Weight,
};
use fc_frontier::{BucketFrontier, EitherFrontier, Frontier, ListFrontier};
use std::alloc::Global;
use std::process::Abort;

// How a search for a goal ends: at this cost; with no way to it; where this sum, met from the one of this number, finds no
// place; or in no such way.
#[derive(Clone, Copy, PartialEq)]
enum End {
    Cost(u32),
    CannotWin,
    GaveUp(u32, u32),
    Other,
}

// A goal and a budget, and how a search ends: how many sums it stores, where that is told, and how many of its turns
// answer `Running`, at least and at most.
struct Row {
    goal: u8,
    budget: u32,
    end: End,
    stored: Option<u32>,
    turns: (u32, u32),
}

fn end_of<F: Frontier + Drop>(search: &Search<Sum, F, Sums>) -> End {
    match search.status() {
        Status::Won(number) => match search.entry(*number) {
            Some((_, mark)) => End::Cost(mark.cost),
            None => End::Other,
        },
        Status::CannotWin => End::CannotWin,
        Status::GaveUp(key, parent) => End::GaveUp(key.value, *parent),
        _ => End::Other,
    }
}

// A search for the goal that has begun, by this expansion.
fn begun<F: Frontier + Drop>(
    rt: &impl Abort,
    alloc: Global,
    expansion: Expansion,
    row: &Row,
) -> Search<Sum, F, Sums> {
    let strategy = Strategy {
        weight: Weight::ONE,
        expansion,
        budget: great_budget(rt, row.budget),
    };
    let space = Sums { goal: row.goal };
    sure(rt, Search::new(alloc, space, strategy))
}

// Takes all turns of a search; how many of them answered `Running`.
fn take_turns<F: Frontier + Drop>(rt: &impl Abort, search: &mut Search<Sum, F, Sums>) -> u32 {
    for turns in 0..1000u32 {
        if sure(rt, search.turn()) == Step::Done {
            return turns;
        }
    }
    rt.panic("a search that doesn't end")
}

// The search has stored what the row tells, the sum 0 first.
fn stores<F: Frontier + Drop>(rt: &impl Abort, search: &Search<Sum, F, Sums>, row: &Row) {
    if let Some(count) = row.stored {
        must(rt, search.len() == count as usize);
        must(rt, search.entry(count).is_none());
    }
    let (first, mark) = search.entry(0).expect(rt, "the sum 0");
    must(rt, first.value == 0 && mark.cost == 0 && mark.parent == 0);
    must(rt, search.strategy().budget.get() == row.budget);
    must(rt, search.space().goal == row.goal);
}

// Searches with this queue by turns, and once more, which changes nothing.
fn ends_by_turns<F: Frontier + Drop>(
    rt: &impl Abort,
    alloc: Global,
    expansion: Expansion,
    row: &Row,
) {
    let mut search: Search<Sum, F, Sums> = begun(rt, alloc, expansion, row);
    let turns = take_turns(rt, &mut search);
    let (least, most) = row.turns;
    must(rt, least <= turns && turns <= most);
    must(rt, search.turn() == Ok(Step::Done));
    must(rt, end_of(&search) == row.end);
    stores(rt, &search, row);
}

// Searches with this queue in one run, and once more, which changes nothing.
fn ends_in_a_run<F: Frontier + Drop>(
    rt: &impl Abort,
    alloc: Global,
    expansion: Expansion,
    row: &Row,
) {
    let mut whole: Search<Sum, F, Sums> = begun(rt, alloc, expansion, row);
    for _ in 0..2 {
        must(rt, whole.run() == Ok(()));
        must(rt, end_of(&whole) == row.end);
    }
}

// Searches with this queue end as the row tells.
fn ends<F: Frontier + Drop>(rt: &impl Abort, alloc: Global, expansion: Expansion, row: &Row) {
    ends_by_turns::<F>(rt, alloc, expansion, row);
    ends_in_a_run::<F>(rt, alloc, expansion, row);
}

// Searches end as the rows tell, with either queue.
fn all_end(rt: &impl Abort, alloc: Global, rows: &[Row]) {
    for row in rows {
        ends::<ListFrontier>(rt, alloc, Expansion::Full, row);
        ends::<BucketFrontier>(rt, alloc, Expansion::Full, row);
    }
}

// 6 is 2 and 4 at a cost of 7; one addend alone costs 9, and it is the first way that is met.
static SIX: [Row; 2] = [
    Row {
        goal: 6,
        budget: 100,
        end: End::Cost(7),
        stored: Some(4),
        turns: (2, 3),
    },
    Row {
        goal: 6,
        budget: 4,
        end: End::Cost(7),
        stored: None,
        turns: (0, 1000),
    },
];

#[test]
fn a_cheaper_way_that_is_met_later_counts(rt: HostRuntime) {
    all_end(&rt, rt.alloc(), SIX.as_slice());
}

// 20 is five times 4 at a cost of 20, and 22 is 2 more at a cost of 23.
static GREATER: [Row; 3] = [
    Row {
        goal: 20,
        budget: 100,
        end: End::Cost(20),
        stored: None,
        turns: (0, 1000),
    },
    Row {
        goal: 22,
        budget: 100,
        end: End::Cost(23),
        stored: None,
        turns: (0, 1000),
    },
    Row {
        goal: 0,
        budget: 1,
        end: End::Cost(0),
        stored: None,
        turns: (0, 0),
    },
];

#[test]
fn the_least_cost_is_found(rt: HostRuntime) {
    all_end(&rt, rt.alloc(), GREATER.as_slice());
}

// No odd sum can be reached: the sums 0, 2, 4, 6 and 8 are stored, and that is all.
static NINE: [Row; 1] = [Row {
    goal: 9,
    budget: 5,
    end: End::CannotWin,
    stored: Some(5),
    turns: (0, 1000),
}];

#[test]
fn an_odd_sum_cannot_be_reached(rt: HostRuntime) {
    all_end(&rt, rt.alloc(), NINE.as_slice());
}

// With room for three sums the third child of 0, the sum 6, finds no place.
static TOO_FEW: [Row; 1] = [Row {
    goal: 6,
    budget: 3,
    end: End::GaveUp(6, 0),
    stored: Some(3),
    turns: (0, 0),
}];

#[test]
fn a_search_gives_up_at_its_budget(rt: HostRuntime) {
    all_end(&rt, rt.alloc(), TOO_FEW.as_slice());
}

// 12 is three times 4, at a cost of 12.
static TWELVE: [Row; 1] = [Row {
    goal: 12,
    budget: 7,
    end: End::Cost(12),
    stored: None,
    turns: (0, 1000),
}];

#[test]
fn a_search_runs_to_its_end(rt: HostRuntime) {
    all_end(&rt, rt.alloc(), TWELVE.as_slice());
}

// By partial expansion a sum is stored once its f is taken. Of 6, 0 stores 4, and puts off 2 and 6; at an f of 7 the sum 4, which is
// nearer than 0, stores 6. Of 8, 4 is followed by 8 at the same f. No odd sum can be reached, so all are stored in the end.
// With room for two sums, 6 finds no place, where it comes from 4.
static PUT_OFF: [Row; 4] = [
    Row {
        goal: 6,
        budget: 3,
        end: End::Cost(7),
        stored: Some(3),
        turns: (3, 3),
    },
    Row {
        goal: 8,
        budget: 3,
        end: End::Cost(8),
        stored: Some(3),
        turns: (2, 2),
    },
    Row {
        goal: 9,
        budget: 5,
        end: End::CannotWin,
        stored: Some(5),
        turns: (5, 1000),
    },
    Row {
        goal: 6,
        budget: 2,
        end: End::GaveUp(6, 1),
        stored: Some(2),
        turns: (2, 2),
    },
];

#[test]
fn sums_of_a_greater_f_are_put_off(rt: HostRuntime) {
    for row in &PUT_OFF {
        ends::<ListFrontier>(&rt, rt.alloc(), Expansion::Partial, row);
        ends::<EitherFrontier>(&rt, rt.alloc(), Expansion::Partial, row);
    }
    for row in &GREATER {
        ends::<EitherFrontier>(&rt, rt.alloc(), Expansion::Partial, row);
    }
}

// A search that has as great a budget as there is.
static GREATEST: Row = Row {
    goal: 1,
    budget: 16_000_000,
    end: End::Other,
    stored: None,
    turns: (0, 0),
};

#[test]
fn a_budget_is_one_to_four_million_or_sixteen(rt: HostRuntime) {
    must(&rt, Budget::new(0).is_none());
    must(&rt, Budget::new(4_000_001).is_none());
    must(&rt, GreatBudget::new(0).is_none());
    must(&rt, GreatBudget::new(16_000_001).is_none());
    let search: Search<Sum, ListFrontier, Sums> = begun(
        &rt,
        rt.alloc(),
        Expansion::Full,
        &GREATEST,
    );
    let is_running = matches!(search.status(), Status::Running);
    must(&rt, is_running);
}

// Adds a sum to a book that doesn't store it; what became of it.
fn added<F: Frontier + Drop>(
    rt: &impl Abort,
    book: &mut Book<Sum, F>,
    strategy: &Strategy,
    value: u32,
    mark: Mark,
    opening: Opening,
) -> Offered<Sum>
    requires low { mark.cost ≤ 1000 }
    requires small { opening.note ≤ 1000 }
    requires room { length book.old.stored ≤ strategy.now.budget }
    ensures stores { Stores strategy.now book.old book.new (record { key = value; mark = mark; opening = opening }) result }
{
    // Its range, by which each sum has a number.
    let _ = strategy.budget.get();
    let key = Sum { value };
    let is_new = book.find(&key).is_none();
    must(rt, is_new);
    sure(rt, book.add(strategy, key, mark, opening))
}

// A key is added, found and lowered, and one more finds no place.
fn offer_two<F: Frontier + Drop>(rt: &impl Abort, book: &mut Book<Sum, F>)
    requires empty { book.old.stored ≡ [] }
{
    let one = Strategy::full(Weight::ONE, great_budget(rt, 1));
    let above = Opening {
        over: 2,
        bound: 2,
        note: 7,
    };
    let dear = Mark { cost: 9, parent: 3 };
    let cheap = Mark { cost: 7, parent: 5 };
    must(
        rt,
        matches!(added(rt, book, &one, 40, dear, above), Offered::Added),
    );
    must(rt, book.len() == 1);
    must(rt, book.find(&Sum { value: 40 }) == Some((0, dear)));
    sure(rt, book.lower(&one, 0, cheap, above));
    must(rt, book.len() == 1);
    must(rt, book.find(&Sum { value: 40 }) == Some((0, cheap)));
    let last = added(rt, book, &one, 41, cheap, above);
    must(rt, matches!(last, Offered::Full(Sum { value: 41 })));
}

// The first key alone is stored, at less; the two pairs are open, the lesser first.
fn one_place<F: Frontier + Drop>(rt: &impl Abort, alloc: Global) {
    let mut book: Book<Sum, F> = Book::new(
        alloc,
        &Strategy::full(Weight::ONE, great_budget(rt, 1)),
    );
    offer_two(rt, &mut book);
    let (key, mark) = book.entry(0).expect(rt, "the key 40");
    must(rt, key.value == 40 && mark.cost == 7 && mark.parent == 5);
    must(rt, book.len() == 1 && book.entry(1).is_none());
    must(rt, book.take() == Some((9, 0)));
    must(rt, book.take() == Some((11, 0)));
    must(rt, book.take() == None);
}

#[test]
fn a_book_with_one_place(rt: HostRuntime) {
    one_place::<ListFrontier>(&rt, rt.alloc());
    one_place::<BucketFrontier>(&rt, rt.alloc());
}
