//! Batches of searches: turns by numbers, what they reply, and what is told of each search; and one of which a growth may be
//! refused.

ghost use Rattle.fc_answers.specs.Verdict.{CanBeWritten};

use crate::given::{board, expanded, free_cell, method, must, sure};
use fc_answer_text::outcome_of;
use fc_answers::Outcome;
use fc_batch::Batch;
use fc_bound::BoundKind;
use fc_frontier::{BucketFrontier, EitherFrontier, Frontier};
use fc_moves::FreeCell;
use fc_search::{Answer, Expansion, Question, Search, SearchFault, Sought, Step};
use fc_tests::boards::{LOCKED, QUEEN_UNDER_KING, THREE_KINGS, TWO_KINGS};
use std::alloc::Global;
use std::process::Abort;

static BOARDS: [&str; 4] = [QUEEN_UNDER_KING, TWO_KINGS, LOCKED, THREE_KINGS];

static OUTCOMES: [Outcome; 4] = [
    Outcome::Shortest(3),
    Outcome::Shortest(5),
    Outcome::CannotWin,
    Outcome::Shortest(5),
];

// A search of a board under the first home rule, with a budget of 100.
fn search_of<F: Frontier + Drop>(
    rt: &impl Abort,
    alloc: Global,
    text: &str,
) -> Search<F, FreeCell> {
    let game = free_cell(rt, 4);
    let start = board(rt, &game, text);
    sure(rt, Search::new(alloc, &game, 1, &start, 100))
}

// A batch of searches of boards, by their places in the list.
fn batch_of<F: Frontier + Drop>(
    rt: &impl Abort,
    alloc: Global,
    boards: &[&str],
) -> Batch<F, FreeCell> {
    let mut batch = Batch::new(alloc);
    for i in 0..boards.len() {
        let number = sure(rt, batch.add(search_of(rt, alloc, boards[i])));
        must(rt, number == i);
    }
    batch
}

// The search with this number is done, and its answer and its verdict tell this.
fn check_told<F: Frontier + Drop>(
    rt: &impl Abort,
    batch: &Batch<F, FreeCell>,
    number: usize,
    told: Outcome,
) {
    let search = batch.get(number).expect(rt, "a search");
    let verdict = sure(rt, search.verdict());
    must(rt, outcome_of(&verdict) == told);
    let answer = sure(rt, search.answer());
    must(rt, outcome_of(&answer.verdict) == told);
    must(rt, answer.table.is_some());
}

// Nothing is told of the search with this number, which isn't done.
fn check_untold<F: Frontier + Drop>(rt: &impl Abort, batch: &Batch<F, FreeCell>, number: usize) {
    let search = batch.get(number).expect(rt, "a search");
    let fault = search.answer().err();
    must(rt, fault == Some(SearchFault::NotDone));
    let fault = search.verdict().err();
    must(rt, fault == Some(SearchFault::NotDone));
}

// A turn for a number, and its reply.
struct Turn {
    number: usize,
    reply: Result<Step, SearchFault>,
}

static TURNS: [Turn; 7] = [
    Turn {
        number: 2,
        reply: Ok(Step::Running),
    },
    Turn {
        number: 2,
        reply: Ok(Step::Done),
    },
    Turn {
        number: 0,
        reply: Ok(Step::Running),
    },
    Turn {
        number: 1,
        reply: Ok(Step::Running),
    },
    Turn {
        number: 0,
        reply: Ok(Step::Done),
    },
    Turn {
        number: 1,
        reply: Ok(Step::Running),
    },
    Turn {
        number: 3,
        reply: Err(SearchFault::NoSuch),
    },
];

// Turns for the numbers of the list, again and again, until none of their searches runs.
fn run_by<F: Frontier + Drop>(rt: &impl Abort, batch: &mut Batch<F, FreeCell>, list: &[usize]) {
    for _ in 0..1000u32 {
        if batch.turns(list) == 0 {
            return;
        }
    }
    must(rt, false);
}

// The searches with the numbers below this one are done, each with its own outcome.
fn check_outcomes<F: Frontier + Drop>(rt: &impl Abort, batch: &Batch<F, FreeCell>, end: usize) {
    for (number, told) in OUTCOMES.iter().enumerate().take(end) {
        check_told(rt, batch, number, *told);
    }
}

// Turns for one search of three at a time, and their replies.
fn check_turns<F: Frontier + Drop>(rt: &impl Abort, batch: &mut Batch<F, FreeCell>) {
    for turn in TURNS.as_slice() {
        let reply = batch.turn(turn.number);
        must(rt, reply == turn.reply);
    }
}

// Three searches that are taken turn by turn, and then run to their ends.
fn take_turns<F: Frontier + Drop>(rt: &impl Abort, alloc: Global) {
    let mut batch: Batch<F, FreeCell> = batch_of(rt, alloc, &BOARDS[..3]);
    for number in 0..3 {
        check_untold(rt, &batch, number);
    }
    check_turns(rt, &mut batch);
    run_by(rt, &mut batch, &[1]);
    check_outcomes(rt, &batch, 3);
    must(rt, batch.turn(2) == Ok(Step::Done));
    check_told(rt, &batch, 2, Outcome::CannotWin);
}

#[test]
fn searches_take_turns(rt: HostRuntime) {
    take_turns::<BucketFrontier>(&rt, rt.alloc());
}

// The first search of a batch is taken out, and has no turn from then on.
fn take_first<F: Frontier + Drop>(rt: &impl Abort, batch: &mut Batch<F, FreeCell>) {
    must(rt, batch.take(0).is_some());
    must(rt, batch.turn(0) == Err(SearchFault::NoSuch));
    must(rt, batch.take(0).is_none());
}

// A search that is put in has a number of its own.
fn add_one<F: Frontier + Drop>(rt: &impl Abort, alloc: Global, batch: &mut Batch<F, FreeCell>) {
    let number = sure(rt, batch.add(search_of(rt, alloc, LOCKED)));
    must(rt, number == 3);
}

#[test]
fn numbers_are_given_once(rt: HostRuntime) {
    let mut batch: Batch<BucketFrontier, FreeCell> = batch_of(&rt, rt.alloc(), &BOARDS[..3]);
    take_first(&rt, &mut batch);
    add_one(&rt, rt.alloc(), &mut batch);
    must(&rt, batch.get(0).is_none());
}

// Turns for many numbers, and how many of them replied `Running`.
fn count_replies<F: Frontier + Drop>(rt: &impl Abort, alloc: Global) {
    let mut batch: Batch<F, FreeCell> = batch_of(rt, alloc, &BOARDS[..3]);
    must(rt, batch.turns(&[2, 2, 0, 1, 7, 0, 1]) == 4);
    must(rt, batch.turns(&[]) == 0);
}

#[test]
fn replies_are_counted(rt: HostRuntime) {
    count_replies::<BucketFrontier>(&rt, rt.alloc());
}

// By these turns each search ends with its own outcome.
fn check_order<F: Frontier + Drop>(rt: &impl Abort, alloc: Global, list: &[usize]) {
    let mut batch: Batch<F, FreeCell> = batch_of(rt, alloc, BOARDS.as_slice());
    run_by(rt, &mut batch, list);
    check_outcomes(rt, &batch, 4);
}

#[test]
fn the_order_of_turns_changes_nothing(rt: HostRuntime) {
    check_order::<BucketFrontier>(&rt, rt.alloc(), &[0, 1, 2, 3]);
    check_order::<BucketFrontier>(&rt, rt.alloc(), &[3, 3, 1, 0, 2, 3]);
}

// By which bound and expansion the searches go, by their numbers.
const KINDS: [(BoundKind, Expansion); 3] = [
    (BoundKind::Plain, Expansion::Full),
    (BoundKind::Clearing, Expansion::Partial),
    (BoundKind::Plain, Expansion::Partial),
];

// The question of the search that is to have this number.
fn question_of(rt: &impl Abort, wanted: usize) -> Question<FreeCell> {
    let (bound, expansion) = KINDS[wanted % KINDS.len()];
    let asked = expanded(method(rt, 1, 10, bound, 100), expansion);
    Question::new(&free_cell(rt, 4), Sought::ByMethod, asked)
}

// The search of a board that is to have this number, if need be at the second try.
fn begun<F: Frontier + Drop>(
    rt: &impl Abort,
    alloc: Global,
    text: &str,
    wanted: usize,
) -> Search<F, FreeCell> {
    let question = question_of(rt, wanted);
    let start = board(rt, question.game(), text);
    match Search::new_by(alloc, &question, &start) {
        Ok(search) => search,
        Err(_refused) => sure(rt, Search::new_by(alloc, &question, &start)),
    }
}

// Adds a search under this number, if need be at the second try.
fn add<F: Frontier + Drop>(
    rt: &impl Abort,
    batch: &mut Batch<F, FreeCell>,
    search: Search<F, FreeCell>,
    wanted: usize,
) {
    let number = match batch.add(search) {
        Ok(number) => number,
        Err(search) => {
            must(rt, batch.get(wanted).is_none());
            sure(rt, batch.add(search))
        }
    };
    must(rt, number == wanted);
}

// The search with this number has no answer, since it was stopped.
fn check_unanswered<F: Frontier + Drop>(
    rt: &impl Abort,
    batch: &Batch<F, FreeCell>,
    number: usize,
) {
    let search = batch.get(number).expect(rt, "a search");
    must(rt, search.answer().err() == Some(SearchFault::Stopped));
}

// The search with this number was stopped, and stays so.
fn check_stopped<F: Frontier + Drop>(
    rt: &impl Abort,
    batch: &mut Batch<F, FreeCell>,
    number: usize,
) {
    for _ in 0..2u32 {
        must(rt, batch.turn(number) == Err(SearchFault::Stopped));
        check_unanswered(rt, batch, number);
    }
}

// Turns of a search until it is done or stopped: whether it is done.
fn run<F: Frontier + Drop>(rt: &impl Abort, batch: &mut Batch<F, FreeCell>, number: usize) -> bool {
    for _ in 0..1000u32 {
        match batch.turn(number) {
            Ok(Step::Running) => {}
            Ok(Step::Done) => return true,
            Err(fault) => {
                must(rt, fault == SearchFault::Memory);
                check_stopped(rt, batch, number);
                return false;
            }
        }
    }
    rt.panic("a search that doesn't end")
}

// The answer of a search that is done, if need be at the second try.
fn answer<F: Frontier + Drop>(rt: &impl Abort, batch: &Batch<F, FreeCell>, number: usize) -> Answer
    ensures written { CanBeWritten result.verdict }
{
    let search = batch.get(number).expect(rt, "a search");
    match search.answer() {
        Ok(answer) => answer,
        Err(fault) => {
            must(rt, fault == SearchFault::Memory);
            sure(rt, search.answer())
        }
    }
}

// A batch of three searches.
fn batch_of_three<F: Frontier + Drop>(rt: &impl Abort, alloc: Global) -> Batch<F, FreeCell> {
    let mut batch = Batch::new(alloc);
    for number in 0..3 {
        let search = begun(rt, alloc, BOARDS[number], number);
        add(rt, &mut batch, search, number);
    }
    batch
}

// Runs a search, which is answered, or was stopped and is taken out: whether it was stopped.
fn is_stopped<F: Frontier + Drop>(
    rt: &impl Abort,
    batch: &mut Batch<F, FreeCell>,
    number: usize,
    outcome: Outcome,
) -> bool {
    if run(rt, batch, number) {
        let told = answer(rt, batch, number);
        must(rt, outcome_of(&told.verdict) == outcome);
        return false;
    }
    must(rt, batch.take(number).is_some());
    true
}

// At most one search of a batch is stopped.
fn at_most_one_is_stopped<F: Frontier + Drop>(rt: &impl Abort, alloc: Global) {
    let mut batch: Batch<F, FreeCell> = batch_of_three(rt, alloc);
    let mut stopped = 0u32;
    for number in [2, 0, 1] {
        if is_stopped(rt, &mut batch, number, OUTCOMES[number]) {
            stopped = stopped.saturating_add(1);
        }
    }
    must(rt, stopped <= 1);
}

// The search that a refusal stops stops alone. A case of the gate runs this once for each growth, that one refused; here none
// is.
#[test]
fn a_search_is_stopped_alone(rt: HostRuntime) {
    at_most_one_is_stopped::<EitherFrontier>(&rt, rt.alloc());
}
