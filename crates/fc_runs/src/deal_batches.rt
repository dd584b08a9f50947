//! Several numbered deals, whose searches take turns, over any sink.

ghost use Rattle.std.specs.Prelude.{◌≡◌, ◌+◌, ◌<◌, ◌≤◌, ℕ, Some, IfOk, IfErr, OnErr, true, false};
ghost use Rattle.fc_deal.specs.Deal.{IsDealNumber};
ghost use Rattle.fc_methods.specs.Method.{QuestionData};
ghost use Rattle.fc_search.specs.Search.{State};
ghost use Rattle.fc_batch.specs.Batch.{OthersStay, search_at, work_left};
ghost use Rattle.fc_board_runs.specs.Devices.{change};
ghost use Rattle.fc_runs.specs.Batches.{AreCutShort, AreTold, IsAsked, IsBatchedBy, IsBatchFaultBy, IsRightOf, IsUnasked};
ghost use Rattle.fc_runs.specs.inner.Batches.{HaveEnded, HoldsDeals, IsSearchOf};

use crate::best_batches::run_one_by_one;
use fc_answer_text::{line_text, outcome_of, told_status};
use fc_answers::Outcome;
use fc_batch::Batch;
use fc_best_first::{Status, Step};
use fc_board_runs::{Output, ProgramFault};
use fc_deal::{deal, is_deal_number};
use fc_frontier::EitherFrontier;
use fc_io::{Failed, Sink, write_all};
use fc_methods::{Question, Sought};
use fc_moves::Game;
use fc_search::Search;
use std::alloc::Global;

/// The most deals of a batch.
pub const MOST_DEALS: u32 = 32;

/// Answers the question for the deals `from` to `to`, and writes a line for each, rising: its number, and its answer with the number of
/// its moves, which is `won N, at least L` where the list may not be a shortest one, or `want of memory`. By its method their searches
/// take turns, one turn each in rising order again and again, and the lines come at the end. Best answers are searched for one after
/// the other, each within the budget, a line comes as soon as its deal is answered, and where memory is wanted for one deal, the next
/// one goes on. The status is the greatest of theirs: 0 for a solution, 1 where a deal can't be won, 2 on giving up, 4 for want of
/// memory.
///
/// # Errors
/// In this order: a number outside 1 to 1,000,000, `from` before `to`; no deal or more than 32; by the method, want of memory before
/// the first turn; lines that can't be written, of which a front may be. After any other fault nothing is written.
pub fn run_answers<G: Game + Drop, K: Sink>(
    alloc: Global,
    question: &Question<G>,
    from: u32,
    to: u32,
    out: &mut K,
) -> Result<u8, ProgramFault>
    ensures batched { IfOk result (IsBatchedBy question.now.sought question.now from to (change K.held K.has_failed out.old out.new)) }
    ensures fault { IfErr result (IsBatchFaultBy question.now.sought question.now from to (change K.held K.has_failed out.old out.new)) }
{
    match question.sought() {
        Sought::ByMethod => run_in_turns(alloc, question, from, to, out),
        Sought::Best => run_one_by_one(alloc, question, from, to, out),
    }
}

// The same by the question's method, in turns.
fn run_in_turns<G: Game + Drop, K: Sink>(
    alloc: Global,
    question: &Question<G>,
    from: u32,
    to: u32,
    out: &mut K,
) -> Result<u8, ProgramFault>
    ensures batched { IfOk result (IsBatchedBy Sought.ByMethod question.now from to (change K.held K.has_failed out.old out.new)) }
    ensures fault { IfErr result (IsBatchFaultBy Sought.ByMethod question.now from to (change K.held K.has_failed out.old out.new)) }
{
    let count = deals_of(from, to)?;
    let mut batch = begin(alloc, question, from, count)?;
    run_to_end(&mut batch, count as usize);
    match write_lines(&batch, from, count, out) {
        Ok(status) => Ok(status),
        Err(_) => Err(ProgramFault::Write(Output::Answer)),
    }
}

// How many deals are asked for.
pub(crate) fn deals_of(from: u32, to: u32) -> Result<u32, ProgramFault>
    ensures asked { IfOk result (IsAsked from to) }
    ensures fault { IfErr result (IsUnasked from to) }
{
    if !is_deal_number(from) {
        return Err(ProgramFault::Number(from));
    }
    if !is_deal_number(to) {
        return Err(ProgramFault::Number(to));
    }
    if from > to || to - from >= MOST_DEALS {
        return Err(ProgramFault::Range);
    }
    Ok(to - from + 1)
}

// A batch of the searches of so many deals, rising from this one, which have had no turn.
fn begin<G: Game + Drop>(
    alloc: Global,
    question: &Question<G>,
    from: u32,
    count: u32,
) -> Result<Batch<EitherFrontier, G>, ProgramFault>
    requires first { 1 ≤ from }
    requires last { from + count ≤ 1000001 }
    ensures holds { IfOk result (HoldsDeals question.now from count) }
    ensures fault { IfErr result (λ fault. fault ≡ ProgramFault.Memory) }
{
    let mut batch = Batch::new(alloc);
    for i in 0..count {
        let search = search_of(alloc, question, from + i)?;
        let Ok(_) = batch.add(search) else {
            return Err(ProgramFault::Memory);
        };
    }
    Ok(batch)
}

// The search of a deal, which has had no turn.
fn search_of<G: Game + Drop>(
    alloc: Global,
    question: &Question<G>,
    number: u32,
) -> Result<Search<EitherFrontier, G>, ProgramFault>
    requires deal { IsDealNumber number }
    ensures search { IfOk result (IsSearchOf question.now number) }
    ensures fault { IfErr result (λ fault. fault ≡ ProgramFault.Memory) }
{
    let position = deal(number).unwrap();
    match Search::new_by(alloc, question, &position) {
        Ok(search) => Ok(search),
        Err(_) => Err(ProgramFault::Memory),
    }
}

// Turns of the searches with the first numbers, in rising order again and again, until none of them runs.
fn run_to_end<G: Game + Drop>(batch: &mut Batch<EitherFrontier, G>, count: usize)
    ensures held { (q : QuestionData) (from : ℕ) → HoldsDeals q from count batch.old
        → HoldsDeals q from count batch.new }
    ensures ended { HaveEnded count batch.new }
{
    while run_each(batch, count) {}
}

// One turn of each of them; whether one may still run.
fn run_each<G: Game + Drop>(batch: &mut Batch<EitherFrontier, G>, count: usize) -> bool
    ensures held { (q : QuestionData) (from : ℕ) → HoldsDeals q from count batch.old
        → HoldsDeals q from count batch.new }
    ensures ended { result ≡ false → HaveEnded count batch.new }
    ensures most { work_left batch.new ≤ work_left batch.old }
    ensures falls { result ≡ true → work_left batch.new < work_left batch.old }
{
    let mut is_running = false;
    for number in 0..count {
        if take_turn(batch, number) {
            is_running = true;
        }
    }
    is_running
}

// One turn of one search; whether it may still run.
fn take_turn<G: Game + Drop>(batch: &mut Batch<EitherFrontier, G>, number: usize) -> bool
    ensures held { (q : QuestionData) (from count : ℕ) → HoldsDeals q from count batch.old
        → HoldsDeals q from count batch.new }
    ensures others { OthersStay number batch.old batch.new }
    ensures ended { result ≡ false → (s : State) → search_at batch.new number ≡ Some s → s.status ≡ Status.Running → ⊥ }
    ensures most { work_left batch.new ≤ work_left batch.old }
    ensures falls { result ≡ true → work_left batch.new < work_left batch.old }
{
    let Ok(Step::Running) = batch.turn(number) else {
        return false;
    };
    true
}

// Writes a line for each of the deals, whose searches have ended; the greatest status of the lines.
fn write_lines<G: Game + Drop, K: Sink>(
    batch: &Batch<EitherFrontier, G>,
    from: u32,
    count: u32,
    out: &mut K,
) -> Result<u8, Failed>
    requires some { 1 ≤ count }
    requires numbers { from + count ≤ 1000001 }
    ensures told { (q : QuestionData) → HoldsDeals q from count batch.now → HaveEnded count batch.now
        → IfOk result (AreTold (IsRightOf q) from count
        (change K.held K.has_failed out.old out.new)) }
    ensures cut { (q : QuestionData) → HoldsDeals q from count batch.now → HaveEnded count batch.now
        → OnErr result (AreCutShort (IsRightOf q) from count
        (change K.held K.has_failed out.old out.new)) }
{
    let mut greatest = 0;
    for i in 0..count {
        let told = told_of(batch, i as usize);
        let Ok(()) = write_all(out, line_text(from + i, told).as_bytes()) else {
            return Err(Failed);
        };
        greatest = greatest.max(told_status(told));
    }
    Ok(greatest)
}

// What is told of the search with this number, which has ended.
fn told_of<G: Game + Drop>(batch: &Batch<EitherFrontier, G>, number: usize) -> Option<Outcome>
    ensures told { (q : QuestionData) (deal : ℕ) (search : State) → search_at batch.now number ≡ Some search
        → IsSearchOf q deal search → (search.status ≡ Status.Running → ⊥) → IsRightOf q deal result }
{
    match batch.get(number)?.verdict() {
        Ok(verdict) => Some(outcome_of(&verdict)),
        Err(_) => None,
    }
}
