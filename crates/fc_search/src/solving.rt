//! Searches that run to their end.

ghost use Rattle.std.specs.Prelude.{◌≡◌, ◌≤◌, IfOk, IfErr, OnOk};
ghost use Rattle.fc_position.specs.Position.{Fits};
ghost use Rattle.fc_best_first.specs.Limits.{IsBudget};
ghost use Rattle.fc_best_first.specs.Search.{reply_of};
ghost use Rattle.fc_search.specs.Problem.{problem_below, problem_of, shortest_from};
ghost use Rattle.fc_search.specs.Search.{Answers, IsOfStatus, IsOneOfThree, IsRefused, IsVerdict, IsRunToEnd, HasRun};
ghost use Rattle.fc_search.specs.Watch.{HearsSearch, HearsToVerdict};

use crate::listeners::Listener;
use crate::position_searches::Search;
use crate::watches::watch;
use fc_answers::{Answer, Verdict};
use fc_best_first::{SearchFault, Step};
use fc_frontier::{EitherFrontier, Frontier};
use fc_home::GREATEST_RULE;
use fc_methods::{HomeRule, Question};
use fc_moves::Game;
use fc_position::Position;
use std::alloc::{AllocError, Global};

/// The answer of a question for a position that fits its game, of a search that runs to its end. The listener hears how far
/// the search is after each stretch of turns, and once when it ends, also where memory ends it.
///
/// # Errors
/// A growth was refused.
pub fn solve_by<G: Game + Drop, L: Listener>(
    alloc: Global,
    question: &Question<G>,
    position: &Position,
    listener: &mut L,
) -> Result<Answer, AllocError>
    requires fits { Fits question.now.game.cells position.now }
    ensures answers { IfOk result (Answers (problem_of question.now position.now)) }
    ensures ran { IfOk result (λ answer. IsRunToEnd (problem_of question.now position.now) answer.verdict) }
    ensures heard { HearsToVerdict L.hears (problem_of question.now position.now) result (λ answer. answer.verdict) listener.old listener.new }
{
    solve_with::<EitherFrontier, G, L>(alloc, question, position, listener)
}

/// The verdict of such a search, as `solve_by` gives its answer, with no table made. It is heard as that of `solve_by` is.
///
/// # Errors
/// A growth was refused.
pub fn decide_by<G: Game + Drop, L: Listener>(
    alloc: Global,
    question: &Question<G>,
    position: &Position,
    listener: &mut L,
) -> Result<Verdict, AllocError>
    requires fits { Fits question.now.game.cells position.now }
    ensures told { IfOk result (IsVerdict (problem_of question.now position.now)) }
    ensures ran { IfOk result (IsRunToEnd (problem_of question.now position.now)) }
    ensures heard { HearsToVerdict L.hears (problem_of question.now position.now) result (λ verdict. verdict) listener.old listener.new }
{
    decide_with::<EitherFrontier, G, L>(alloc, question, position, listener)
}

/// A search of a question for a position that fits its game, which wants no list of so many moves as the limit, if there is one,
/// as `Search::below` makes it, and which has run to its end. It is heard as that of `solve_by` is.
///
/// # Errors
/// A growth was refused.
pub fn ended_below<F: Frontier + Drop, G: Game + Drop, L: Listener>(
    alloc: Global,
    question: &Question<G>,
    position: &Position,
    limit: Option<u32>,
    listener: &mut L,
) -> Result<Search<F, G>, AllocError>
    requires fits { Fits question.now.game.cells position.now }
    ensures problem { IfOk result (λ search. search.problem ≡ problem_below question.now position.now limit) }
    ensures ran { IfOk result (λ search. HasRun (problem_below question.now position.now limit) search.store search.status) }
    ensures done { IfOk result (λ search. reply_of search.status ≡ Ok Step.Done) }
    ensures heard { HearsSearch L.hears (problem_below question.now position.now limit) result listener.old listener.new }
{
    let mut search = Search::below(alloc, question, position, limit)?;
    watch(&mut search, listener)?;
    Ok(search)
}

// The answer, as `solve_by` gives it, of a search with a queue of any kind: where a search is dropped, the prover looks at each
// part of a queue of one kind.
fn solve_with<F: Frontier + Drop, G: Game + Drop, L: Listener>(
    alloc: Global,
    question: &Question<G>,
    position: &Position,
    listener: &mut L,
) -> Result<Answer, AllocError>
    requires fits { Fits question.now.game.cells position.now }
    ensures answers { IfOk result (Answers (problem_of question.now position.now)) }
    ensures ran { IfOk result (λ answer. IsRunToEnd (problem_of question.now position.now) answer.verdict) }
    ensures heard { HearsToVerdict L.hears (problem_of question.now position.now) result (λ answer. answer.verdict) listener.old listener.new }
{
    let search: Search<F, G> = ended_below(alloc, question, position, None, listener)?;
    answer_of(&search)
}

// The answer of a search that is done, which only a want of memory withholds.
fn answer_of<F: Frontier + Drop, G: Game + Drop>(
    search: &Search<F, G>,
) -> Result<Answer, AllocError>
    ensures answers { IfOk result (Answers search.now.problem) }
    ensures kind { IfOk result (λ answer. IsOfStatus search.now.problem search.now.store search.now.status answer.verdict) }
{
    match search.answer() {
        Ok(answer) => Ok(answer),
        Err(_) => Err(AllocError),
    }
}

// The verdict, as `decide_by` gives it, of such a search.
fn decide_with<F: Frontier + Drop, G: Game + Drop, L: Listener>(
    alloc: Global,
    question: &Question<G>,
    position: &Position,
    listener: &mut L,
) -> Result<Verdict, AllocError>
    requires fits { Fits question.now.game.cells position.now }
    ensures told { IfOk result (IsVerdict (problem_of question.now position.now)) }
    ensures ran { IfOk result (IsRunToEnd (problem_of question.now position.now)) }
    ensures heard { HearsToVerdict L.hears (problem_of question.now position.now) result (λ verdict. verdict) listener.old listener.new }
{
    let search: Search<F, G> = ended_below(alloc, question, position, None, listener)?;
    verdict_of(&search)
}

// The verdict of such a search.
fn verdict_of<F: Frontier + Drop, G: Game + Drop>(
    search: &Search<F, G>,
) -> Result<Verdict, AllocError>
    ensures told { IfOk result (IsVerdict search.now.problem) }
    ensures kind { IfOk result (IsOfStatus search.now.problem search.now.store search.now.status) }
{
    match search.verdict() {
        Ok(verdict) => Ok(verdict),
        Err(_) => Err(AllocError),
    }
}
