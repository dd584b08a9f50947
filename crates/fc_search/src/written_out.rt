//! The calls that the product's definition writes out word for word: what the others do, of a question of a shortest list.

ghost use Rattle.std.specs.Prelude.{◌≡◌, ◌≤◌, [], IfOk, IfErr, OnOk};
ghost use Rattle.fc_position.specs.Position.{Fits};
ghost use Rattle.fc_frontier.specs.Queue.{Adds};
ghost use Rattle.fc_best_first.specs.Limits.{IsBudget};
ghost use Rattle.fc_best_first.specs.Search.{Begins};
ghost use Rattle.fc_methods.specs.Method.{shortest_asked};
ghost use Rattle.fc_search.specs.Problem.{shortest_from, task_of_problem};
ghost use Rattle.fc_search.specs.Search.{Answers, IsOneOfThree, IsRefused, IsRunToEnd};

use crate::listeners::Unheard;
use crate::position_searches::Search;
use crate::solving::solve_by;
use fc_answers::Answer;
use fc_best_first::{SearchFault, Status};
use fc_frontier::Frontier;
use fc_home::GREATEST_RULE;
use fc_methods::{Budget, HomeRule, Question};
use fc_moves::Game;
use fc_position::Position;
use std::alloc::Global;

impl<F: Frontier + Drop, G: Game + Drop> Search<F, G> {
    /// A search for a shortest list by the plain bound, for a position that fits the game, under a home rule of at most 2 and
    /// with a budget of 1 to 4,000,000 stored classes. It has had no turn.
    ///
    /// # Errors
    /// `Budget` outside that range, before any memory is asked for; `Memory` where a growth was refused.
    pub fn new(
        alloc: Global,
        game: &G,
        rule: u8,
        position: &Position,
        budget: u32,
    ) -> Result<Self, SearchFault>
        requires rule { rule ≤ GREATEST_RULE }
        requires fits { Fits (G.game game.now).cells position.now }
        ensures problem { IfOk result (λ search. search.problem ≡ shortest_from (G.game game.now) rule position.now budget) }
        ensures status { IfOk result (λ search. search.status ≡ Status.Running) }
        ensures begins { IfOk result (λ search. Begins (task_of_problem search.problem) search.store) }
        ensures floor { IfOk result (λ search. Adds [] search.store.waiting (search.floor, 0)) }
        ensures range { OnOk result (IsBudget budget) }
        ensures fault { IfErr result (IsRefused budget) }
    {
        let question = shortest(game, HomeRule::new(rule).unwrap(), budget)?;
        match Search::new_by(alloc, &question, position) {
            Ok(search) => Ok(search),
            Err(_) => Err(SearchFault::Memory),
        }
    }
}

/// The answer for a position that fits the game, under a home rule of at most 2, of a search that runs to its end with a
/// budget of 1 to 4,000,000 stored classes: a shortest list, or that none wins, or that the search gave up, which it does
/// only where one more class must be stored.
///
/// # Errors
/// `Budget` outside that range, before any memory is asked for; `Memory` where a growth was refused.
pub fn solve<G: Game + Drop>(
    alloc: Global,
    game: &G,
    rule: u8,
    position: &Position,
    budget: u32,
) -> Result<Answer, SearchFault>
    requires rule { rule ≤ GREATEST_RULE }
    requires fits { Fits (G.game game.now).cells position.now }
    ensures three { IfOk result (λ answer. IsOneOfThree (G.game game.now) position.now budget answer.verdict) }
    ensures answers { IfOk result (Answers (shortest_from (G.game game.now) rule position.now budget)) }
    ensures ran { IfOk result (λ answer. IsRunToEnd (shortest_from (G.game game.now) rule position.now budget) answer.verdict) }
    ensures range { OnOk result (IsBudget budget) }
    ensures fault { IfErr result (IsRefused budget) }
{
    let question = shortest(game, HomeRule::new(rule).unwrap(), budget)?;
    match solve_by(alloc, &question, position, &mut Unheard) {
        Ok(answer) => Ok(answer),
        Err(_) => Err(SearchFault::Memory),
    }
}

// The question of a shortest list by the plain bound; `Budget` where the budget is none.
fn shortest<G: Game + Drop>(
    game: &G,
    rule: HomeRule,
    budget: u32,
) -> Result<Question<G>, SearchFault>
    ensures question { IfOk result (λ question. question ≡ shortest_asked (G.game game.now) rule budget) }
    ensures range { OnOk result (IsBudget budget) }
    ensures fault { IfErr result (λ f. (f ≡ SearchFault.Budget) × (IsBudget budget → ⊥)) }
{
    match Budget::new(budget) {
        Some(budget) => Ok(Question::shortest(game, rule, budget)),
        None => Err(SearchFault::Budget),
    }
}
