ghost use Rattle.std.specs.Prelude.{◌≡◌, ◌<◌, ◌≤◌, ◌⊎◌, ℕ, None, [], length, IfOk, IfErr, OnOk, OnErr};
ghost use Rattle.fc_position.specs.Position.{Fits};
ghost use Rattle.fc_moves.specs.GameRules.{IsPositionOf};
ghost use Rattle.fc_frontier.specs.Queue.{Adds};
ghost use Rattle.fc_best_first.specs.Limits.{IsBudget, IsEven, IsGreatBudget, IsWeight};
ghost use Rattle.fc_best_first.specs.Search.{Begins, FloorAfter, Turns, Runs, reply_of};
ghost use Rattle.fc_best_first.specs.Kept.{IsSound};
ghost use Rattle.fc_best_first.specs.Shown.{Holds, Shows};
ghost use Rattle.fc_best_first.specs.Store.{IsStored};
ghost use Rattle.fc_best_first.specs.Turn.{work_left};
ghost use Rattle.fc_classes.specs.Namings.{IsNaming, by_codes};
ghost use Rattle.fc_methods.specs.Method.{shortest_asked};
ghost use Rattle.fc_search.specs.Problem.{problem_below, problem_of, shortest_from, task_of_problem};
ghost use Rattle.fc_search.specs.Search.{Answers, IsVerdict, IsOfStatus, IsRefused, IsUnanswered};
ghost use Rattle.fc_answers.specs.Table.{IsCoded};
ghost use Rattle.fc_search.specs.inner.Search.{IsFloorOf, IsVerdictOf, Spells};

use fc_answers::{Answer, MoveList, Verdict};
use fc_best_first as best_first;
use fc_best_first::{Mark, SearchFault, Status, Step};
use fc_codes::Code;
use fc_frontier::Frontier;
use fc_home::GREATEST_RULE;
use fc_methods::{Budget, HomeRule, Method, Question};
use fc_moves::Game;
use fc_position::Position;
use fc_space::Positions;
use std::alloc::{AllocError, Global};
use std::marker::Model;

/// A search for a list of moves that wins from a position of a game, by classes of positions that are settled by a home
/// rule, with a kind of bound, a weight of it and a budget of stored classes. By weight 1 the list is a shortest one.
#[derive(Drop)]
pub struct Search<F: Frontier + Drop, G: Game + Drop> {
    pub(crate) alloc: Global,
    pub(crate) search: best_first::Search<Code, F, Positions<G>>,
}

impl<F: Frontier + Drop, G: Game + Drop> Model for Search<F, G> {
    ghost use Rattle.fc_search.specs.Search.{State, state_of};

    ghost Value = { State };

    ghost view = { λ s. state_of (G.game s.search.space.rules.game) s.search.space.rules.rule s.search.space.rules.kind s.search.space.start s.search };
}

impl<F: Frontier + Drop, G: Game + Drop> Search<F, G> {
    /// A search of a question for a position that fits its game. It has had no turn.
    ///
    /// # Errors
    /// A growth was refused.
    pub fn new_by(
        alloc: Global,
        question: &Question<G>,
        position: &Position,
    ) -> Result<Self, AllocError>
        requires fits { Fits question.now.game.cells position.now }
        ensures problem { IfOk result (λ search. search.problem ≡ problem_of question.now position.now) }
        ensures status { IfOk result (λ search. search.status ≡ Status.Running) }
        ensures begins { IfOk result (λ search. Begins (task_of_problem search.problem) search.store) }
        ensures floor { IfOk result (λ search. Adds [] search.store.waiting (search.floor, 0)) }
    {
        Search::below(alloc, question, position, None)
    }

    /// A search of a question for a position that fits its game, which wants no list of so many moves as the limit, if there is
    /// one: after the first it stores no class where its cost and the number shown of it there are so many. It has had no turn.
    ///
    /// # Errors
    /// A growth was refused.
    pub fn below(
        alloc: Global,
        question: &Question<G>,
        position: &Position,
        limit: Option<u32>,
    ) -> Result<Self, AllocError>
        requires fits { Fits question.now.game.cells position.now }
        ensures problem { IfOk result (λ search. search.problem ≡ problem_below question.now position.now limit) }
        ensures status { IfOk result (λ search. search.status ≡ Status.Running) }
        ensures begins { IfOk result (λ search. Begins (task_of_problem search.problem) search.store) }
        ensures floor { IfOk result (λ search. Adds [] search.store.waiting (search.floor, 0)) }
    {
        let Method { strategy, .. } = question.method();
        let space = Positions::new(question.game().copy(), question.method(), position.copy());
        match best_first::Search::below(alloc, space, strategy, limit) {
            Ok(search) => Ok(Search { alloc, search }),
            Err(_) => Err(AllocError),
        }
    }

    /// One turn: a running search takes one open class of least cost plus number shown, both weighed, which is its floor from then on, where
    /// it is greater. A search that is done answers `Done` and stays as it is.
    ///
    /// # Errors
    /// `Memory` where a growth was refused, and the search is stopped; `Stopped` from then on, and it stays as it is.
    pub fn turn(&mut self) -> Result<Step, SearchFault>
        ensures problem { self.new.problem ≡ self.old.problem }
        ensures turns { Turns (task_of_problem self.old.problem) self.old.status self.old.store self.new.store self.new.status result }
        ensures floor { FloorAfter self.old.status self.old.store.waiting self.old.floor self.new.floor }
        ensures rises { self.old.floor ≤ self.new.floor }
        ensures falls { result ≡ Ok Step.Running → work_left self.old.problem.method.strategy.budget self.new.store < work_left self.old.problem.method.strategy.budget self.old.store }
    {
        self.search.turn()
    }

    /// Turns until the search is done.
    ///
    /// # Errors
    /// `Memory` where a growth was refused, and the search is stopped; `Stopped` where it was before.
    pub fn run(&mut self) -> Result<(), SearchFault>
        ensures problem { self.new.problem ≡ self.old.problem }
        ensures runs { Runs (task_of_problem self.old.problem) self.old.status self.old.store self.new.store self.new.status }
        ensures done { OnOk result (reply_of self.new.status ≡ Ok Step.Done) }
        ensures stopped { OnErr result (self.new.status ≡ Status.Stopped) }
        ensures fault { IfErr result (λ f. ((f ≡ SearchFault.Memory) × (self.old.status ≡ Status.Running)) ⊎ ((f ≡ SearchFault.Stopped) × (self.old.status ≡ Status.Stopped))) }
    {
        self.search.run()
    }

    /// The answer of a search that is done. It never changes the search.
    ///
    /// # Errors
    /// `Limited` where the search has a limit; else `Stopped` after a want of memory stopped the search; `NotDone` before it is
    /// done; `Memory` where a growth was refused.
    pub fn answer(&self) -> Result<Answer, SearchFault>
        ensures answers { IfOk result (Answers self.now.problem) }
        ensures kind { IfOk result (λ answer. IsOfStatus self.now.problem self.now.store self.now.status answer.verdict) }
        ensures fault { IfErr result (IsUnanswered self.now.problem.limit self.now.status) }
    {
        if self.search.limit().is_some() {
            return Err(SearchFault::Limited);
        }
        let answer = match self.search.status() {
            Status::Running => return Err(SearchFault::NotDone),
            Status::Stopped => return Err(SearchFault::Stopped),
            Status::Won(number) => self.won(*number),
            Status::CannotWin => self.cannot_win(),
            Status::GaveUp(_, _) => Ok(Answer {
                verdict: Verdict::GaveUp(self.search.strategy().budget.get()),
                table: None,
            }),
        };
        match answer {
            Ok(answer) => Ok(answer),
            Err(_) => Err(SearchFault::Memory),
        }
    }

    /// The verdict of a search that is done: its answer without a table, which it doesn't make. It never changes the search.
    ///
    /// # Errors
    /// Those of `answer`.
    pub fn verdict(&self) -> Result<Verdict, SearchFault>
        ensures told { IfOk result (IsVerdict self.now.problem) }
        ensures kind { IfOk result (IsOfStatus self.now.problem self.now.store self.now.status) }
        ensures fault { IfErr result (IsUnanswered self.now.problem.limit self.now.status) }
    {
        self.known();
        if self.search.limit().is_some() {
            return Err(SearchFault::Limited);
        }
        match self.search.status() {
            Status::Running => Err(SearchFault::NotDone),
            Status::Stopped => Err(SearchFault::Stopped),
            Status::Won(number) => match self.won_verdict(*number) {
                Ok(verdict) => Ok(verdict),
                Err(_) => Err(SearchFault::Memory),
            },
            Status::CannotWin => Ok(Verdict::CannotWin),
            Status::GaveUp(_, _) => Ok(Verdict::GaveUp(self.search.strategy().budget.get())),
        }
    }

    // The code of the class with this number, and its mark.
    pub(crate) fn at(&self, number: u32) -> (&Code, Mark)
        requires within { number < length self.now.store.stored }
        ensures stands { IsStored self.now.store number result.0.now result.1 }
    {
        self.search.entry(number).unwrap()
    }

    // The position that the code of the class with this number spells, the code, and the class's mark.
    pub(crate) fn position_at(&self, number: u32) -> (Position, &Code, Mark)
        requires sound { IsSound (task_of_problem self.now.problem) self.now.store }
        requires within { number < length self.now.store.stored }
        ensures spells { Spells self.now number result.0 result.1.now result.2 }
        ensures coded { IsCoded self.now.problem.start result.1.now }
    {
        self.known();
        let (code, mark) = self.at(number);
        let space = self.search.space();
        (space.position(code), code, mark)
    }

    // What is known of each search: its limits are in range, its start fits the game, and codes name the classes from there.
    pub(crate) fn known(&self)
        ensures rule { self.now.problem.method.rule ≤ GREATEST_RULE }
        ensures budget { IsGreatBudget self.now.problem.method.strategy.budget }
        ensures weight { IsWeight self.now.problem.method.strategy.weight }
        ensures fits { IsPositionOf self.now.problem.game self.now.problem.start }
        ensures names { IsNaming (by_codes self.now.problem.start) self.now.problem.game self.now.problem.start }
    {
        let _ = (self.search.space().rules.rule.get(), self.search.strategy());
    }

    // A list that wins, where the class with this number is won: by weight 1 a shortest one, else one within the weight.
    fn won_list(&self, number: u32) -> Result<MoveList, AllocError>
        requires held { Holds (task_of_problem self.now.problem) self.now.store self.now.status }
        requires shown { Shows (task_of_problem self.now.problem) self.now.store self.now.status }
        requires done { self.now.status ≡ Status.Won number }
        requires whole { self.now.problem.limit ≡ None }
        ensures shortest { IfOk result (λ moves. IsEven self.now.problem.method.strategy.weight → IsVerdictOf self.now (Verdict.Shortest moves)) }
        ensures within { IfOk result (λ moves. self.now.problem.method.strategy.weight.parts < self.now.problem.method.strategy.weight.times
            → (floor : ℕ) → IsFloorOf self.now number floor → IsVerdictOf self.now (Verdict.Won moves floor)) }
    {
        self.known();
        let moves = self.moves_to(number)?;
        Ok(moves)
    }

    // The least that what is open tells, and no more than the class with this number costs.
    pub(crate) fn floor_of(&self, number: u32) -> u32
        requires sound { IsSound (task_of_problem self.now.problem) self.now.store }
        requires within { number < length self.now.store.stored }
        ensures value { IsFloorOf self.now number result }
    {
        let (_code, mark) = self.at(number);
        self.search.least_open(mark.cost)
    }

    // The verdict where the class with this number is won: only by weight 1 the list is known to be a shortest one.
    fn won_verdict(&self, number: u32) -> Result<Verdict, AllocError>
        requires held { Holds (task_of_problem self.now.problem) self.now.store self.now.status }
        requires shown { Shows (task_of_problem self.now.problem) self.now.store self.now.status }
        requires done { self.now.status ≡ Status.Won number }
        requires whole { self.now.problem.limit ≡ None }
        ensures told { IfOk result (IsVerdict self.now.problem) }
        ensures kind { IfOk result (IsOfStatus self.now.problem self.now.store self.now.status) }
    {
        let moves = self.won_list(number)?;
        let weight = self.search.strategy().weight;
        if weight.times() > weight.parts() {
            let floor = self.floor_of(number);
            return Ok(Verdict::Won { moves, floor });
        }
        Ok(Verdict::Shortest(moves))
    }

    // The answer where the class with this number is won, with the table of its length by weight 1, else of its floor.
    fn won(&self, number: u32) -> Result<Answer, AllocError>
        requires held { Holds (task_of_problem self.now.problem) self.now.store self.now.status }
        requires shown { Shows (task_of_problem self.now.problem) self.now.store self.now.status }
        requires done { self.now.status ≡ Status.Won number }
        requires whole { self.now.problem.limit ≡ None }
        ensures answers { IfOk result (Answers self.now.problem) }
        ensures kind { IfOk result (λ answer. IsOfStatus self.now.problem self.now.store self.now.status answer.verdict) }
    {
        self.known();
        let moves = self.won_list(number)?;
        let weight = self.search.strategy().weight;
        if weight.times() > weight.parts() {
            let floor = self.floor_of(number);
            let table = self.table_below(floor as usize)?;
            return Ok(Answer {
                verdict: Verdict::Won { moves, floor },
                table: Some(table),
            });
        }
        let table = self.table_below(moves.len())?;
        Ok(Answer {
            verdict: Verdict::Shortest(moves),
            table: Some(table),
        })
    }

    // The answer where no list wins.
    fn cannot_win(&self) -> Result<Answer, AllocError>
        requires held { Holds (task_of_problem self.now.problem) self.now.store self.now.status }
        requires shown { Shows (task_of_problem self.now.problem) self.now.store self.now.status }
        requires done { self.now.status ≡ Status.CannotWin }
        requires whole { self.now.problem.limit ≡ None }
        ensures answers { IfOk result (Answers self.now.problem) }
        ensures kind { IfOk result (λ answer. IsOfStatus self.now.problem self.now.store self.now.status answer.verdict) }
    {
        self.known();
        let table = self.table_of_all()?;
        Ok(Answer {
            verdict: Verdict::CannotWin,
            table: Some(table),
        })
    }
}
