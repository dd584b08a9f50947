//! What a search has found and shown by where it stands, also below a limit.

ghost use Rattle.std.specs.Prelude.{◌≡◌, ◌<◌, ◌≤◌, ◌↔◌, ℕ, List, length, IfNone, IfOk, IfSome, IsSome, MatchOption};
ghost use Rattle.fc_moves.specs.declared.steps.Move.{Move};
ghost use Rattle.fc_moves.specs.Run.{CannotWin, ReachesMore, Wins};
ghost use Rattle.fc_best_first.specs.Kept.{IsSound};
ghost use Rattle.fc_best_first.specs.Search.{reply_of};
ghost use Rattle.fc_search.specs.Need.{NeedsMore};
ghost use Rattle.fc_search.specs.Problem.{task_of_problem};
ghost use Rattle.fc_search.specs.Shown.{number_within, BacksShown, HasFound, HasShown, IsFloorAt, IsFloorBut};

use crate::position_searches::Search;
use fc_answers::{MoveList, Table};
use fc_best_first::{Status, Step};
use fc_frontier::Frontier;
use fc_moves::Game;
use std::alloc::AllocError;

impl<F: Frontier + Drop, G: Game + Drop> Search<F, G> {
    /// The list that a search found, where it ended with a won class: it wins, and is within the weight.
    ///
    /// # Errors
    /// A growth was refused.
    pub fn found(&self) -> Result<Option<MoveList>, AllocError>
        ensures found { IfOk result (HasFound self.now) }
    {
        self.known();
        match self.search.status() {
            Status::Won(number) => Ok(Some(self.moves_to(*number)?)),
            _ => Ok(None),
        }
    }

    /// What a search shows of all lists that win, wherever it stands: a number of moves that none is below; `None` where none
    /// wins. Where it ended with nothing open that is its limit.
    pub fn shown(&self) -> Option<u32>
        ensures floor { MatchOption result (CannotWin self.now.problem.game self.now.problem.start)
            (λ floor. (moves : List Move) → Wins self.now.problem.game self.now.problem.start moves → floor ≤ length moves) }
        ensures shown { HasShown self.now result }
    {
        self.known();
        match self.search.status() {
            Status::CannotWin => self.search.limit(),
            Status::Won(number) => Some(self.floor_but(*number)),
            Status::GaveUp(_, number) => Some(self.floor_at(*number)),
            _ => Some(self.at_least()),
        }
    }

    /// How many classes the search may store, where it gave up: then more positions than that can be reached.
    pub fn given_up(&self) -> Option<u32>
        ensures earned { IfSome result (λ told. (told ≡ self.now.problem.method.strategy.budget) × NeedsMore self.now.problem
            × ReachesMore self.now.problem.game self.now.problem.start told) }
        ensures status { IfSome result (λ told. (y : List ℕ) × (number : ℕ) × (self.now.status ≡ Status.GaveUp y number)) }
        ensures none { IfNone result ((y : List ℕ) (number : ℕ) → self.now.status ≡ Status.GaveUp y number → ⊥) }
    {
        self.known();
        match self.search.status() {
            Status::GaveUp(_, _) => Some(self.budget()),
            _ => None,
        }
    }

    /// How many classes a search that is done has stored, no more than its budget.
    pub fn stored(&self) -> u32
        requires done { reply_of self.now.status ≡ Ok Step.Done }
        ensures size { result ≡ length self.now.store.stored }
        ensures most { result ≤ self.now.problem.method.strategy.budget }
    {
        self.known();
        let _ = self.search.status();
        self.len() as u32
    }

    /// The table that shows what `shown` told of a search that is done, and `None` of another one.
    ///
    /// # Errors
    /// A growth was refused.
    pub fn table(&self, shown: Option<u32>) -> Result<Option<Table>, AllocError>
        requires shown { HasShown self.now shown }
        ensures backs { IfOk result (λ table. IfSome table (BacksShown self.now.problem shown)) }
        ensures searched { IfOk result (λ table. IfSome table (λ t. (t.rule ≡ self.now.problem.method.rule) × (t.bound ≡ self.now.problem.method.bound) × (length t.rows ≤ self.now.problem.method.strategy.budget))) }
        ensures done { IfOk result (λ table. IsSome table ↔ (reply_of self.now.status ≡ Ok Step.Done)) }
    {
        self.known();
        match self.search.status() {
            Status::Running => Ok(None),
            Status::Stopped => Ok(None),
            _ => Ok(Some(self.table_of(shown)?)),
        }
    }

    // The table of a search that is done.
    fn table_of(&self, shown: Option<u32>) -> Result<Table, AllocError>
        requires shown { HasShown self.now shown }
        requires done { reply_of self.now.status ≡ Ok Step.Done }
        ensures backs { IfOk result (BacksShown self.now.problem shown) }
        ensures searched { IfOk result (λ t. (t.rule ≡ self.now.problem.method.rule) × (t.bound ≡ self.now.problem.method.bound) × (length t.rows ≤ self.now.problem.method.strategy.budget)) }
    {
        self.known();
        let _ = self.search.status();
        let table = match shown {
            Some(floor) => self.table_below(floor as usize)?,
            None => self.table_of_all()?,
        };
        Ok(table)
    }

    // The least that what is open tells, and no more than the cost and bound of the class with this number, nor than the limit.
    fn floor_but(&self, number: u32) -> u32
        requires sound { IsSound (task_of_problem self.now.problem) self.now.store }
        requires within { number < length self.now.store.stored }
        ensures value { IsFloorBut self.now number result }
    {
        self.known();
        let (_code, mark) = self.at(number);
        let most = mark.cost + u32::from(self.search.bound_at(number));
        self.search.least_open(self.capped(most))
    }

    // The least that what is open tells, and the class with this number, and no more than the limit.
    fn floor_at(&self, number: u32) -> u32
        requires sound { IsSound (task_of_problem self.now.problem) self.now.store }
        requires within { number < length self.now.store.stored }
        ensures value { IsFloorAt self.now number result }
    {
        let most = self.capped(self.search.told_by(number));
        self.search.least_open(most)
    }

    // The number, but the limit where there is one that is lower.
    fn capped(&self, most: u32) -> u32
        ensures value { result ≡ number_within self.now.problem.limit most }
    {
        match self.search.limit() {
            Some(limit) => most.min(limit),
            None => most,
        }
    }
}
