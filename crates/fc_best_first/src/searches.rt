ghost use Rattle.std.specs.Prelude.{◌≡◌, ◌<◌, ◌≤◌, ◌↔◌, ◌⊎◌, length, IfOk, IfErr, OnOk, OnErr, MatchOption, []};
ghost use Rattle.fc_frontier.specs.Queue.{Adds};
ghost use Rattle.fc_best_first.specs.Limits.{IsGreatBudget, IsWeight};
ghost use Rattle.fc_best_first.specs.Search.{Begins, FloorAfter, Turns, Runs, reply_of, task_of};
ghost use Rattle.fc_best_first.specs.Kept.{IsSound};
ghost use Rattle.fc_best_first.specs.Shown.{Holds, IsFloor, IsLeastOpen, Shows, TellsAt};
ghost use Rattle.fc_best_first.specs.Store.{IsStored, bound_at};
ghost use Rattle.fc_best_first.specs.Turn.{work_left};

use crate::books::{Book, Mark, Opening};
use crate::floors::{least_open, told_by};
use crate::limits::Budget;
use crate::spaces::{Child, Space};
use crate::strategies::Strategy;
use crate::turns::{Status, advance};
use fc_frontier::{Frontier, Full};
use fc_keys::ExactKey;
use std::alloc::Global;
use std::marker::Model;
use thiserror::Error;

/// What a turn answers: there is more to do, or the search is done.
#[derive(Clone, Copy, Debug, PartialEq, Eq)]
pub enum Step {
    Running,
    Done,
}

/// Why a search can't begin or go on.
#[derive(Clone, Copy, Debug, PartialEq, Eq, Error)]
pub enum SearchFault {
    /// The budget is outside 1 to 4,000,000; only what takes a number for one says so.
    #[error("the budget is outside 1 to 4000000")]
    Budget,
    /// A growth was refused.
    #[error("want of memory")]
    Memory,
    /// An earlier want of memory stopped the search.
    #[error("the search was stopped")]
    Stopped,
    /// The search isn't done yet, so it has no answer; no turn says so.
    #[error("the search isn't done")]
    NotDone,
    /// The search wants only answers below a limit, so what it shows is no answer by itself.
    #[error("the search has a limit")]
    Limited,
    /// No search has this number; only a batch says so.
    #[error("no such search")]
    NoSuch,
}

/// A search of a space by a strategy.
#[derive(Drop)]
pub struct Search<K: ExactKey, F: Frontier + Drop, S: Space<K> + Drop> {
    space: S,
    strategy: Strategy,
    limit: Option<u32>,
    book: Book<K, F>,
    walk: S::Walk,
    status: Status<K>,
    floor: u32,
}

impl<K: ExactKey, F: Frontier + Drop, S: Space<K> + Drop> Model for Search<K, F, S> {
    ghost use Rattle.fc_best_first.specs.Graph.{task_by};
    ghost use Rattle.fc_best_first.specs.Limits.{IsGreatBudget, IsWeight};
    ghost use Rattle.fc_best_first.specs.Search.{Progress};
    ghost use Rattle.fc_best_first.specs.Shown.{Holds, IsFloor};

    ghost Value = { Progress S K };

    ghost view = { λ s. record { space = s.space; strategy = s.strategy; limit = s.limit; store = s.book; status = s.status; floor = s.floor } };

    ghost invariant = { λ s. IsWeight s.strategy.weight × IsGreatBudget s.strategy.budget
        × Holds (task_by (S.graph s.space) s.strategy s.limit) s.book s.status
        × IsFloor (S.graph s.space) s.strategy.weight s.floor × S.owns s.space s.walk };
}

impl<K: ExactKey, F: Frontier + Drop, S: Space<K> + Drop> Search<K, F, S> {
    /// A search that has had no turn. What it wins costs at most the weight times every answer, so by weight 1 it is a least
    /// one.
    ///
    /// # Errors
    /// A growth was refused.
    pub fn new(alloc: Global, space: S, strategy: Strategy) -> Result<Self, Full>
        ensures space { IfOk result (λ search. search.space ≡ space) }
        ensures strategy { IfOk result (λ search. search.strategy ≡ strategy) }
        ensures limit { IfOk result (λ search. search.limit ≡ None) }
        ensures status { IfOk result (λ search. search.status ≡ Status.Running) }
        ensures begins { IfOk result (λ search. Begins (task_of S.graph search) search.store) }
        ensures floor { IfOk result (λ search. Adds [] search.store.waiting (search.floor, 0)) }
    {
        Search::below(alloc, space, strategy, None)
    }

    /// A search that has had no turn, and wants no answer that reaches the limit, if there is one: where a key is met whose cost plus
    /// the number shown of it there reaches it, it isn't stored, but for the one that starts. Where it ends with nothing open, no answer
    /// is below the limit.
    ///
    /// # Errors
    /// A growth was refused.
    pub fn below(
        alloc: Global,
        space: S,
        strategy: Strategy,
        limit: Option<u32>,
    ) -> Result<Self, Full>
        ensures space { IfOk result (λ search. search.space ≡ space) }
        ensures strategy { IfOk result (λ search. search.strategy ≡ strategy) }
        ensures limit { IfOk result (λ search. search.limit ≡ limit) }
        ensures status { IfOk result (λ search. search.status ≡ Status.Running) }
        ensures begins { IfOk result (λ search. Begins (task_of S.graph search) search.store) }
        ensures floor { IfOk result (λ search. Adds [] search.store.waiting (search.floor, 0)) }
    {
        let Strategy { weight, budget, .. } = strategy;
        // Their ranges, which the search keeps.
        let (_, _) = (weight.parts(), budget.get());
        let (start, mut walk) = space.start(alloc)?;
        let Child { key, cost } = start;
        let opening = Opening::new(weight, space.noted(&mut walk, &key, u8::MAX));
        let mark = Mark {
            cost: u32::from(cost),
            parent: 0,
        };
        let mut book = Book::new(alloc, &strategy);
        let _stored = book.add(&strategy, key, mark, opening)?;
        Ok(Search {
            space,
            strategy,
            limit,
            book,
            walk,
            status: Status::Running,
            floor: mark.opens_at(weight, opening),
        })
    }

    /// The space that is searched.
    pub fn space(&self) -> &S
        ensures value { result.now ≡ self.now.space }
    {
        &self.space
    }

    /// How the space is searched.
    pub fn strategy(&self) -> Strategy
        ensures value { result ≡ self.now.strategy }
        ensures weight { IsWeight self.now.strategy.weight }
        ensures budget { IsGreatBudget self.now.strategy.budget }
    {
        self.strategy
    }

    /// The limit from which on answers aren't wanted, if there is one.
    pub fn limit(&self) -> Option<u32>
        ensures value { result ≡ self.now.limit }
    {
        self.limit
    }

    /// Where the search stands. What it holds by that is kept from turn to turn; what it shows follows from it.
    pub fn status(&self) -> &Status<K>
        ensures value { result.now ≡ self.now.status }
        ensures holds { Holds (task_of S.graph self.now) self.now.store self.now.status }
        ensures shows { Shows (task_of S.graph self.now) self.now.store self.now.status }
        ensures range { IsGreatBudget self.now.strategy.budget }
    {
        &self.status
    }

    /// A number that no answer, weighed as a bound is, is below: the greatest f that was taken, and before the first turn the f of
    /// the key that starts. It never falls, and is true of a search that is done or was stopped, too.
    pub fn floor(&self) -> u32
        ensures value { result ≡ self.now.floor }
        ensures floor { IsFloor (S.graph self.now.space) self.now.strategy.weight self.now.floor }
    {
        self.floor
    }

    /// The least that the keys tell that are still open, and at most a number: each its cost plus the number shown of it, counted once,
    /// or the f at which it is open over how many times that counts, rounded up, where that is more.
    pub fn least_open(&self, most: u32) -> u32
        requires sound { IsSound (task_of S.graph self.now) self.now.store }
        ensures value { IsLeastOpen (task_of S.graph self.now) self.now.store most result }
    {
        least_open(&self.space, &self.book, &self.strategy, most)
    }

    /// What the key with this number tells where it is open, or was when it was taken.
    pub fn told_by(&self, number: u32) -> u32
        requires sound { IsSound (task_of S.graph self.now) self.now.store }
        requires within { number < length self.now.store.stored }
        ensures told { TellsAt (task_of S.graph self.now) self.now.store number result }
    {
        told_by(&self.space, &self.book, &self.strategy, number)
    }

    /// The number that is noted of the key with this one.
    pub fn bound_at(&self, number: u32) -> u8
        requires noted { number < length self.now.store.openings }
        ensures value { result ≡ bound_at self.now.store number }
    {
        self.book.opening(number).bound
    }

    /// How many pairs are open. It is counted anew.
    pub fn open(&self) -> u128
        ensures size { result ≡ length self.now.store.waiting }
    {
        self.book.open()
    }

    /// How many keys are stored.
    pub fn len(&self) -> usize
        ensures size { result ≡ length self.now.store.stored }
    {
        self.book.len()
    }

    /// The key that is stored under a number, and its mark; `None` for a number that no key has.
    pub fn entry(&self, number: u32) -> Option<(&K, Mark)>
        ensures value { MatchOption result (length self.now.store.stored ≤ number) (λ e. IsStored self.now.store number e.0.now e.1) }
    {
        self.book.entry(number)
    }

    /// One turn: a running search takes one open pair, and its floor is the pair's f from then on, where that is greater. A
    /// search that is done answers `Done` and stays as it is. At `Memory` a growth was refused and the search is stopped; one that is stopped answers
    /// `Stopped` from then on.
    pub fn turn(&mut self) -> Result<Step, SearchFault>
        ensures space { self.new.space ≡ self.old.space }
        ensures strategy { self.new.strategy ≡ self.old.strategy }
        ensures limit { self.new.limit ≡ self.old.limit }
        ensures turns { Turns (task_of S.graph self.old) self.old.status self.old.store self.new.store self.new.status result }
        ensures floor { FloorAfter self.old.status self.old.store.waiting self.old.floor self.new.floor }
        ensures rises { self.old.floor ≤ self.new.floor }
        ensures falls { result ≡ Ok Step.Running → work_left self.old.strategy.budget self.new.store < work_left self.old.strategy.budget self.old.store }
    {
        match self.status {
            Status::Running => {}
            Status::Stopped => return Err(SearchFault::Stopped),
            _ => return Ok(Step::Done),
        }
        match advance(
            &self.space,
            &mut self.book,
            &mut self.walk,
            &self.strategy,
            self.limit,
            &mut self.floor,
        ) {
            Ok(status) => {
                let step = match status {
                    Status::Running => Step::Running,
                    _ => Step::Done,
                };
                self.status = status;
                Ok(step)
            }
            Err(_full) => {
                self.status = Status::Stopped;
                Err(SearchFault::Memory)
            }
        }
    }

    /// Turns until the search is done.
    ///
    /// # Errors
    /// `Memory` where a growth was refused, and the search is stopped; `Stopped` where it was before.
    pub fn run(&mut self) -> Result<(), SearchFault>
        ensures space { self.new.space ≡ self.old.space }
        ensures strategy { self.new.strategy ≡ self.old.strategy }
        ensures limit { self.new.limit ≡ self.old.limit }
        ensures runs { Runs (task_of S.graph self.old) self.old.status self.old.store self.new.store self.new.status }
        ensures done { OnOk result (reply_of self.new.status ≡ Ok Step.Done) }
        ensures stopped { OnErr result (self.new.status ≡ Status.Stopped) }
        ensures fault { IfErr result (λ f. ((f ≡ SearchFault.Memory) × (self.old.status ≡ Status.Running)) ⊎ ((f ≡ SearchFault.Stopped) × (self.old.status ≡ Status.Stopped))) }
    {
        while let Step::Running = self.turn()? {}
        Ok(())
    }
}
