//! A search on the heap: its five kilobytes are moved there once, and an entry of the batch is a pointer.

ghost use Rattle.std.specs.Prelude.{◌≡◌, ◌<◌, IfOk, IfErr, Ok};
ghost use Rattle.fc_best_first.specs.Search.{FloorAfter, Turns};
ghost use Rattle.fc_best_first.specs.Turn.{work_left};
ghost use Rattle.fc_search.specs.Problem.{task_of_problem};

use fc_best_first::{SearchFault, Step};
use fc_frontier::Frontier;
use fc_moves::Game;
use fc_search::Search;
use std::alloc::Global;
use std::marker::Model;

// A search on the heap, seen by contracts as the search.
#[derive(Drop)]
pub(crate) struct HeldSearch<F: Frontier + Drop, G: Game + Drop> {
    search: Box<Search<F, G>>,
}

impl<F: Frontier + Drop, G: Game + Drop> Model for HeldSearch<F, G> {
    ghost use Rattle.fc_search.specs.Search.{State};

    ghost Value = { State };

    ghost view = { λ s. s.search.value };
}

impl<F: Frontier + Drop, G: Game + Drop> HeldSearch<F, G> {
    // The search on the heap; the search itself where there is no room.
    pub(crate) fn new(alloc: Global, search: Search<F, G>) -> Result<Self, Search<F, G>>
        ensures held { IfOk result (λ held. held ≡ search) }
        ensures back { IfErr result (λ handed. handed ≡ search) }
    {
        match Box::new(alloc, search) {
            Ok(search) => Ok(HeldSearch { search }),
            Err(refused) => Err(refused.value),
        }
    }

    // The search, off the heap.
    pub(crate) fn into_search(self) -> Search<F, G>
        ensures value { result ≡ self }
    {
        let HeldSearch { search } = self;
        Box::into_inner(search)
    }

    // The search.
    pub(crate) fn search(&self) -> &Search<F, G>
        ensures value { result.now ≡ self.now }
    {
        self.search.as_ref()
    }

    // One turn of the search.
    pub(crate) fn turn(&mut self) -> Result<Step, SearchFault>
        ensures problem { self.new.problem ≡ self.old.problem }
        ensures turns { Turns (task_of_problem self.old.problem) self.old.status self.old.store self.new.store self.new.status result }
        ensures floor { FloorAfter self.old.status self.old.store.waiting self.old.floor self.new.floor }
        ensures falls { result ≡ Ok Step.Running → work_left self.old.problem.method.strategy.budget self.new.store < work_left self.old.problem.method.strategy.budget self.old.store }
    {
        self.search.turn()
    }
}
