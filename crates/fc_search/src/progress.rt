//! How far a search is.

ghost use Rattle.std.specs.Prelude.{◌≡◌, ◌+◌, ◌*◌, ◌<◌, ◌≤◌, List, length};
ghost use Rattle.fc_moves.specs.declared.steps.Move.{Move};
ghost use Rattle.fc_moves.specs.Run.{Wins};

use crate::position_searches::Search;
use fc_frontier::Frontier;
use fc_moves::Game;

impl<F: Frontier + Drop, G: Game + Drop> Search<F, G> {
    /// No list of fewer moves wins: the core's floor, which counts as a bound does, divided by how many times that is, rounded up. Takes no memory; for a search in any
    /// state.
    pub fn at_least(&self) -> u32
        ensures floor { (moves : List Move) → Wins self.now.problem.game self.now.problem.start moves → result ≤ length moves }
        ensures value { (self.now.floor ≤ self.now.problem.method.strategy.weight.times * result) × (self.now.problem.method.strategy.weight.times * result < self.now.floor + self.now.problem.method.strategy.weight.times) }
    {
        let times = u32::from(self.search.strategy().weight.times());
        self.search.floor().div_ceil(times)
    }

    /// How many classes may be stored, 1 to 16,000,000.
    pub(crate) fn budget(&self) -> u32
        ensures value { result ≡ self.now.problem.method.strategy.budget }
    {
        self.search.strategy().budget.get()
    }

    /// How many classes are stored.
    pub fn len(&self) -> usize
        ensures size { result ≡ length self.now.store.stored }
    {
        self.search.len()
    }

    /// How many entries are open. They are counted anew.
    pub fn open(&self) -> u128
        ensures size { result ≡ length self.now.store.waiting }
    {
        self.search.open()
    }
}
