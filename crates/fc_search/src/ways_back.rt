//! The moves that lead to a stored class, found again from the start by the codes on the way.

ghost use Rattle.std.specs.Prelude.{◌≡◌, ◌≢◌, ◌<◌, ℕ, List, length, reverse, IfOk, MatchOption};
ghost use Rattle.fc_position.specs.Board.{Board};
ghost use Rattle.fc_best_first.specs.declared.books.Mark.{Mark};
ghost use Rattle.fc_best_first.specs.Kept.{IsSound};
ghost use Rattle.fc_best_first.specs.Store.{IsStored};
ghost use Rattle.fc_search.specs.Problem.{task_of_problem};
ghost use Rattle.fc_search.specs.inner.Walk.{IsStart, IsWay, IsAtClass};

use crate::position_searches::Search;
use fc_answers::MoveList;
use fc_frontier::Frontier;
use fc_home::settle;
use fc_moves::Game;
use fc_space::follow;
use std::alloc::AllocError;

impl<F: Frontier + Drop, G: Game + Drop> Search<F, G> {
    // Moves that lead to the class with this number, no more than it costs.
    pub(crate) fn moves_to(&self, number: u32) -> Result<MoveList, AllocError>
        requires sound { IsSound (task_of_problem self.now.problem) self.now.store }
        requires within { number < length self.now.store.stored }
        ensures there { IfOk result (λ made. (b : Board) × IsAtClass self.now.problem.game self.now.store self.now.problem.start number made b) }
    {
        self.known();
        let space = self.search.space();
        let (mut last, mut way) = self.way_to(number)?;
        let mut position = space.start.copy();
        let settling = settle(&space.rules.game, &mut position, space.rules.rule.get());
        let mut made = Vec::from_slice(self.alloc, settling.as_slice())?;
        while let Some(next) = way.pop() {
            let (from, _mark) = self.at(last);
            let (to, mark) = self.at(next);
            let most = mark.cost as usize - made.len();
            follow(space, &mut position, from, to, most, &mut made)?;
            last = next;
        }
        Ok(MoveList::new(made))
    }

    // The number of a class that starts, and of those on the way from there to the class with this number, which is first.
    fn way_to(&self, number: u32) -> Result<(u32, Vec<u32>), AllocError>
        requires sound { IsSound (task_of_problem self.now.problem) self.now.store }
        requires within { number < length self.now.store.stored }
        ensures way { IfOk result (λ r. IsStart self.now.store r.0 × IsWay self.now.store r.0 (reverse r.1.items) number) }
    {
        let mut way = Vec::new(self.alloc);
        let mut number = number;
        while let Some(parent) = self.parent(number) {
            way.push(number)?;
            number = parent;
        }
        Ok((number, way))
    }

    // The number of the class that the class with this number came from; `None` where it starts.
    fn parent(&self, number: u32) -> Option<u32>
        requires within { number < length self.now.store.stored }
        ensures value { MatchOption result (IsStart self.now.store number)
            (λ parent. (x : List ℕ) × (mark : Mark) × IsStored self.now.store number x mark × (mark.parent ≡ parent) × (parent ≢ number)) }
    {
        let (_code, mark) = self.at(number);
        if mark.parent == number {
            return None;
        }
        Some(mark.parent)
    }
}
