//! The table that backs the answer of a search that is done.

ghost use Rattle.std.specs.Prelude.{◌≡◌, ◌+◌, ◌<◌, ◌≤◌, ◌∷◌, ◌++◌, [], length, option_to_list, take, All, IfOk, IfSome};
ghost use Rattle.std.specs.List.Sorted.{IsPermutation};
ghost use Rattle.fc_best_first.specs.Kept.{IsSound};
ghost use Rattle.fc_bound.specs.Kinds.{guide_of};
ghost use Rattle.fc_answers.specs.Table.{IsRising, IsRowOf, pairs_by};
ghost use Rattle.fc_answers.specs.inner.Table.{at_no_cost, inside};
ghost use Rattle.fc_search.specs.Problem.{task_of_problem};
ghost use Rattle.fc_search.specs.inner.Stored.{costs_inside, costs_of};

use crate::position_searches::Search;
use fc_answers::{Row, Table};
use fc_best_first::MOST_GREAT_BUDGET;
use fc_codes::Layout;
use fc_frontier::Frontier;
use fc_home::GREATEST_RULE;
use fc_moves::Game;
use fc_space::Positions;
use std::alloc::AllocError;

impl<F: Frontier + Drop, G: Game + Drop> Search<F, G> {
    // The stored classes whose cost and bound are below n.
    pub(crate) fn table_below(&self, n: usize) -> Result<Table, AllocError>
        requires sound { IsSound (task_of_problem self.now.problem) self.now.store }
        ensures rule { IfOk result (λ table. table.rule ≡ self.now.problem.method.rule) }
        ensures bound { IfOk result (λ table. table.bound ≡ self.now.problem.method.bound) }
        ensures known { IfOk result (λ table. table.rule ≤ GREATEST_RULE) }
        ensures few { IfOk result (λ table. length table.rows ≤ self.now.problem.method.strategy.budget) }
        ensures rows { IfOk result (λ table. IsPermutation (inside (guide_of self.now.problem.method.bound) n (costs_of self.now.problem.start self.now.store)) table.rows) }
        ensures rising { IfOk result (λ table. IsRising table.rows) }
    {
        self.known();
        let rows = self.rows_below(n)?;
        let Positions { rules, start, .. } = self.search.space();
        let layout = Layout::new(start);
        let table = Table::sorted(self.alloc, rules.rule, rules.kind, layout, rows)?;
        Ok(table)
    }

    // Their rows, in the order in which they were stored.
    fn rows_below(&self, n: usize) -> Result<Vec<Row>, AllocError>
        requires sound { IsSound (task_of_problem self.now.problem) self.now.store }
        ensures rows { IfOk result (λ rows. pairs_by self.now.problem.start rows.items ≡ inside (guide_of self.now.problem.method.bound) n (costs_of self.now.problem.start self.now.store)) }
        ensures coded { IfOk result (λ rows. All (IsRowOf self.now.problem.start) rows.items) }
    {
        let mut rows = Vec::with_capacity(self.alloc, self.len())?;
        for number in 0..self.count() {
            let Some(row) = self.row_below(number, n) else {
                continue;
            };
            rows.push(row)?;
        }
        Ok(rows)
    }

    // The row of the class with this number, where its cost and bound are below n.
    fn row_below(&self, number: u32, n: usize) -> Option<Row>
        requires sound { IsSound (task_of_problem self.now.problem) self.now.store }
        requires within { number < length self.now.store.stored }
        requires few { number < MOST_GREAT_BUDGET }
        ensures row { costs_inside self.now n (number + 1) ≡ costs_inside self.now n number ++ pairs_by self.now.problem.start (option_to_list result) }
        ensures coded { IfSome result (IsRowOf self.now.problem.start) }
    {
        let (position, code, mark) = self.position_at(number);
        let bound = self.search.space().rules.kind.guide(&position);
        if ((mark.cost + u32::from(bound)) as usize) < n {
            return Some(Row::new(*code, &position, mark.cost));
        }
        None
    }

    // The stored classes, each at no cost.
    pub(crate) fn table_of_all(&self) -> Result<Table, AllocError>
        requires sound { IsSound (task_of_problem self.now.problem) self.now.store }
        ensures rule { IfOk result (λ table. table.rule ≡ self.now.problem.method.rule) }
        ensures bound { IfOk result (λ table. table.bound ≡ self.now.problem.method.bound) }
        ensures known { IfOk result (λ table. table.rule ≤ GREATEST_RULE) }
        ensures few { IfOk result (λ table. length table.rows ≤ self.now.problem.method.strategy.budget) }
        ensures rows { IfOk result (λ table. IsPermutation (at_no_cost (costs_of self.now.problem.start self.now.store)) table.rows) }
        ensures rising { IfOk result (λ table. IsRising table.rows) }
    {
        self.known();
        let rows = self.rows_of_all()?;
        let Positions { rules, start, .. } = self.search.space();
        let layout = Layout::new(start);
        let table = Table::sorted(self.alloc, rules.rule, rules.kind, layout, rows)?;
        Ok(table)
    }

    // Their rows, in the order in which they were stored.
    fn rows_of_all(&self) -> Result<Vec<Row>, AllocError>
        requires sound { IsSound (task_of_problem self.now.problem) self.now.store }
        ensures rows { IfOk result (λ rows. pairs_by self.now.problem.start rows.items ≡ at_no_cost (costs_of self.now.problem.start self.now.store)) }
        ensures coded { IfOk result (λ rows. All (IsRowOf self.now.problem.start) rows.items) }
    {
        let mut rows = Vec::with_capacity(self.alloc, self.len())?;
        for number in 0..self.count() {
            rows.push(self.free_row(number))?;
        }
        Ok(rows)
    }

    // The row of the class with this number, at no cost.
    fn free_row(&self, number: u32) -> Row
        requires sound { IsSound (task_of_problem self.now.problem) self.now.store }
        requires within { number < length self.now.store.stored }
        ensures row { at_no_cost (take (number + 1) (costs_of self.now.problem.start self.now.store))
            ≡ at_no_cost (take number (costs_of self.now.problem.start self.now.store)) ++ pairs_by self.now.problem.start (result ∷ []) }
        ensures coded { IsRowOf self.now.problem.start result }
    {
        let (position, code, _mark) = self.position_at(number);
        Row::new(*code, &position, 0)
    }

    // How many classes are stored, which is no more than may be.
    fn count(&self) -> u32
        requires sound { IsSound (task_of_problem self.now.problem) self.now.store }
        ensures value { result ≡ length self.now.store.stored }
        ensures few { result ≤ MOST_GREAT_BUDGET }
    {
        self.known();
        self.len() as u32
    }
}
