//! Solutions of a game's positions, shortest or within a weight of that: the search over classes of settled positions, in
//! turns, and its answers.
//!
//! An answer is right whatever the search keeps, and its table of classes backs it. Everything here is generic over the
//! game, and the search over its queue.
#![tactic(auto)]

pub use fc_answers::{Answer, MoveList, Table, Verdict};
pub use fc_best_first::{SearchFault, Step};
pub use fc_methods::{
    BoundKind, Budget, Expansion, HomeRule, MOST_BUDGET, MOST_WEIGHT, Method, Question, Sought,
    Strategy, TENTHS, Weight,
};
pub use fc_space::{Children, ClassRules, Positions};
pub use listeners::{Listener, Progress, Unheard};
pub use position_searches::Search;
pub use solving::{decide_by, ended_below, solve_by};
pub use written_out::solve;

mod listeners;
mod position_searches;
mod progress;
mod search_tables;
mod shown;
mod solving;
mod watches;
mod ways_back;
mod written_out;
