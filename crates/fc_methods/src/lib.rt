//! What is sought of a position and how: the home rule, the kind of bound, the weight, the expansion and the budget, as one value.
//! Nothing here searches.
#![tactic(auto)]

pub use fc_best_first::{
    Budget, Expansion, GreatBudget, MOST_BUDGET, MOST_GREAT_BUDGET, MOST_WEIGHT, Strategy, TENTHS,
    Weight,
};
pub use fc_bound::BoundKind;
pub use fc_home::HomeRule;
pub use methods::{Method, Question, Sought};

mod methods;
