//! The search for a cheapest answer, or one that is cheapest up to a weight, over any space of keys: best first, in turns,
//! within a budget of stored keys.
#![tactic(auto)]

pub use books::{Book, Mark, Offered, Opening};
pub use limits::{
    Budget, GreatBudget, MOST_BUDGET, MOST_GREAT_BUDGET, MOST_WEIGHT, TENTHS, Weight,
};
pub use searches::{Search, SearchFault, Step};
pub use spaces::{Child, Noted, Space};
pub use strategies::{Expansion, Strategy};
pub use turns::{MOST_OVER, MOST_SPARE, Placing, Status};

mod books;
mod floors;
pub mod laws;
mod limits;
mod offers;
mod searches;
mod spaces;
mod strategies;
mod turns;
