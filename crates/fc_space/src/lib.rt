//! The positions of a game as a space that the search walks: settled positions, the children of each, what is shown of them, and
//! the ways that lead to them.
#![tactic(auto)]

pub use child_walks::Children;
pub use class_space::{ClassRules, Positions};
pub use ways::follow;

mod child_walks;
mod class_space;
mod coded;
mod lookups;
mod stays;
mod visits;
mod ways;
