//! Cards that go home without loss: sending them home at once lengthens no shortest solution.
//!
//! Which cards go is told by a home rule, 0 to 2: by rule 0 none, by rule 1 the forced ones, by rule 2 the free ones.
//! Everything here is generic over the game. No call allocates.
#![tactic(auto)]

pub use home_rules::HomeRule;
pub use rules::free;
pub use settling::{GREATEST_RULE, forced, goes_home_from, settle};

mod home_rules;
mod known;
pub mod laws;
mod rules;
mod settling;
