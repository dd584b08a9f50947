//! The answer of a question: what one search by its method answers, or the best answer that a moment's work gives, by searches with
//! falling weights, each with what is left of one budget and told how long the best list so far is; the last raises the floor.
#![tactic(auto)]

pub use answering::{Wants, answer};
pub use fc_search::{Listener, Progress, Unheard};
pub use schedule::best;

mod answering;
mod attempts;
mod joint_progress;
mod looks;
mod plans;
mod relays;
mod schedule;
mod shortenings;
mod stages;
mod standings;
mod tails;
mod tellings;
