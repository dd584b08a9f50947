//! The boards of a list of moves, as players and solvers write such lists, and where such a list stops being one that the
//! rules allow. No call allocates.
#![tactic(auto)]

pub use faults::ReplayFault;
pub use move_tokens::{MoveGaps, read_token};
pub use pages::Page;
pub use plays::play;
pub use replays::{Ended, replay, replay_as};
pub use stops::{RefusedMove, Stop, first_stop};
pub use tellings::ToldMove;

mod faults;
pub mod laws;
mod move_tokens;
mod pages;
mod plays;
mod replays;
mod stops;
mod tellings;
