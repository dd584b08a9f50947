//! Deals, best answers, certificates and replays for other programs: from texts in memory to texts in memory. A game is told by
//! its name. What a call hands over fits a room of the caller's or isn't written.
#![tactic(auto)]

pub use bests::{best, best_certified};
pub use call_refusals::CallRefusal;
pub use figures::{Figures, claimed_outcome, figures_of};
pub use game_names::{AnyGame, GameName, game_of};
pub use keeps::{keep, keep_certified};
pub use method_names::{MethodName, method_of};
pub use rooms::{Call, hand_over, hand_over_certified};
pub use solves::{solve, solve_certified};
pub use spelled_lists::moves_in;
pub use told_answers::{Certified, Told};
pub use told_checks::check_bytes;
pub use told_deals::deal_of;
pub use told_replays::replay_list;
pub use told_reviews::review;
pub use told_sequences::replay_sequences;
pub use typed_boards::start_of;

mod bests;
mod call_refusals;
mod figures;
mod game_names;
mod keeps;
mod method_names;
pub mod numbers;
mod rooms;
mod sinks;
mod solves;
mod spelled_lists;
mod told_answers;
mod told_checks;
mod told_deals;
mod told_replays;
mod told_reviews;
mod told_sequences;
mod typed_boards;
