//! What became of a game: where a list of moves lost it, how good a list is that wins, and how many entries of a list are left to a
//! player's hands.
#![tactic(auto)]

pub use findings::{Finding, find, finding_text, run_review};
pub use hands::count_by_hand;
pub use judges::{Judge, trace};
pub use known_boards::{KnownBoard, board_after, known_after, wins};
pub use ratings::{Rating, rate};
pub use review_lines::{rating_status, rating_text, review_status, review_text};
pub use reviews::{Review, review_of};

mod findings;
mod hands;
mod judges;
mod known_boards;
mod ratings;
mod review_lines;
mod reviews;
mod spans;
