//! What is told of a board, or of a list of moves, as a JSON object for other programs.
#![tactic(auto)]

pub use objects::{ToldBoard, object_text};
pub use reviews::{ToldList, review_object_text};

pub mod laws;
mod objects;
mod reviews;
