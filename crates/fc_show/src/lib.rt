//! Boards drawn as players see them: what is in the cells and at home above the columns, which go downward. No call
//! allocates.
#![tactic(auto)]

pub use drawings::{Drawing, MOST_BYTES, draw};
pub use inks::card_shown;
pub use styles::Style;

mod drawings;
mod entries;
mod inks;
mod styles;
