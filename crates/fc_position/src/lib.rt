//! Positions of a FreeCell board: eight columns, four freecells and four foundations, with each of the 52 cards in
//! exactly one place.
//!
//! A position is seen by contracts as one `Board`: the columns with the deepest card first, the cells, and how many
//! cards of each suit are home. No call allocates.
#![tactic(auto)]

pub use columns::{Columns, Filling};
pub use faults::PartsFault;
pub use positions::Position;
pub use tallies::Tally;

mod columns;
mod faults;
mod layouts;
mod positions;
mod tallies;
