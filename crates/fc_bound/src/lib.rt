//! The lower bounds of a position.
//!
//! Each card that isn't home must go home, and a card that stands above a lower card of its own suit must be moved out
//! of the way before, since the lower card goes home first: the plain bound counts both. The clearing bound counts for
//! the latter what it costs at least to take all cards out of their columns, last cards first, where a card costs one
//! while a lower card of its own suit still stands in some column. The knot bound lies between the two, and is counted
//! quickly. No call allocates.
#![tactic(auto)]

pub use bounds::{GREATEST_BOUND, bound, is_held_back};
pub use clearing::clearing_bound;
pub use kinds::BoundKind;
pub use knots::knot_bound;
pub use landings::Landing;
pub use rings::Shown;
pub use waiting_rows::ColumnTable;

mod bits;
mod bounds;
mod clearing;
mod column_tables;
mod columns_left;
mod emptying;
mod families;
mod fares;
mod kinds;
mod knots;
mod landings;
pub mod laws;
mod ring_search;
mod rings;
mod waiting_rows;
