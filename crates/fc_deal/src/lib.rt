//! The numbered deals of FreeCell: the generator, the deals, and their text.
//!
//! Numbers 1 to 32000 are the deals of Microsoft FreeCell, by Jim Horne's algorithm; from 32001 to 1,000,000 the same
//! algorithm goes on, which is this project's own. No call allocates.
#![tactic(auto)]

pub use deals::{MOST_DEAL, deal, is_deal_number};
pub use generator::Draws;
pub use texts::deal_text;

mod deals;
mod decks;
mod generator;
mod texts;
