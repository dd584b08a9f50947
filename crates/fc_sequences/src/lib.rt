//! Sequences moved at once, as players count them: how many cards the rules of a game allow, and the one-card moves that do
//! it; and lists in standard notation, whose entries may move sequences.
#![tactic(auto)]

pub use carries::{carry, may_carry};
pub use gathers::{GatherFault, MOST_AHEAD, gather};
pub use list_expansions::{ListFault, MOST_BOARDS, expand};
pub use pair_texts::print_pair;
pub use pairs::{Pair, read_pair};
pub use sayings::read_saying;

mod carries;
mod gathers;
pub mod laws;
mod layers;
mod list_expansions;
mod pair_texts;
mod pairs;
mod sayings;
mod spaces;
