//! What stands for a class of positions: its canonical position, and that position's bytes, its key. No call allocates.
#![tactic(auto)]

pub use checks::is_key;
pub use distinct::{distinct_moves, list_distinct_moves};
pub use keys::{Key, key};
pub use orders::canonical;
pub use readers::{key_len, key_size, position_of, read_key};
pub use searches::find_move;
pub use wanted::list_wanted_moves;

mod card_sets;
mod checks;
mod distinct;
mod keys;
pub mod laws;
mod orders;
mod readers;
mod searches;
mod wanted;
