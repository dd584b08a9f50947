//! Lists of moves, as people and programs write and print them: their entries, and how those are played.
#![tactic(auto)]

pub use expansions::{Expansion, expand_entries};
pub use faults::PlayFault;
pub use letters::{moves_text, push_moves, push_moves_line};
pub use list_lines::entries_alone;
pub use list_plays::{LONGEST_MOVES, ListQuestion, ListWants, last_board, list_board, list_moves};
pub use people::{EntriesFault, read_entries};
pub use weaving::{WeaveFault, Woven, weave, weave_entries};
pub use written_entries::Entry;

mod expansions;
mod faults;
pub mod laws;
mod letter_lines;
mod letters;
mod list_lines;
mod list_plays;
mod people;
mod told_entries;
mod weaving;
mod words;
mod written_entries;
