//! What is answered of a position: a shortest list of moves or that no list wins, with the table of classes that backs it, a
//! list that wins within a weight of the shortest with one that backs its floor, or that a search gave up. Nothing here searches.
#![tactic(auto)]

pub use answers::{Answer, MOST_MOVES, MoveList, Outcome, Verdict};
pub use closed_tables::{MOST_CLASSES, Table};
pub use table_rows::Row;

mod answers;
mod closed_tables;
pub mod laws;
mod sorting;
mod table_rows;
