//! Board texts in Freecell Solver's form: read exactly, and printed. No call allocates.
//!
//! `Tokens` parts any text at the gaps that its reader names, for the readers of other texts too.
#![tactic(auto)]

pub use boards::read_board;
pub use faults::BoardFault;
pub use lines::is_column_line;
pub use pieces::{Blanks, Gaps, Tokens};
pub use printers::print_board;
pub use spots::{Spot, first_spot_of, last_spot_of, spot_of};

mod boards;
mod drafts;
mod faults;
pub mod laws;
mod lines;
mod pieces;
mod printers;
mod readers;
mod spots;
mod tokens;
