//! The runs of the program that no search has a part in, which deal, show and replay, over any source and any sink; what the
//! program reads and writes, and every run's faults and their statuses.
#![tactic(auto)]

pub use faults::{Input, Output, ProgramFault, read_fault};
pub use list_questions::run_list;
pub use runs::{LONGEST_BOARD, read_position, run_replay_as};
pub use sequences::run_replay_sequences;
pub use showing::{Look, run_show};
pub use written_out::{run_deal, run_replay};

mod faults;
pub mod laws;
mod list_questions;
mod runs;
mod sequences;
mod showing;
mod written_out;
