//! The words of the program's command line: its subcommands, options and help, and what a line of them asks for. Nothing
//! here searches, reads or writes.
#![tactic(auto)]

pub use alone::{is_number, is_subcommand, mean_board};
pub use bound_names::{bound_name, bound_of_name};
pub use commands::{
    BatchBoards, BatchForm, BatchSearch, BatchWords, BestSearchWords, BestWords, BoardWord,
    BoardWords, CheckWords, Command, DealWords, FileWord, GameWords, HintWords, ReplayWords,
    ReviewLists, ReviewWords, SearchWords, ShowWords, SolveWords, TextWords,
};
pub use expansion_names::{expansion_name, expansion_of_name, usual_expansion};
pub use faults::WordsFault;
pub use forms::{Colours, EntriesForm, MovesForm, ReplayForm};
pub use game_names::GameName;
pub use reading::read;
pub use tasks::Task;
pub use weights::weight_of;

mod alone;
mod batch_words;
mod board_words;
mod bound_names;
mod clap_commands;
mod commands;
mod expansion_names;
mod faults;
mod forms;
mod game_names;
mod hint_words;
pub mod laws;
mod link_words;
mod name_places;
mod options;
mod reading;
mod replay_words;
mod review_words;
mod subcommands;
mod tasks;
mod weights;
