//! What is said of a board's text beside the board itself, found as values: the program prints them. No call allocates.
#![tactic(auto)]

pub use board_texts::{BoardText, file_line, in_file, row_in_file};
pub use fault_notes::{FaultNote, TokenPlace, fault_note};
pub use file_lines::is_blank;
pub use files::{ListedBoard, ListedBoards};
pub use length_notes::{LengthNote, is_board_in_rows, is_like_deal, note_of_columns, note_of_rows};
pub use reasons::Reason;
pub use reversed_deals::reversed_deal;
pub use short_rows::short_row;

mod board_texts;
mod deal_lengths;
mod fault_notes;
mod file_lines;
mod files;
mod length_notes;
mod played_columns;
mod reasons;
mod reversed_deals;
mod short_rows;
mod typed_numbers;
