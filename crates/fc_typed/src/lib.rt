//! What people type and copy, made tidy: board texts and counts such as `4M`.
//!
//! A board text may have symbols of suits (`7♦`), cards told suit first (`D7`) or with commas between them, foundations
//! told by their last cards (`Foundations: 4H`) or as `Home: H:4`, cells named `Cells:` or `Free:`, columns that are numbered
//! (`3:`, `3.` or `3)`) or told to be empty by a dash, a title above the board, comments from `#` to the end of their line, or
//! a mark of byte order; with that mark it may be UTF-16. A number is taken off where it is its column's own: `3:` first in
//! the third line that the reader takes for a column's, blank lines counted and lines that have nothing but a comment, or the
//! title, not. A board text without any of these is handed on as it is, and so is every text that the reader accepts. Of a
//! text that lacks cards it is told which, and the foundation line that makes it a board. No call allocates.
#![tactic(auto)]

pub use counts::read_count;
pub use guesses::GuessedText;
pub use missing::missing_cards;
pub use tidy_texts::{MOST_BYTES, TidyText};
pub use titles::Title;
pub use typed_words::typed_word;

mod comments;
mod counts;
mod guesses;
mod labels;
pub mod laws;
mod missing;
mod names;
mod signs;
mod spellings;
mod tidy_texts;
mod titles;
mod token_spellings;
mod typed_words;
mod units;
