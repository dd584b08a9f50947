//! Boards typed in rows, as a screen shows them, put into columns, which is what the reader of board texts reads. No call
//! allocates.
#![tactic(auto)]

pub use column_texts::{ColumnText, MOST_BYTES, columns_of_row_text};
pub use faults::RowTextFault;
pub use readings::{Places, Reading};
pub use row_lines::{LineTold, RowLineKind, RowLines};
pub use spans::Span;

mod column_lines;
mod column_texts;
mod faults;
mod heads;
pub mod laws;
mod readings;
mod row_checks;
mod row_entries;
mod row_lines;
mod row_words;
mod spans;
