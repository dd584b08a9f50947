//! How answers, claims and the lines of batches are printed, and the exit statuses that go with them.
#![tactic(auto)]

pub use answer_lines::{
    accepted_text, line_text, outcome_of, told_status, verdict_status, verdict_text,
};

mod answer_lines;
