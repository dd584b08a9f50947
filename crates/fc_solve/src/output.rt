//! What the program says and writes: answers in each form, files of certificates, and why something is refused.

pub mod advice;
pub mod answer_forms;
pub mod answer_objects;
pub mod cert_names;
pub mod certs;
pub mod endings;
pub mod entry_pages;
pub mod found_answers;
pub mod hand_counts;
pub mod hand_entries;
pub mod links;
pub mod list_hints;
pub mod listing_tallies;
pub mod notes;
pub mod others;
pub mod outputs;
pub mod refused_entries;
pub mod replay_objects;
pub mod review_objects;
pub mod review_texts;
pub mod telling;
pub mod token_fronts;
pub mod watching;
