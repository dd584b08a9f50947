//! Batches: several searches that take turns, each as if it were alone.
#![tactic(auto)]

pub use batches::Batch;

mod batches;
mod held;
pub mod laws;
