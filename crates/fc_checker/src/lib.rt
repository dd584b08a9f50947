//! The checker of certificates: it accepts bytes that prove a claim of a board, or says why they don't, and searches nothing.
#![tactic(auto)]

pub use certificate_checks::check;
pub use faults::CheckFault;
pub use fc_cert::Claim;

mod certificate_checks;
mod faults;
pub mod laws;
mod lookups;
mod record_steps;
