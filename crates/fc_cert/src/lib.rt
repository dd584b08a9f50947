//! Certificates: the bytes by which an answer can be checked by somebody who trusts nobody, written and read byte by byte.
//! Nothing here searches.
#![tactic(auto)]

pub use certificate_writers::write_answer;
pub use certificates::{Certificate, LONGEST_CERTIFICATE};
pub use claims::Claim;
pub use contents::{Form, Head, Kind};
pub use faults::CertFault;
pub use lengths::certificate_length;

mod certificate_readers;
mod certificate_writers;
mod certificates;
mod chains;
mod claims;
mod comparisons;
mod contents;
mod faults;
mod fields;
mod heads;
pub mod laws;
mod lengths;
mod record_layouts;
