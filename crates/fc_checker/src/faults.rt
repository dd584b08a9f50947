use fc_cert::CertFault;
use thiserror::Error;

/// Why bytes are not accepted. Steps count from 1, records from 0.
#[derive(Clone, Copy, Debug, PartialEq, Eq, Error)]
pub enum CheckFault {
    /// The bytes don't have the form of a certificate.
    #[error("{0}")]
    Form(CertFault),
    /// The code of the game or its number of cells is another game's.
    #[error("OtherGame")]
    OtherGame,
    /// The move of this step isn't allowed.
    #[error("NotAllowed({0})")]
    NotAllowed(u32),
    /// The moves don't bring all cards home.
    #[error("NotHome")]
    NotHome,
    /// The start, settled, isn't covered, or not listed.
    #[error("StartOpen")]
    StartOpen,
    /// The class of this record is won.
    #[error("WonListed({0})")]
    WonListed(u32),
    /// From the class of this record a step leads to one that isn't covered, or not listed.
    #[error("Open({0})")]
    Open(u32),
    /// A growth of memory was refused.
    #[error("Memory")]
    Memory,
}
