use thiserror::Error;

/// Why an answer has no certificate, or bytes are none. Moves count from 1, records from 0.
#[derive(Clone, Copy, Debug, PartialEq, Eq, Error)]
pub enum CertFault {
    /// A search gave up, so there is no table.
    #[error("NotCertified")]
    NotCertified,
    /// The sink has failed.
    #[error("Write")]
    Write,
    /// A field isn't all there.
    #[error("Short")]
    Short,
    /// The first four bytes are none of `FCC1`, `FCC2` and `FCC3`.
    #[error("BadMagic")]
    BadMagic,
    /// A game has at most four cells.
    #[error("BadCells")]
    BadCells,
    /// The form knows no such home rule.
    #[error("BadRule")]
    BadRule,
    /// The byte of the bound is neither 0 nor 1.
    #[error("BadBound")]
    BadBound,
    /// The form knows no such kind.
    #[error("BadKind")]
    BadKind,
    /// The floor is above the number of moves.
    #[error("BadFloor")]
    BadFloor,
    /// The two bytes are no move.
    #[error("BadMove({0})")]
    BadMove(u32),
    /// The bytes of the record are no key of the game.
    #[error("BadRecord({0})")]
    BadRecord(u32),
    /// The key isn't greater by its bytes than the one of the record before.
    #[error("Order({0})")]
    Order(u32),
    /// The cost isn't 0 where no list wins.
    #[error("Label({0})")]
    Label(u32),
    /// Something follows the last record.
    #[error("Trailing")]
    Trailing,
    /// A growth of memory was refused.
    #[error("Memory")]
    Memory,
}
