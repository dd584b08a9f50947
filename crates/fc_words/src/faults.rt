use clap::error::ErrorKind;
use std::alloc::AllocError;
use thiserror::Error;

/// Why a command line asks for nothing that the program does.
#[derive(Debug, Drop, Error)]
pub enum WordsFault {
    /// The words are none of the command line's, or ask for help or the version: what there is to print, and where.
    #[error("{0}")]
    Usage(clap::Error),
    /// The budget is no number.
    #[error("--budget is a number, such as 100000, 100_000, 100k, 4M or 1e6, or max")]
    NoBudget,
    /// The weight is no number that is one.
    #[error("--within is a number from 1 to 10, such as 2 or 1.3")]
    NoWeight,
    /// The certificate is to go to standard output, where the answer goes.
    #[error("--cert takes the name of a file: standard output is the answer's")]
    CertInAnswer,
    /// The board and the word of this name are both to be read from standard input.
    #[error("BOARD and {0} can't both be standard input")]
    OneInput(&'static str),
    /// The option of this name is to read standard input twice.
    #[error("--{0} can take standard input once")]
    InputTwice(&'static str),
    /// A word that each command line has isn't there; the table of words lets none of these through.
    #[error("a word is missing")]
    Missing,
    /// A growth of memory was refused.
    #[error("want of memory")]
    Memory,
}

impl From<AllocError> for WordsFault {
    ghost use Rattle.std.specs.Prelude.{◌≡◌};
    ghost use Rattle.fc_words.specs.declared.faults.WordsFault.TheVariants.{Memory};

    ghost from_gives = { λ _ fault. fault ≡ Memory };

    fn from(_refused: AllocError) -> WordsFault {
        WordsFault::Memory
    }
}

impl From<clap::Error> for WordsFault {
    fn from(error: clap::Error) -> WordsFault {
        match error.kind() {
            ErrorKind::OutOfMemory => WordsFault::Memory,
            _ => WordsFault::Usage(error),
        }
    }
}
