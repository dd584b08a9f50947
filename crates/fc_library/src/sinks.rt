ghost use Rattle.std.specs.Prelude.{◌≡◌, ◌<◌, ◌≤◌, ◌↔◌, [], false, length, take, Some, IsTrue, IsErr, IfOk, OnErr};
ghost use Rattle.fc_io.specs.Moves.{TakesBytes, Stays};

use fc_io::{Failed, Sink};
use std::alloc::Global;
use std::marker::Model;

// A sink over memory that grows. It fails where a growth was refused.
#[derive(Debug, Drop)]
pub(crate) struct ToVec {
    bytes: Vec<u8>,
    has_failed: bool,
}

impl Model for ToVec {
    ghost use Rattle.fc_io.specs.States.{ArrayState};

    ghost Value = { ArrayState };

    ghost view = { λ s. record { bytes = s.bytes.items; has_failed = s.has_failed } };
}

impl ToVec {
    // A sink that holds nothing yet.
    pub(crate) fn new(alloc: Global) -> Self
        ensures empty { result.bytes ≡ [] }
        ensures sound { result.has_failed ≡ false }
    {
        ToVec {
            bytes: Vec::new(alloc),
            has_failed: false,
        }
    }

    // The bytes that it holds.
    pub(crate) fn into_bytes(self) -> Vec<u8>
        ensures told { result.items ≡ self.bytes }
    {
        let ToVec {
            bytes,
            has_failed: _,
        } = self;
        bytes
    }
}

impl Sink for ToVec {
    ghost held = { λ s. Some s.bytes };

    ghost has_failed = { λ s. s.has_failed };

    /// Takes the whole piece.
    fn write(&mut self, piece: &[u8]) -> Result<usize, Failed> {
        if self.has_failed {
            return Err(Failed);
        }
        match self.bytes.extend_from_slice(piece) {
            Ok(()) => Ok(piece.len()),
            Err(_) => {
                self.has_failed = true;
                Err(Failed)
            }
        }
    }

    fn failed(&self) -> bool {
        self.has_failed
    }
}
