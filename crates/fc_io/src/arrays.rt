ghost use Rattle.std.specs.Prelude.{◌≡◌, ◌-◌, ◌<◌, ◌≤◌, ◌↔◌, [], min, false, length, take, Some, IsTrue, IsErr, IfOk, OnErr};
ghost use Rattle.fc_io.specs.Moves.{TakesBytes, Stays};

use crate::devices::{Failed, Sink};
use arrayvec::ArrayVec;
use std::marker::Model;

/// A sink over an array of `N` bytes, which takes no memory. It fails where it is full and more is written.
#[derive(Debug, Drop)]
pub struct ToArray<const N: usize> {
    bytes: ArrayVec<u8, N>,
    has_failed: bool,
}

impl<const N: usize> Model for ToArray<N> {
    ghost use Rattle.fc_io.specs.States.{ArrayState};

    ghost Value = { ArrayState };

    ghost view = { λ s. record { bytes = s.bytes.items; has_failed = s.has_failed } };
}

impl<const N: usize> ToArray<N> {
    /// A sink that holds nothing yet.
    pub fn new() -> Self
        ensures empty { result.bytes ≡ [] }
        ensures sound { result.has_failed ≡ false }
    {
        ToArray {
            bytes: ArrayVec::new(),
            has_failed: false,
        }
    }

    /// The bytes that it holds, at most `N`.
    pub fn held(&self) -> &[u8]
        ensures told { result.now ≡ self.now.bytes }
        ensures fits { length result.now ≤ N }
    {
        self.bytes.as_slice()
    }
}

impl<const N: usize> Sink for ToArray<N> {
    ghost held = { λ s. Some s.bytes };

    ghost has_failed = { λ s. s.has_failed };

    /// Takes as many bytes as there is room for.
    fn write(&mut self, piece: &[u8]) -> Result<usize, Failed>
        ensures within { IfOk result (λ n. n ≤ length piece.now) }
        ensures moved { IfOk result
            (λ n. TakesBytes (Some self.old.bytes) (Some self.new.bytes) (take n piece.now)) }
        ensures some { IfOk result (λ n. 0 < length piece.now → 0 < n) }
        ensures unmoved { OnErr result (Stays (Some self.old.bytes) (Some self.new.bytes)) }
        ensures fault { IsErr result ↔ IsTrue self.new.has_failed }
        ensures stays { IsTrue self.old.has_failed → IsErr result }

        ensures count { IfOk result (λ n. n ≡ min (length piece.now) (N - length self.old.bytes)) }
        ensures full { self.old.has_failed ≡ false
            → IsErr result ↔ ((length self.old.bytes ≡ N) × (0 < length piece.now)) }
        ensures fits { length self.new.bytes ≤ N }
    {
        let count = piece.len().min(self.bytes.remaining_capacity());
        if self.has_failed || (count == 0 && !piece.is_empty()) {
            self.has_failed = true;
            return Err(Failed);
        }
        let _fits = self.bytes.try_extend_from_slice(&piece[..count]);
        Ok(count)
    }

    fn failed(&self) -> bool {
        self.has_failed
    }
}
