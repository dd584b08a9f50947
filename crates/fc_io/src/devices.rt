ghost use Rattle.std.specs.Prelude.{◌≡◌, ℕ, ◌<◌, ◌≤◌, ◌↔◌, Bool, List, Option, length, take, IsTrue, IsErr, IfOk, OnErr};
ghost use Rattle.std.specs.Io.KnownBytes.{IsAtEnd};
ghost use Rattle.fc_io.specs.Moves.{Gives, TakesBytes, Stays};

use thiserror::Error;

/// A device has failed. It answers nothing else from then on.
#[derive(Clone, Copy, Debug, PartialEq, Eq, Error)]
#[error("the device has failed")]
pub struct Failed;

/// A device that bytes are read from.
pub trait Source {
    // The bytes that it still tells, in the order of the reads; `None` where it tells none.
    ghost told: { Self → Option (List ℕ) };

    // Whether it has failed.
    ghost has_failed: { Self → Bool };

    /// Moves the next bytes into the front of `room`, and answers how many: 0 for a room that isn't empty only at the
    /// end. What stands in the room behind them is left open. At `Err` no byte has moved, and every later call is an
    /// `Err` too.
    fn read(&mut self, room: &mut [u8]) -> Result<usize, Failed>
        ensures within { IfOk result (λ n. n ≤ length room.old) }
        ensures moved { IfOk result (λ n. Gives (told self.old) (told self.new) (take n room.new)) }
        ensures ends { IfOk result (λ n. n ≡ 0 → 0 < length room.old → IsAtEnd (told self.new)) }

        ensures unmoved { OnErr result (Stays (told self.old) (told self.new)) }
        ensures fault { IsErr result ↔ IsTrue (has_failed self.new) }
        ensures stays { IsTrue (has_failed self.old) → IsErr result };

    /// Whether it has failed.
    fn failed(&self) -> bool
        ensures answer { result ≡ has_failed self.now };

    /// About how many bytes it still gives, 0 where that isn't known. It is no promise: room is made by it, at once.
    fn likely_len(&self) -> usize {
        0
    }
}

/// A device that bytes are written to.
pub trait Sink {
    // The bytes that it holds, in the order of the writes; `None` where it tells none.
    ghost held: { Self → Option (List ℕ) };

    // Whether it has failed.
    ghost has_failed: { Self → Bool };

    /// Takes a front of `piece`, and answers how many bytes that is: 0 only where the piece is empty. At `Err` no byte
    /// has moved, and every later call is an `Err` too.
    fn write(&mut self, piece: &[u8]) -> Result<usize, Failed>
        ensures within { IfOk result (λ n. n ≤ length piece.now) }
        ensures moved { IfOk result (λ n. TakesBytes (held self.old) (held self.new) (take n piece.now)) }
        ensures some { IfOk result (λ n. 0 < length piece.now → 0 < n) }

        ensures unmoved { OnErr result (Stays (held self.old) (held self.new)) }
        ensures fault { IsErr result ↔ IsTrue (has_failed self.new) }
        ensures stays { IsTrue (has_failed self.old) → IsErr result };

    /// Whether it has failed.
    fn failed(&self) -> bool
        ensures answer { result ≡ has_failed self.now };
}
