ghost use Rattle.std.specs.Prelude.{◌≡◌, ℕ, List, ◌<◌, ◌≤◌, ◌↔◌, ◌⊎◌, false, length, take, None, IsTrue, IsErr, IfOk, OnErr};
ghost use Rattle.fc_io.specs.Moves.{TakesBytes, Stays};

use crate::devices::{Failed, Sink};
use std::io;
use std::io::Write;
use std::marker::Model;

/// What is written one call at a time: any writer of the standard library. What a call did to it is a relation of its own,
/// so that a contract can say that a writer took bytes, or failed, in that very call.
pub trait Writing {
    // One write took the first so many bytes of the list, and left this writer.
    ghost takes: { Self → List ℕ → ℕ → Self → Type 0 };

    // One write failed, and left this writer.
    ghost fails: { Self → Self → Type 0 };

    /// Writes once a front of `piece`, and answers how many bytes that is.
    ///
    /// # Errors
    /// Those of the writer.
    fn write_once(&mut self, piece: &[u8]) -> io::Result<usize>
        ensures within { IfOk result (λ n. n ≤ length piece.now) }
        ensures taken { IfOk result (λ n. takes self.old piece.now n self.new) }
        ensures failed { OnErr result (fails self.old self.new) };
}

impl<W: Write> Writing for W {
    ghost use Rattle.std.specs.Prelude.{take};
    ghost use Rattle.std.specs.Io.KnownBytes.{Appends, Keeps};

    ghost takes = { λ old bytes n new. Appends (W.contents old) (W.contents new) (take n bytes) };

    ghost fails = { λ old new. Keeps (W.contents old) (W.contents new) };

    fn write_once(&mut self, piece: &[u8]) -> io::Result<usize> {
        self.write(piece)
    }
}

/// A sink over a writer, which tells no bytes. It fails at any error of the writer, and where the writer takes no byte
/// of a piece that isn't empty; the writer is not written again. It flushes nothing.
#[derive(Debug, Drop)]
pub struct ToWriter<W> {
    writer: W,
    has_failed: bool,
}

impl<W> Model for ToWriter<W> {
    ghost use Rattle.fc_io.specs.States.{Over};

    ghost Value = { Over W };

    ghost view = { λ s. record { inner = s.writer; has_failed = s.has_failed } };
}

impl<W> ToWriter<W> {
    /// A sink that writes to `writer`.
    pub fn new(writer: W) -> Self
        ensures over { result.inner ≡ writer }
        ensures sound { result.has_failed ≡ false }
    {
        ToWriter {
            writer,
            has_failed: false,
        }
    }
}

impl<W: Writing> Sink for ToWriter<W> {
    ghost held = { λ _. None };

    ghost has_failed = { λ s. s.has_failed };

    /// Writes to the writer once.
    fn write(&mut self, piece: &[u8]) -> Result<usize, Failed>
        ensures within { IfOk result (λ n. n ≤ length piece.now) }
        ensures moved { IfOk result (λ n. TakesBytes None None (take n piece.now)) }
        ensures some { IfOk result (λ n. 0 < length piece.now → 0 < n) }
        ensures unmoved { OnErr result (Stays None None) }
        ensures fault { IsErr result ↔ IsTrue self.new.has_failed }
        ensures stays { IsTrue self.old.has_failed → IsErr result }

        ensures took { IfOk result (λ n. W.takes self.old.inner piece.now n self.new.inner) }
        // It failed before, the writer failed now, or took no byte of a piece that isn't empty.
        ensures failed_now { OnErr result (IsTrue self.old.has_failed ⊎ W.fails self.old.inner self.new.inner
            ⊎ ((0 < length piece.now) × W.takes self.old.inner piece.now 0 self.new.inner)) }
        ensures kept { IsTrue self.old.has_failed → self.new ≡ self.old }
    {
        if self.has_failed {
            return Err(Failed);
        }
        match self.writer.write_once(piece) {
            Ok(count) if count > 0 || piece.is_empty() => Ok(count),
            _ => {
                self.has_failed = true;
                Err(Failed)
            }
        }
    }

    fn failed(&self) -> bool {
        self.has_failed
    }
}
