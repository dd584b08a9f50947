ghost use Rattle.std.specs.Prelude.{◌≡◌, ℕ, List, ◌<◌, ◌≤◌, ◌↔◌, ◌⊎◌, false, length, take, None, IsTrue, IsErr, IfOk, OnErr};
ghost use Rattle.std.specs.Io.KnownBytes.{IsAtEnd};
ghost use Rattle.fc_io.specs.Moves.{Gives, Stays};

use crate::devices::{Failed, Source};
use std::io;
use std::io::Read;
use std::marker::Model;

/// What is read one call at a time: any reader of the standard library. What a call did to it is a relation of its own, so
/// that a contract can say that a reader gave bytes, or failed, in that very call.
pub trait Reading {
    // One read gave the first so many bytes of the list, and left this reader.
    ghost gives: { Self → List ℕ → ℕ → Self → Type 0 };

    // One read failed, and left this reader.
    ghost fails: { Self → Self → Type 0 };

    /// Reads once, into the front of `room`, and answers how many bytes that is.
    ///
    /// # Errors
    /// Those of the reader.
    fn read_once(&mut self, room: &mut [u8]) -> io::Result<usize>
        ensures within { IfOk result (λ n. n ≤ length room.old) }
        ensures given { IfOk result (λ n. gives self.old room.new n self.new) }
        ensures failed { OnErr result (fails self.old self.new) };
}

impl<R: Read> Reading for R {
    ghost use Rattle.std.specs.Prelude.{take};
    ghost use Rattle.std.specs.Io.KnownBytes.{Consumes, Keeps, IsAtEnd};

    ghost gives = { λ old bytes n new. Consumes (R.remaining old) (R.remaining new) (take n bytes)
        × (n ≡ 0 → 0 < length bytes → IsAtEnd (R.remaining new)) };

    ghost fails = { λ old new. Keeps (R.remaining old) (R.remaining new) };

    fn read_once(&mut self, room: &mut [u8]) -> io::Result<usize> {
        self.read(room)
    }
}

/// A source over a reader, which tells no bytes. It fails at any error of the reader, which is not read again.
#[derive(Debug, Drop)]
pub struct FromReader<R> {
    reader: R,
    has_failed: bool,
    likely_len: usize,
}

impl<R> Model for FromReader<R> {
    ghost use Rattle.fc_io.specs.States.{Over};

    ghost Value = { Over R };

    ghost view = { λ s. record { inner = s.reader; has_failed = s.has_failed } };
}

impl<R> FromReader<R> {
    /// A source that reads `reader`.
    pub fn new(reader: R) -> Self
        ensures over { result.inner ≡ reader }
        ensures sound { result.has_failed ≡ false }
    {
        Self::with_likely_len(reader, 0)
    }

    /// A source that reads `reader`, which gives about so many bytes.
    pub fn with_likely_len(reader: R, likely_len: usize) -> Self
        ensures over { result.inner ≡ reader }
        ensures sound { result.has_failed ≡ false }
    {
        FromReader {
            reader,
            has_failed: false,
            likely_len,
        }
    }
}

impl<R: Reading> Source for FromReader<R> {
    ghost told = { λ _. None };

    ghost has_failed = { λ s. s.has_failed };

    /// Reads the reader once.
    fn read(&mut self, room: &mut [u8]) -> Result<usize, Failed>
        ensures within { IfOk result (λ n. n ≤ length room.old) }
        ensures moved { IfOk result (λ n. Gives None None (take n room.new)) }
        ensures ends { IfOk result (λ n. n ≡ 0 → 0 < length room.old → IsAtEnd None) }
        ensures unmoved { OnErr result (Stays None None) }
        ensures fault { IsErr result ↔ IsTrue self.new.has_failed }
        ensures stays { IsTrue self.old.has_failed → IsErr result }

        ensures gave { IfOk result (λ n. R.gives self.old.inner room.new n self.new.inner) }
        ensures failed_now { OnErr result (IsTrue self.old.has_failed ⊎ R.fails self.old.inner self.new.inner) }
        ensures kept { IsTrue self.old.has_failed → self.new ≡ self.old }
    {
        if self.has_failed {
            return Err(Failed);
        }
        match self.reader.read_once(room) {
            Ok(count) => Ok(count),
            Err(_) => {
                self.has_failed = true;
                Err(Failed)
            }
        }
    }

    fn failed(&self) -> bool {
        self.has_failed
    }

    fn likely_len(&self) -> usize {
        self.likely_len
    }
}
