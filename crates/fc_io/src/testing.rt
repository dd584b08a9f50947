//! A device for tests, which moves one byte at a time and fails at a chosen call.

ghost use Rattle.std.specs.Prelude.{◌≡◌, ◌+◌, ◌<◌, ◌≤◌, ◌↔◌, ◌||◌, ◌==◌, false, length, take, IsTrue, IsErr, IfOk, OnOk, OnErr};
ghost use Rattle.std.specs.Io.KnownBytes.{IsAtEnd};
ghost use Rattle.fc_io.specs.Moves.{Gives, TakesBytes, Stays};

use crate::devices::{Failed, Sink, Source};

/// A source or a sink over another one. Each call moves at most one byte, and once it was called a chosen number of
/// times it fails.
#[derive(Debug, Drop)]
pub struct Failing<D> {
    /// What it stands over.
    pub device: D,
    /// How many calls it still makes before it fails.
    pub calls_left: u32,
    /// Whether it has failed of itself.
    pub is_broken: bool,
}

impl<D> Failing<D> {
    /// A device over `device` that makes `calls` calls and fails at the next.
    pub fn new(device: D, calls: u32) -> Self
        ensures over { result.device ≡ device }
        ensures counted { result.calls_left ≡ calls }
        ensures sound { result.is_broken ≡ false }
    {
        Failing {
            device,
            calls_left: calls,
            is_broken: false,
        }
    }

    // Counts a call, or fails where it isn't to be made.
    fn count_call(&mut self) -> Result<(), Failed>
        ensures same { self.new.device ≡ self.old.device }
        ensures broken { self.new.is_broken ≡ (self.old.is_broken || (self.old.calls_left == 0)) }
        ensures fault { IsErr result ↔ IsTrue self.new.is_broken }
        ensures counted { OnOk result (self.new.calls_left + 1 ≡ self.old.calls_left) }
    {
        if self.is_broken || self.calls_left == 0 {
            self.is_broken = true;
            return Err(Failed);
        }
        self.calls_left -= 1;
        Ok(())
    }
}

impl<S: Source> Source for Failing<S> {
    ghost told = { λ s. S.told s.device };

    ghost has_failed = { λ s. s.is_broken || S.has_failed s.device };

    /// Reads at most one byte.
    fn read(&mut self, room: &mut [u8]) -> Result<usize, Failed>
        ensures within { IfOk result (λ n. n ≤ length room.old) }
        ensures moved { IfOk result
            (λ n. Gives (S.told self.old.device) (S.told self.new.device) (take n room.new)) }
        ensures ends { IfOk result
            (λ n. n ≡ 0 → 0 < length room.old → IsAtEnd (S.told self.new.device)) }
        ensures unmoved { OnErr result (Stays (S.told self.old.device) (S.told self.new.device)) }
        ensures fault { IsErr result ↔ IsTrue (self.new.is_broken || S.has_failed self.new.device) }
        ensures stays { IsTrue (self.old.is_broken || S.has_failed self.old.device) → IsErr result }

        ensures one { IfOk result (λ n. n ≤ 1) }
        ensures broken { self.new.is_broken ≡ (self.old.is_broken || (self.old.calls_left == 0)) }
        ensures counted { OnOk result (self.new.calls_left + 1 ≡ self.old.calls_left) }
    {
        self.count_call()?;
        let end = room.len().min(1);
        self.device.read(&mut room[..end])
    }

    fn failed(&self) -> bool {
        self.is_broken || self.device.failed()
    }
}

impl<K: Sink> Sink for Failing<K> {
    ghost held = { λ s. K.held s.device };

    ghost has_failed = { λ s. s.is_broken || K.has_failed s.device };

    /// Writes at most one byte.
    fn write(&mut self, piece: &[u8]) -> Result<usize, Failed>
        ensures within { IfOk result (λ n. n ≤ length piece.now) }
        ensures moved { IfOk result
            (λ n. TakesBytes (K.held self.old.device) (K.held self.new.device) (take n piece.now)) }
        ensures some { IfOk result (λ n. 0 < length piece.now → 0 < n) }
        ensures unmoved { OnErr result (Stays (K.held self.old.device) (K.held self.new.device)) }
        ensures fault { IsErr result ↔ IsTrue (self.new.is_broken || K.has_failed self.new.device) }
        ensures stays { IsTrue (self.old.is_broken || K.has_failed self.old.device) → IsErr result }

        ensures one { IfOk result (λ n. n ≤ 1) }
        ensures broken { self.new.is_broken ≡ (self.old.is_broken || (self.old.calls_left == 0)) }
        ensures counted { OnOk result (self.new.calls_left + 1 ≡ self.old.calls_left) }
    {
        self.count_call()?;
        let end = piece.len().min(1);
        self.device.write(&piece[..end])
    }

    fn failed(&self) -> bool {
        self.is_broken || self.device.failed()
    }
}
