ghost use Rattle.std.specs.Prelude.{◌≡◌, ◌<◌, ◌≤◌, ◌↔◌, min, false, length, take, drop, Some, Ok, IsTrue, IsErr, IfOk, OnErr};
ghost use Rattle.std.specs.Io.KnownBytes.{IsAtEnd};
ghost use Rattle.fc_io.specs.Moves.{Gives, Stays};

use crate::devices::{Failed, Source};
use std::marker::Model;

/// A source over bytes in memory, seen by contracts as those that are left. It never fails.
#[derive(Debug, Drop)]
pub struct FromSlice<'a> {
    rest: &'a [u8],
}

impl<'a> Model for FromSlice<'a> {
    ghost use Rattle.std.specs.Prelude.{ℕ, List};

    ghost Value = { List ℕ };

    ghost view = { λ s. s.rest.now };
}

impl<'a> FromSlice<'a> {
    /// A source that tells `bytes`.
    pub fn new(bytes: &'a [u8]) -> Self
        ensures told { result ≡ bytes.now }
    {
        FromSlice { rest: bytes }
    }

    /// The bytes that it still tells.
    pub fn left(&self) -> &'a [u8]
        ensures told { result.now ≡ self.now }
    {
        self.rest
    }
}

impl Source for FromSlice<'_> {
    ghost told = { λ s. Some s };

    ghost has_failed = { λ _. false };

    /// Gives as many bytes as there is room for and are left.
    fn read(&mut self, room: &mut [u8]) -> Result<usize, Failed>
        ensures within { IfOk result (λ n. n ≤ length room.old) }
        ensures moved { IfOk result (λ n. Gives (Some self.old) (Some self.new) (take n room.new)) }
        ensures ends { IfOk result (λ n. n ≡ 0 → 0 < length room.old → IsAtEnd (Some self.new)) }
        ensures unmoved { OnErr result (Stays (Some self.old) (Some self.new)) }
        ensures fault { IsErr result ↔ IsTrue false }
        ensures stays { IsTrue false → IsErr result }

        ensures count { result ≡ Ok (min (length room.old) (length self.old)) }
        ensures beyond { IfOk result (λ n. drop n room.new ≡ drop n room.old) }
    {
        let count = room.len().min(self.rest.len());
        let (front, rest) = self.rest.split_at(count);
        room[..count].copy_from_slice(front);
        self.rest = rest;
        Ok(count)
    }

    fn failed(&self) -> bool {
        false
    }

    fn likely_len(&self) -> usize {
        self.left().len()
    }
}
