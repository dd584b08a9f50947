ghost use Rattle.std.specs.Prelude.{◌≡◌, ◌↔◌, [], IsNone, IfSome, IfNone, OnOk, OnErr};
ghost use Rattle.fc_frontier.specs.Place.{PopsFirst, pairs_at, place_of};
ghost use Rattle.fc_frontier.specs.Queue.{Adds, IsLeast, with_pair};

use crate::frontiers::{Frontier, Full};
use crate::stacks::Stacks;
use crate::tie_lists::TieList;
use crate::walks::Pairs;
use std::alloc::Global;
use std::marker::Model;

// How many places each f has, one for each tie.
const TIES: u32 = 256;

// A stack may stand for each tie of each f below this number.
const NEAR: u32 = 2048;

/// A stack of nodes for each `f` below 2,048 and each tie, made where a push wants it, and one plain list for greater `f`, which
/// is searched only where all stacks are empty. `push` gives the tie 0.
///
/// Contracts see the place 256 f + tie of each pair and its node, in the order in which they will be taken: of equal `f` the least
/// tie comes first, and of equal `f` and tie the pair that was pushed last.
#[derive(Debug, Drop)]
pub struct TieBucketFrontier {
    near: Stacks,
    far: TieList,
}

impl Model for TieBucketFrontier {
    ghost use Rattle.std.specs.Prelude.{ℕ, ◌<◌, ◌≤◌, List, ◌++◌, All};

    ghost Value = { List (ℕ × ℕ) };

    ghost view = { λ s. s.near ++ s.far };

    ghost invariant = { λ s. All (λ p. p.0 < 524288) s.near × All (λ p. 524288 ≤ p.0) s.far };
}

impl Frontier for TieBucketFrontier {
    ghost pairs = { pairs_at 256 };

    fn new(alloc: Global) -> Self
        ensures empty { pairs_at 256 result ≡ [] }

        ensures value { result ≡ [] }
    {
        TieBucketFrontier {
            near: Stacks::new(alloc),
            far: TieList::new(alloc),
        }
    }

    fn push(&mut self, f: u32, node: u32) -> Result<(), Full>
        ensures added { OnOk result (Adds (pairs_at 256 self.old) (pairs_at 256 self.new) (f, node)) }
        ensures refused { OnErr result (self.new ≡ self.old) }

        ensures order { OnOk result (self.new ≡ with_pair (place_of f 0, node) self.old) }
    {
        self.push_tied(f, 0, node)
    }

    fn push_tied(&mut self, f: u32, tie: u8, node: u32) -> Result<(), Full>
        ensures added { OnOk result (Adds (pairs_at 256 self.old) (pairs_at 256 self.new) (f, node)) }
        ensures refused { OnErr result (self.new ≡ self.old) }

        ensures order { OnOk result (self.new ≡ with_pair (place_of f tie, node) self.old) }
    {
        if f < NEAR {
            self.near.push(TIES * f + tie as u32, node)
        } else {
            self.far.push(f, tie, node)
        }
    }

    fn pop_least(&mut self) -> Option<(u32, u32)>
        ensures taken { IfSome result (λ p. Adds (pairs_at 256 self.new) (pairs_at 256 self.old) p) }
        ensures least { IfSome result (λ p. IsLeast p (pairs_at 256 self.old)) }
        ensures none { IsNone result ↔ (pairs_at 256 self.old ≡ []) }
        ensures unchanged { IfNone result (self.new ≡ self.old) }

        ensures order { IfSome result (λ p. PopsFirst p self.old self.new) }
    {
        match self.near.pop_least() {
            Some((place, node)) => Some((place / TIES, node)),
            None => self.far.pop_least(),
        }
    }

    fn len(&self) -> u128 {
        self.near.len() + self.far.len()
    }

    fn iter(&self) -> Pairs<'_> {
        Pairs::of_stacks(TIES, self.near.as_slice(), &[], self.far.as_slice())
    }
}
