ghost use Rattle.std.specs.Prelude.{◌≡◌, ◌+◌, ◌↔◌, [], ◌++◌, length, option_to_list, IsNone, IfSome, IfNone, OnOk, OnErr};
ghost use Rattle.fc_frontier.specs.Queue.{Adds, IsLeast, with_pair};

use crate::frontiers::{Frontier, Full};
use crate::lists::ListFrontier;
use crate::stacks::Stacks;
use crate::walks::Pairs;
use std::alloc::Global;
use std::marker::Model;

// A stack may stand for each f below this number.
const STACKS: u32 = 1024;

/// A stack of nodes for each `f` below 1,024, and one plain list for greater `f`, which is searched only where all stacks
/// are empty. A stack is made where a push wants it; which of them may be the first that isn't empty is kept, so that taking
/// a pair doesn't walk over all of them.
///
/// Contracts see its pairs in the order in which they will be taken: by rising `f`, and of equal `f` the pair that was
/// pushed last comes first. A search of real deals stores about half as many classes so as with the oldest first.
#[derive(Debug, Drop)]
pub struct BucketFrontier {
    near: Stacks,
    far: ListFrontier,
}

impl Model for BucketFrontier {
    ghost use Rattle.std.specs.Prelude.{ℕ, ◌<◌, ◌≤◌, List, ◌++◌, All};

    ghost Value = { List (ℕ × ℕ) };

    ghost view = { λ s. s.near ++ s.far };

    ghost invariant = { λ s. All (λ p. p.0 < 1024) s.near × All (λ p. 1024 ≤ p.0) s.far };
}

impl Frontier for BucketFrontier {
    ghost pairs = { λ s. s };

    fn new(alloc: Global) -> Self {
        BucketFrontier {
            near: Stacks::new(alloc),
            far: ListFrontier::new(alloc),
        }
    }

    fn push(&mut self, f: u32, node: u32) -> Result<(), Full>
        ensures added { OnOk result (Adds self.old self.new (f, node)) }
        ensures refused { OnErr result (self.new ≡ self.old) }

        ensures order { OnOk result (self.new ≡ with_pair (f, node) self.old) }
    {
        if f < STACKS {
            self.near.push(f, node)
        } else {
            self.far.push(f, node)
        }
    }

    fn pop_least(&mut self) -> Option<(u32, u32)>
        ensures taken { IfSome result (λ p. Adds self.new self.old p) }
        ensures least { IfSome result (λ p. IsLeast p self.old) }
        ensures none { IsNone result ↔ (self.old ≡ []) }
        ensures unchanged { IfNone result (self.new ≡ self.old) }

        ensures order { self.old ≡ option_to_list result ++ self.new }
    {
        match self.near.pop_least() {
            Some(pair) => Some(pair),
            None => self.far.pop_least(),
        }
    }

    fn len(&self) -> u128 {
        self.near.len() + self.far.len()
    }

    fn iter(&self) -> Pairs<'_> {
        Pairs::of_stacks(1, self.near.as_slice(), self.far.as_slice(), &[])
    }
}
