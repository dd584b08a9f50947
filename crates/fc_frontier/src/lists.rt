ghost use Rattle.std.specs.Prelude.{◌≡◌, ◌^◌, ◌<◌, ◌↔◌, [], ◌++◌, length, option_to_list, IsNone, IfSome, IfNone, MatchOption, OnOk, OnErr};
ghost use Rattle.std.specs.List.Sorted.{IsPermutation};
ghost use Rattle.fc_frontier.specs.Queue.{Adds, IsLeast, with_pair};
ghost use Rattle.fc_frontier.specs.inner.Queue.{IsPlaceOfLeast};

use crate::frontiers::{Frontier, Full};
use crate::walks::Pairs;
use std::alloc::Global;
use std::marker::Model;

/// One plain list that is searched for each pair that is taken: the plain queue. Contracts see its pairs in the order
/// in which they will be taken: by rising `f`, and of equal `f` the pair that was pushed last comes first.
#[derive(Debug, Drop)]
pub struct ListFrontier {
    // In the order of the pushes.
    pairs: Vec<(u32, u32)>,
}

impl Model for ListFrontier {
    ghost use Rattle.std.specs.Prelude.{ℕ, List};
    ghost use Rattle.fc_frontier.specs.Queue.{in_order};

    ghost Value = { List (ℕ × ℕ) };

    ghost view = { λ s. in_order s.pairs.items };
}

// The place of the pair that is taken next: the last one of least f.
fn place_of_next(pairs: &[(u32, u32)]) -> Option<usize>
    ensures place { MatchOption result (pairs.now ≡ []) (λ i. IsPlaceOfLeast pairs.now i) }
{
    if pairs.is_empty() {
        return None;
    }
    let mut best = 0;
    for (i, pair) in pairs.iter().enumerate() {
        if pair.0 <= pairs[best].0 {
            best = i;
        }
    }
    Some(best)
}

impl ListFrontier {
    // The pairs in the order of the pushes.
    pub(crate) fn as_slice(&self) -> &[(u32, u32)]
        ensures items { IsPermutation result.now self.now }
    {
        self.pairs.as_slice()
    }
}

impl Frontier for ListFrontier {
    ghost pairs = { λ s. s };

    fn new(alloc: Global) -> Self {
        ListFrontier {
            pairs: Vec::new(alloc),
        }
    }

    fn push(&mut self, f: u32, node: u32) -> Result<(), Full>
        ensures added { OnOk result (Adds self.old self.new (f, node)) }
        ensures refused { OnErr result (self.new ≡ self.old) }

        ensures order { OnOk result (self.new ≡ with_pair (f, node) self.old) }
    {
        self.pairs.push((f, node))?;
        Ok(())
    }

    fn pop_least(&mut self) -> Option<(u32, u32)>
        ensures taken { IfSome result (λ p. Adds self.new self.old p) }
        ensures least { IfSome result (λ p. IsLeast p self.old) }
        ensures none { IsNone result ↔ (self.old ≡ []) }
        ensures unchanged { IfNone result (self.new ≡ self.old) }

        ensures order { self.old ≡ option_to_list result ++ self.new }
    {
        let place = place_of_next(self.pairs.as_slice())?;
        Some(self.pairs.remove(place))
    }

    fn len(&self) -> u128
        ensures size { result ≡ length self.now }
        ensures fits { result < 2 ^ 64 }
    {
        self.pairs.len() as u128
    }

    fn iter(&self) -> Pairs<'_> {
        Pairs::new(&[], self.as_slice())
    }
}
