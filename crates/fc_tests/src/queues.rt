//! A queue of the tests' own.

ghost use Rattle.std.specs.Prelude.{◌≡◌, ℕ, ◌<◌, ◌≤◌, [], length, slice_index_or, MatchOption};

use fc_frontier::{Frontier, Full, Pairs};
use std::alloc::Global;
use std::marker::Model;

/// One list of pairs, of which among those of least `f` the one that was pushed first is taken.
#[derive(Drop)]
pub struct OldestFirst {
    pairs: Vec<(u32, u32)>,
}

impl Model for OldestFirst {
    ghost use Rattle.std.specs.Prelude.{ℕ, List};

    ghost Value = { List (ℕ × ℕ) };

    ghost view = { λ s. s.pairs.items };
}

// The place of the first pair of least f.
fn place_of_oldest(pairs: &[(u32, u32)]) -> Option<usize>
    ensures place { MatchOption result (pairs.now ≡ []) (λ i. (i < length pairs.now)
        × ((k : ℕ) (d : ℕ × ℕ) → k < length pairs.now → (slice_index_or pairs.now i d).0 ≤ (slice_index_or pairs.now k d).0)) }
{
    if pairs.is_empty() {
        return None;
    }
    let mut best = 0;
    for (i, pair) in pairs.iter().enumerate() {
        if pair.0 < pairs[best].0 {
            best = i;
        }
    }
    Some(best)
}

impl Frontier for OldestFirst {
    ghost pairs = { λ s. s };

    fn new(alloc: Global) -> Self {
        OldestFirst {
            pairs: Vec::new(alloc),
        }
    }

    fn push(&mut self, f: u32, node: u32) -> Result<(), Full> {
        self.pairs.push((f, node))?;
        Ok(())
    }

    fn pop_least(&mut self) -> Option<(u32, u32)> {
        let place = place_of_oldest(self.pairs.as_slice())?;
        Some(self.pairs.remove(place))
    }

    fn len(&self) -> u128 {
        self.pairs.len() as u128
    }

    fn iter(&self) -> Pairs<'_> {
        Pairs::new(&[], self.pairs.as_slice())
    }
}
