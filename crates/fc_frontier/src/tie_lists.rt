ghost use Rattle.std.specs.Prelude.{◌≡◌, ◌^◌, ◌<◌, ◌↔◌, [], length, map, IsNone, IfSome, IfNone, MatchOption, OnOk, OnErr};
ghost use Rattle.std.specs.List.Sorted.{IsPermutation};
ghost use Rattle.fc_frontier.specs.Place.{PopsFirst, pairs_at, place_of};
ghost use Rattle.fc_frontier.specs.Queue.{IsLeast, with_pair};
ghost use Rattle.fc_frontier.specs.Tie.{pairs_of};
ghost use Rattle.fc_frontier.specs.inner.Queue.{IsPlaceOfLeast};
ghost use Rattle.fc_frontier.specs.inner.Tie.{placed_of};

use crate::frontiers::Full;
use crate::tied_pairs::TiedPair;
use std::alloc::Global;
use std::marker::Model;

// One plain list of pairs with their ties that is searched for each pair that is taken, seen as their places and nodes in
// the order in which they will be taken.
#[derive(Debug, Drop)]
pub struct TieList {
    // In the order of the pushes.
    entries: Vec<TiedPair>,
}

impl Model for TieList {
    ghost use Rattle.std.specs.Prelude.{ℕ, ◌<◌, List, map, All};
    ghost use Rattle.fc_frontier.specs.Queue.{in_order};
    ghost use Rattle.fc_frontier.specs.inner.Tie.{placed_of};

    ghost Value = { List (ℕ × ℕ) };

    ghost view = { λ s. in_order (map placed_of s.entries.items) };

    ghost invariant = { λ s. All (λ entry. entry.tie < 256) s.entries.items };
}

// Where the pair stands that is taken next: the last one at the least place.
fn next_of(entries: &[TiedPair]) -> Option<usize>
    ensures place { MatchOption result (entries.now ≡ []) (λ i. IsPlaceOfLeast (map placed_of entries.now) i) }
{
    if entries.is_empty() {
        return None;
    }
    let mut best = 0;
    for (i, entry) in entries.iter().enumerate() {
        if entry.place() <= entries[best].place() {
            best = i;
        }
    }
    Some(best)
}

impl TieList {
    // No pairs. Takes no memory yet.
    pub fn new(alloc: Global) -> Self
        ensures empty { result ≡ [] }
    {
        TieList {
            entries: Vec::new(alloc),
        }
    }

    // Puts the pair before all of equal f and tie.
    pub fn push(&mut self, f: u32, tie: u8, node: u32) -> Result<(), Full>
        ensures order { OnOk result (self.new ≡ with_pair (place_of f tie, node) self.old) }
        ensures refused { OnErr result (self.new ≡ self.old) }
    {
        self.entries.push(TiedPair::new(f, tie, 0, node))?;
        Ok(())
    }

    // Takes out the first pair.
    pub fn pop_least(&mut self) -> Option<(u32, u32)>
        ensures order { IfSome result (λ p. PopsFirst p self.old self.new) }
        ensures least { IfSome result (λ p. IsLeast p (pairs_at 256 self.old)) }
        ensures none { IsNone result ↔ (self.old ≡ []) }
        ensures unchanged { IfNone result (self.new ≡ self.old) }
    {
        let place = next_of(self.entries.as_slice())?;
        Some(self.entries.remove(place).pair())
    }

    // How many pairs there are.
    pub fn len(&self) -> u128
        ensures size { result ≡ length self.now }
        ensures fits { result < 2 ^ 64 }
    {
        self.entries.len() as u128
    }

    // The pairs in the order of the pushes.
    pub fn as_slice(&self) -> &[TiedPair]
        ensures items { IsPermutation (pairs_of result.now) (pairs_at 256 self.now) }
    {
        self.entries.as_slice()
    }
}
