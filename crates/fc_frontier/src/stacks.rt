ghost use Rattle.std.specs.Prelude.{◌≡◌, ℕ, ◌+◌, ◌^◌, ◌<◌, ◌≤◌, ◌↔◌, List, [], ◌∷◌, ◌++◌, length, option_to_list, slice_index_or, vec_len, max, IsNone, IfSome, OnOk, OnErr};
ghost use Rattle.std.specs.List.Sorted.{IsPermutation};
ghost use Rattle.fc_frontier.specs.Queue.{IsLeast, with_pair};
ghost use Rattle.fc_frontier.specs.Stack.{nodes_of};
ghost use Rattle.fc_frontier.specs.Walk.{pairs_in_turn};
ghost use Rattle.fc_frontier.specs.inner.Stack.{HasGrown};

use crate::frontiers::Full;
use std::alloc::Global;
use std::marker::Model;

// A stack of nodes for each place below 524,288, made where a push wants it, seen as the pairs of a place and a node in the
// order in which they will be taken: by rising place, and at equal places the pair that was pushed last first. A place is an f,
// or an f with a tie.
#[derive(Debug, Drop)]
pub struct Stacks {
    // As many as the greatest place wanted, none before the first push.
    stacks: Vec<Vec<u32>>,
    // All stacks before this one are empty.
    first: usize,
}

impl Model for Stacks {
    ghost use Rattle.std.specs.Prelude.{ℕ, List};
    ghost use Rattle.fc_frontier.specs.Stack.{nodes_of};
    ghost use Rattle.fc_frontier.specs.inner.Stack.{AreStacks};
    ghost use Rattle.fc_frontier.specs.inner.Stack.{queue_from};

    ghost Value = { List (ℕ × ℕ) };

    ghost view = { λ s. queue_from 0 (nodes_of s.stacks.items) };

    ghost invariant = { λ s. AreStacks (nodes_of s.stacks.items) s.first };
}

// Makes empty stacks until there are so many.
fn grow(stacks: &mut Vec<Vec<u32>>, count: usize) -> Result<(), Full>
    ensures grown { HasGrown (nodes_of stacks.old.items) (nodes_of stacks.new.items) }
    ensures enough { OnOk result (count ≤ vec_len stacks.new) }
    ensures most { vec_len stacks.new ≤ max (vec_len stacks.old) count }
{
    let alloc = *stacks.allocator();
    for _ in stacks.len()..count {
        stacks.push(Vec::new(alloc))?;
    }
    Ok(())
}

// The place of the first stack from a place on that isn't empty, the number of the stacks where all are.
fn first_full(stacks: &[Vec<u32>], from: usize) -> usize
    ensures from { from ≤ result }
    ensures passed { (k : ℕ) → from ≤ k → k < result → slice_index_or (nodes_of stacks.now) k [] ≡ [] }
    ensures end { result < length stacks.now → 0 < length (slice_index_or (nodes_of stacks.now) result []) }
{
    for place in from..stacks.len() {
        if !stacks[place].is_empty() {
            return place;
        }
    }
    from.max(stacks.len())
}

impl Stacks {
    // No pairs. Takes no memory yet.
    pub fn new(alloc: Global) -> Self
        ensures empty { result ≡ [] }
    {
        Stacks {
            stacks: Vec::new(alloc),
            first: 0,
        }
    }

    // Puts the pair before all of equal places.
    #[inline(always)]
    pub fn push(&mut self, place: u32, node: u32) -> Result<(), Full>
        requires near { place < 524288 }
        ensures order { OnOk result (self.new ≡ with_pair (place, node) self.old) }
        ensures refused { OnErr result (self.new ≡ self.old) }
    {
        let place = place as usize;
        grow(&mut self.stacks, place + 1)?;
        let stack = &mut self.stacks[place];
        stack.push(node)?;
        self.first = self.first.min(place);
        Ok(())
    }

    // Takes out the first pair.
    #[inline(always)]
    pub fn pop_least(&mut self) -> Option<(u32, u32)>
        ensures order { self.old ≡ option_to_list result ++ self.new }
        ensures none { IsNone result ↔ (self.old ≡ []) }
        ensures least { IfSome result (λ p. IsLeast p self.old) }
    {
        self.first = first_full(self.stacks.as_slice(), self.first);
        let place = self.first;
        let node = self.stacks.get_mut(place)?.pop()?;
        Some((place as u32, node))
    }

    // How many pairs there are.
    pub fn len(&self) -> u128
        ensures size { result ≡ length self.now }
        ensures fits { result < 2 ^ 127 }
    {
        let mut total = 0;
        for stack in &self.stacks {
            total += stack.len() as u128;
        }
        total
    }

    // The stacks, the one of place 0 first.
    pub fn as_slice(&self) -> &[Vec<u32>]
        ensures items { IsPermutation (pairs_in_turn 0 (nodes_of result.now)) self.now }
        ensures most { length result.now ≤ 524288 }
    {
        self.stacks.as_slice()
    }
}
