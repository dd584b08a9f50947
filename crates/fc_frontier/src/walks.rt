ghost use Rattle.std.specs.Prelude.{◌≡◌, ◌+◌, ◌<◌, ◌≤◌, [], ◌∷◌, ◌++◌, length};
ghost use Rattle.std.specs.Iterator.{YieldsFirst, item_count};
ghost use Rattle.fc_frontier.specs.Place.{pairs_at};
ghost use Rattle.fc_frontier.specs.Stack.{nodes_of};
ghost use Rattle.fc_frontier.specs.Tie.{pairs_of};
ghost use Rattle.fc_frontier.specs.Walk.{pairs_in_turn};

use crate::tied_pairs::TiedPair;
use std::marker::Model;

/// The pairs of a queue, each once for each time that it stands there, in any order. Contracts see the pairs that are
/// left, in the order in which they will come.
#[derive(Debug, Drop)]
pub struct Pairs<'a> {
    near: Near<'a>,
    far: &'a [(u32, u32)],
    tied: &'a [TiedPair],
}

// Nodes of one place, and the stacks of the places that follow it.
#[derive(Debug, Drop)]
struct Near<'a> {
    // How many places each f has.
    ties: u32,
    place: u32,
    nodes: &'a [u32],
    stacks: &'a [Vec<u32>],
}

impl<'a> Model for Pairs<'a> {
    ghost use Rattle.std.specs.Prelude.{ℕ, ◌+◌, ◌<◌, ◌≤◌, List, ◌∷◌, ◌++◌, length};
    ghost use Rattle.fc_frontier.specs.Place.{pairs_at};
    ghost use Rattle.fc_frontier.specs.Stack.{nodes_of};
    ghost use Rattle.fc_frontier.specs.Tie.{pairs_of};
    ghost use Rattle.fc_frontier.specs.Walk.{pairs_in_turn};

    ghost Value = { List (ℕ × ℕ) };

    ghost view = { λ s. pairs_at s.near.ties (pairs_in_turn s.near.place (s.near.nodes.now ∷ nodes_of s.near.stacks.now)) ++ s.far.now ++ pairs_of s.tied.now };

    ghost invariant = { λ s. (0 < s.near.ties) × (s.near.place + length s.near.stacks.now ≤ 524288) };
}

impl<'a> Near<'a> {
    // Goes on to the first place that has a node left, if any has.
    fn skip(&mut self)
        requires room { self.old.place + length self.old.stacks.now ≤ 524288 }
        ensures same { pairs_in_turn self.new.place (self.new.nodes.now ∷ nodes_of self.new.stacks.now) ≡ pairs_in_turn self.old.place (self.old.nodes.now ∷ nodes_of self.old.stacks.now) }
        ensures ties { self.new.ties ≡ self.old.ties }
        ensures room { self.new.place + length self.new.stacks.now ≤ 524288 }
        ensures end { self.new.nodes.now ≡ [] → self.new.stacks.now ≡ [] }
    {
        while self.nodes.is_empty() {
            let Some((nodes, stacks)) = self.stacks.split_first() else {
                return;
            };
            self.place += 1;
            self.nodes = nodes.as_slice();
            self.stacks = stacks;
        }
    }
}

impl<'a> Pairs<'a> {
    /// The pairs of a queue that keeps a stack of nodes for each `f` from 0 on, at most 1,024 of them, and other pairs in a
    /// list. A queue that keeps a list alone hands in no stacks.
    pub fn new(stacks: &'a [Vec<u32>], far: &'a [(u32, u32)]) -> Pairs<'a>
        requires room { length stacks.now ≤ 1024 }
        ensures items { result ≡ pairs_in_turn 0 (nodes_of stacks.now) ++ far.now }
    {
        Pairs::of_stacks(1, stacks, far, &[])
    }

    // The pairs of a queue that keeps a stack of nodes for each place from 0 on, where each f has so many places, and other
    // pairs in a list, alone or with their ties.
    pub(crate) fn of_stacks(
        ties: u32,
        stacks: &'a [Vec<u32>],
        far: &'a [(u32, u32)],
        tied: &'a [TiedPair],
    ) -> Pairs<'a>
        requires ties { 0 < ties }
        requires room { length stacks.now ≤ 524288 }
        ensures items { result ≡ pairs_at ties (pairs_in_turn 0 (nodes_of stacks.now)) ++ far.now ++ pairs_of tied.now }
    {
        let (nodes, stacks) = match stacks.split_first() {
            Some((nodes, others)) => (nodes.as_slice(), others),
            None => (&[][..], stacks),
        };
        Pairs {
            near: Near {
                ties,
                place: 0,
                nodes,
                stacks,
            },
            far,
            tied,
        }
    }
}

impl<'a> Iterator for Pairs<'a> {
    type Item = (u32, u32);

    ghost next_gives = { YieldsFirst (λ s. s) };

    ghost remaining = { item_count (λ s. s) };

    fn next(&mut self) -> Option<(u32, u32)> {
        self.near.skip();
        if let Some((node, nodes)) = self.near.nodes.split_first() {
            self.near.nodes = nodes;
            return Some((self.near.place / self.near.ties, *node));
        }
        if let Some((pair, far)) = self.far.split_first() {
            self.far = far;
            return Some(*pair);
        }
        let (entry, tied) = self.tied.split_first()?;
        self.tied = tied;
        Some(entry.pair())
    }
}
