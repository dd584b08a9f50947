ghost use Rattle.std.specs.Prelude.{◌≡◌, ◌↔◌, [], IsNone, IfSome, IfNone, OnOk, OnErr};
ghost use Rattle.fc_frontier.specs.Queue.{Adds, IsLeast};
ghost use Rattle.fc_frontier.specs.Tie.{pairs_of, Enters, Pops};

use crate::frontiers::{Frontier, Full};
use crate::tied_pairs::TiedPair;
use crate::walks::Pairs;
use std::alloc::Global;
use std::collections::BinaryHeap;
use std::marker::Model;

/// A binary heap of pairs with their ties, of 16 bytes each. Of equal `f` the least tie comes first, and of equal `f` and tie
/// the pair that was pushed last. `push` gives the tie 0.
///
/// Contracts see its entries, in any order, and the count of its pushes. An entry's stamp is the count that stood when it
/// was pushed, so the greater of two was pushed last. The count ends at 2^32 - 1: pairs that are pushed from then on, of equal
/// `f` and tie, come before all earlier ones, in any order among themselves.
#[derive(Debug, Drop)]
pub struct TieFrontier {
    heap: BinaryHeap<TiedPair>,
    pushes: u32,
}

impl Model for TieFrontier {
    ghost use Rattle.std.specs.BinaryHeap.{heap_items};
    ghost use Rattle.fc_frontier.specs.Tie.{TiedQueue};
    ghost use Rattle.fc_frontier.specs.inner.Tie.{IsTiedHeap};

    ghost Value = { TiedQueue };

    ghost view = { λ s. record { entries = heap_items s.heap; pushes = s.pushes } };

    ghost invariant = { λ s. IsTiedHeap (heap_items s.heap) s.pushes };
}

impl Frontier for TieFrontier {
    ghost pairs = { λ s. pairs_of s.entries };

    fn new(alloc: Global) -> Self
        ensures empty { pairs_of result.entries ≡ [] }

        ensures value { result ≡ record { entries = []; pushes = 0 } }
    {
        TieFrontier {
            heap: BinaryHeap::new(alloc),
            pushes: 0,
        }
    }

    fn push(&mut self, f: u32, node: u32) -> Result<(), Full>
        ensures added { OnOk result (Adds (pairs_of self.old.entries) (pairs_of self.new.entries) (f, node)) }
        ensures refused { OnErr result (self.new ≡ self.old) }

        ensures order { OnOk result (Enters (record { f = f; tie = 0; stamp = self.old.pushes; node = node }) self.old self.new) }
    {
        self.push_tied(f, 0, node)
    }

    fn push_tied(&mut self, f: u32, tie: u8, node: u32) -> Result<(), Full>
        ensures added { OnOk result (Adds (pairs_of self.old.entries) (pairs_of self.new.entries) (f, node)) }
        ensures refused { OnErr result (self.new ≡ self.old) }

        ensures order { OnOk result (Enters (record { f = f; tie = tie; stamp = self.old.pushes; node = node }) self.old self.new) }
    {
        self.heap.push(TiedPair::new(f, tie, self.pushes, node))?;
        self.pushes = self.pushes.saturating_add(1);
        Ok(())
    }

    fn pop_least(&mut self) -> Option<(u32, u32)>
        ensures taken { IfSome result (λ p. Adds (pairs_of self.new.entries) (pairs_of self.old.entries) p) }
        ensures least { IfSome result (λ p. IsLeast p (pairs_of self.old.entries)) }
        ensures none { IsNone result ↔ (pairs_of self.old.entries ≡ []) }
        ensures unchanged { IfNone result (self.new ≡ self.old) }

        ensures order { IfSome result (λ p. Pops p self.old self.new) }
    {
        let tied = self.heap.pop()?;
        Some(tied.pair())
    }

    fn len(&self) -> u128 {
        self.heap.len() as u128
    }

    fn iter(&self) -> Pairs<'_> {
        Pairs::of_stacks(1, &[], &[], self.heap.as_slice())
    }
}
