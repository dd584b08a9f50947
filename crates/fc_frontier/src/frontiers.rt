ghost use Rattle.std.specs.Prelude.{◌≡◌, ℕ, ◌↔◌, List, [], length, IsNone, IfSome, IfNone, OnOk, OnErr};
ghost use Rattle.std.specs.List.Sorted.{IsPermutation};
ghost use Rattle.fc_frontier.specs.Queue.{Adds, IsLeast};

use crate::walks::Pairs;
use std::alloc::{AllocError, AllocFailed, Global};
use thiserror::Error;

/// A growth was refused for want of memory. The queue is as it was.
#[derive(Clone, Copy, Debug, PartialEq, Eq, Error)]
#[error("want of memory")]
pub struct Full;

impl From<AllocError> for Full {
    fn from(_refused: AllocError) -> Full {
        Full
    }
}

impl<T: Drop> From<AllocFailed<T>> for Full {
    fn from(_refused: AllocFailed<T>) -> Full {
        Full
    }
}

/// A queue of pairs of a number `f` and a node, of which a pair of least `f` is taken next. A pair may stand in it more
/// than once. Which of several pairs of least `f` comes first is left open.
pub trait Frontier: Sized {
    // The pairs, in some order: only how often each stands there tells.
    ghost pairs: { Self → List (ℕ × ℕ) };

    /// An empty queue. Takes no memory yet.
    fn new(alloc: Global) -> Self
        ensures empty { pairs result ≡ [] };

    /// An empty queue for pairs that are pushed with their ties, which a queue of more than one kind may choose by. Takes no
    /// memory yet.
    fn with_ties(alloc: Global) -> Self
        ensures empty { pairs result ≡ [] }
    {
        Self::new(alloc)
    }

    /// An empty queue for pairs that are pushed with their ties and have a small `f`, which a queue of more than one kind may
    /// choose by. Takes no memory yet.
    fn with_small_ties(alloc: Global) -> Self
        ensures empty { pairs result ≡ [] }
    {
        Self::with_ties(alloc)
    }

    /// Puts in one pair. At `Full` a growth was refused, and the pairs are as they were.
    fn push(&mut self, f: u32, node: u32) -> Result<(), Full>
        ensures added { OnOk result (Adds (pairs self.old) (pairs self.new) (f, node)) }
        ensures refused { OnErr result (pairs self.new ≡ pairs self.old) };

    /// Puts in one pair with its tie, by which a queue may tell pairs of equal `f` apart: the least tie first. A queue that
    /// has no use for ties takes the pair as `push` does.
    fn push_tied(&mut self, f: u32, tie: u8, node: u32) -> Result<(), Full>
        ensures added { OnOk result (Adds (pairs self.old) (pairs self.new) (f, node)) }
        ensures refused { OnErr result (pairs self.new ≡ pairs self.old) }
    {
        let _unused = tie;
        self.push(f, node)
    }

    /// Takes out a pair of least `f`; `None` exactly where there is no pair.
    fn pop_least(&mut self) -> Option<(u32, u32)>
        ensures taken { IfSome result (λ p. Adds (pairs self.new) (pairs self.old) p) }
        ensures least { IfSome result (λ p. IsLeast p (pairs self.old)) }
        ensures none { IsNone result ↔ (pairs self.old ≡ []) }
        ensures unchanged { IfNone result (pairs self.new ≡ pairs self.old) };

    /// How many pairs there are.
    fn len(&self) -> u128
        ensures size { result ≡ length (pairs self.now) };

    /// The pairs, each once for each time that it stands there, in any order.
    fn iter(&self) -> Pairs<'_>
        ensures items { IsPermutation result (pairs self.now) };
}
