ghost use Rattle.std.specs.Prelude.{◌≡◌, ◌≤◌, ◌<◌, ◌^◌, ◌↔◌, ℕ, List, [], ◌∷◌, false, IsTrue, IfOk, IfSome, MatchOption};
ghost use Rattle.fc_best_first.specs.Graph.{Graph, IsLawful, IsReached};
ghost use Rattle.fc_best_first.specs.Turn.{AreChildrenBut};

use std::alloc::{AllocError, Global};

/// A key at the end of an edge, and what the edge costs.
#[derive(Default, Drop)]
pub struct Child<K> {
    pub key: K,
    pub cost: u8,
}

/// What a search notes of a key: a number that it goes by, no greater than the key's bound, and the note of seven bytes that shows it.
#[derive(Clone, Copy, Debug, PartialEq, Eq)]
pub struct Noted {
    pub bound: u8,
    pub note: u64,
}

/// A question that a search can answer.
pub trait Space<K> {
    ghost use Rattle.fc_best_first.specs.declared.spaces.Child.{Child};

    // The question as a graph.
    ghost graph: { Self → Graph K };

    /// What is left of the children of a key. One is made for a whole search, and each visit fills it anew.
    type Walk: Drop;

    // The children that are left may be these, in this order.
    ghost rest: { Self.Walk → List (Child K) → Type 0 };

    // How many children are left.
    ghost left: { Self.Walk → ℕ };

    // The walk is one of this space's own: it tells the children of its keys.
    ghost owns: { Self → Self.Walk → Type 0 };

    // The walk stands at this key: the start, or the child that came last.
    ghost at: { Self.Walk → K → Type 0 };

    /// The key that starts, with its cost, and a walk to visit keys with, which stands at it.
    ///
    /// # Errors
    /// A growth was refused.
    fn start(&self, alloc: Global) -> Result<(Child<K>, Self::Walk), AllocError>
        ensures starts { IfOk result (λ begun. (graph self.now).starts begun.0.key begun.0.cost) }
        ensures alone { IfOk result (λ begun. (x : K) (d : ℕ) → (graph self.now).starts x d → (x ≡ begun.0.key) × (begun.0.cost ≤ d)) }
        ensures owned { IfOk result (λ begun. owns self.now begun.1) }
        ensures at { IfOk result (λ begun. at begun.1 begun.0.key) };

    /// Whether a key that was reached is won.
    fn is_won(&self, key: &K) -> bool
        requires reached { (d : ℕ) × IsReached (graph self.now) key.now d }
        ensures value { IsTrue result ↔ (graph self.now).won key.now };

    /// A number that is plain to see, no greater than the bound of the key that a walk stands at. A search by partial expansion asks
    /// it of each child before all else: most are put off by it.
    fn least(&self, walk: &Self::Walk) -> u8
        requires owned { owns self.now walk.now }
        ensures least { (y : K) → at walk.now y → result ≤ (graph self.now).bound y };

    /// The key that a walk stands at.
    fn key(&self, walk: &Self::Walk) -> K
        requires owned { owns self.now walk.now }
        requires there { (y : K) × at walk.now y }
        ensures at { at walk.now result };

    /// What may be noted of the key that a walk stands at. It is looked for no further where the number is greater than `most`
    /// already. A search asks it of the key that starts, and of each child that is new: most are stored already.
    fn noted(&self, walk: &mut Self::Walk, key: &K, most: u8) -> Noted
        requires reached { (d : ℕ) × IsReached (graph self.now) key.now d }
        requires owned { owns self.now walk.old }
        requires at { at walk.old key.now }
        ensures shown { (graph self.now).shown key.now result.bound result.note }
        ensures small { result.note < 2 ^ 56 }
        ensures owned { owns self.now walk.new }
        ensures rest { (children : List (Child K)) → rest walk.new children ↔ rest walk.old children }
        ensures left { left walk.new ≡ left walk.old };

    /// Visits a key that was reached, with what is noted of it: its children take the place of those that were left. At a first
    /// visit children may be left out whose bound is no less than what is noted of the key, and told is whether some are: they
    /// are put off together.
    fn visit(&self, key: &K, noted: Noted, is_first: bool, walk: &mut Self::Walk) -> bool
        requires reached { (d : ℕ) × IsReached (graph self.now) key.now d }
        requires shown { (graph self.now).shown key.now noted.bound noted.note }
        requires owned { owns self.now walk.old }
        ensures owned { owns self.now walk.new }
        ensures children { (children : List (Child K)) → rest walk.new children
            → AreChildrenBut (graph self.now) key.now noted.bound result children }
        ensures later { is_first ≡ false → result ≡ false };

    /// Goes on to the next of the children that are left, and tells what the edge costs; whichever may follow it could follow it before.
    fn next(&self, walk: &mut Self::Walk) -> Option<u8>
        requires owned { owns self.now walk.old }
        ensures owned { owns self.now walk.new }
        ensures next { MatchOption result (rest walk.old [])
            (λ cost. (y : K) (children : List (Child K)) → at walk.new y → rest walk.new children
            → rest walk.old (record { key = y; cost = cost } ∷ children)) }
        ensures some { (children : List (Child K)) × rest walk.new children }
        ensures there { IfSome result (λ cost. (y : K) × at walk.new y) }
        ensures fewer { IfSome result (λ _. left walk.new < left walk.old) };

    ghost lawful: { (s : Self) → IsLawful (graph s) };
}
