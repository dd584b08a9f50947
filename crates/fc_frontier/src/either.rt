ghost use Rattle.std.specs.Prelude.{◌≡◌, ◌↔◌, [], IsNone, IfSome, IfNone, OnOk, OnErr};
ghost use Rattle.fc_frontier.specs.Queue.{Adds, IsLeast};
ghost use Rattle.fc_frontier.specs.Tie.{pairs_of};
ghost use Rattle.fc_frontier.specs.Either.{GoesIn, GoesOut, pairs_of_either};

use crate::buckets::BucketFrontier;
use crate::frontiers::{Frontier, Full};
use crate::tie_buckets::TieBucketFrontier;
use crate::ties::TieFrontier;
use crate::walks::Pairs;
use std::alloc::Global;

/// The queue that a search wants: buckets of `f`, or, where it tells ties, a heap by `f` and tie, or buckets of both where `f`
/// is small. So searches of all kinds are of one type.
#[derive(Debug, Drop)]
pub enum EitherFrontier {
    /// Of equal `f` the newest comes first.
    Buckets(BucketFrontier),
    /// Of equal `f` the least tie comes first.
    Ties(TieFrontier),
    /// Of equal `f` the least tie comes first, and of equal ties the newest, for small `f`.
    SmallTies(TieBucketFrontier),
}

impl Frontier for EitherFrontier {
    ghost pairs = { pairs_of_either };

    fn new(alloc: Global) -> Self
        ensures empty { pairs_of_either result ≡ [] }

        ensures kind { result ≡ EitherFrontier.Buckets [] }
    {
        EitherFrontier::Buckets(BucketFrontier::new(alloc))
    }

    fn with_ties(alloc: Global) -> Self
        ensures empty { pairs_of_either result ≡ [] }

        ensures kind { result ≡ EitherFrontier.Ties (record { entries = []; pushes = 0 }) }
    {
        EitherFrontier::Ties(TieFrontier::new(alloc))
    }

    fn with_small_ties(alloc: Global) -> Self
        ensures empty { pairs_of_either result ≡ [] }

        ensures kind { result ≡ EitherFrontier.SmallTies [] }
    {
        EitherFrontier::SmallTies(TieBucketFrontier::new(alloc))
    }

    fn push(&mut self, f: u32, node: u32) -> Result<(), Full>
        ensures added { OnOk result (Adds (pairs_of_either self.old) (pairs_of_either self.new) (f, node)) }
        ensures refused { OnErr result (self.new ≡ self.old) }

        ensures order { OnOk result (GoesIn f 0 node self.old self.new) }
    {
        self.push_tied(f, 0, node)
    }

    #[inline(always)]
    fn push_tied(&mut self, f: u32, tie: u8, node: u32) -> Result<(), Full>
        ensures added { OnOk result (Adds (pairs_of_either self.old) (pairs_of_either self.new) (f, node)) }
        ensures refused { OnErr result (self.new ≡ self.old) }

        ensures order { OnOk result (GoesIn f tie node self.old self.new) }
    {
        match self {
            EitherFrontier::Buckets(queue) => queue.push(f, node),
            EitherFrontier::Ties(queue) => queue.push_tied(f, tie, node),
            EitherFrontier::SmallTies(queue) => queue.push_tied(f, tie, node),
        }
    }

    #[inline(always)]
    fn pop_least(&mut self) -> Option<(u32, u32)>
        ensures taken { IfSome result (λ p. Adds (pairs_of_either self.new) (pairs_of_either self.old) p) }
        ensures least { IfSome result (λ p. IsLeast p (pairs_of_either self.old)) }
        ensures none { IsNone result ↔ (pairs_of_either self.old ≡ []) }
        ensures unchanged { IfNone result (self.new ≡ self.old) }

        ensures order { IfSome result (λ p. GoesOut p self.old self.new) }
    {
        match self {
            EitherFrontier::Buckets(queue) => queue.pop_least(),
            EitherFrontier::Ties(queue) => queue.pop_least(),
            EitherFrontier::SmallTies(queue) => queue.pop_least(),
        }
    }

    fn len(&self) -> u128 {
        match self {
            EitherFrontier::Buckets(queue) => queue.len(),
            EitherFrontier::Ties(queue) => queue.len(),
            EitherFrontier::SmallTies(queue) => queue.len(),
        }
    }

    fn iter(&self) -> Pairs<'_> {
        match self {
            EitherFrontier::Buckets(queue) => queue.iter(),
            EitherFrontier::Ties(queue) => queue.iter(),
            EitherFrontier::SmallTies(queue) => queue.iter(),
        }
    }
}
