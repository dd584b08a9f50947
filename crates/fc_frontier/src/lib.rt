//! Queues of the entries that a search has still to look at: pairs of a number f and a node, of which a pair of least
//! f is taken next.
//!
//! A caller needs the trait alone, which sees a queue as its pairs, each as often as it stands there. The queues say more.
//! Of equal f `ListFrontier` and `BucketFrontier` give the pair that was pushed last, and `TieFrontier` and
//! `TieBucketFrontier` the one of least tie, and of equal ties the one that was pushed last. `EitherFrontier` is one of the
//! last three.
#![tactic(auto)]

pub use buckets::BucketFrontier;
pub use either::EitherFrontier;
pub use frontiers::{Frontier, Full};
pub use lists::ListFrontier;
pub use tie_buckets::TieBucketFrontier;
pub use ties::TieFrontier;
pub use walks::Pairs;

mod buckets;
mod either;
mod frontiers;
pub mod laws;
mod lists;
mod stacks;
mod tie_buckets;
mod tie_lists;
mod tied_pairs;
mod ties;
mod walks;
