ghost use Rattle.std.specs.Prelude.{◌≡◌, ◌+◌, ◌*◌, ◌^◌};
ghost use Rattle.std.proofs.Common.{rules};
ghost use Rattle.std.specs.Cmp.{partial_order_from_own_ties};
ghost use Rattle.std.specs.Cmp.Rules.{comparing};
ghost use Rattle.std.specs.Ordering.{as_partial_cmp};
ghost use Rattle.fc_frontier.specs.Place.{place_of};
ghost use Rattle.fc_frontier.specs.Tie.{pair_of};
ghost use Rattle.fc_frontier.specs.inner.Tie.{entry_cmp, entry_eq};

use std::cmp::Ordering;
use std::marker::Model;

// A pair of f and node with its tie and its stamp, which is how many pushes there were before it, as one number, so that
// one comparison tells which of two comes first: the lesser one. From the highest bits down it has f, the tie, what the
// stamp lacks of the greatest one, and the node, in 32 bits each.
#[derive(Debug, Drop)]
pub struct TiedPair {
    number: u128,
}

impl Model for TiedPair {
    ghost use Rattle.fc_frontier.specs.Tie.{Entry};
    ghost use Rattle.fc_frontier.specs.inner.Tie.{entry_of};

    ghost Value = { Entry };

    ghost view = { λ p. entry_of p.number };
}

// The number that has these two in its upper and its lower half.
fn joined(upper: u32, lower: u32) -> u64
    ensures value { result ≡ upper * 2 ^ 32 + lower }
{
    (upper as u64) << 32 | lower as u64
}

impl TiedPair {
    pub fn new(f: u32, tie: u8, stamp: u32, node: u32) -> TiedPair
        ensures value { result ≡ record { f = f; tie = tie; stamp = stamp; node = node } }
    {
        let upper = joined(f, tie as u32);
        let lower = joined(u32::MAX - stamp, node);
        TiedPair {
            number: (upper as u128) << 64 | lower as u128,
        }
    }

    pub fn pair(&self) -> (u32, u32)
        ensures value { result ≡ pair_of self.now }
    {
        ((self.number >> 96) as u32, (self.number % (1 << 32)) as u32)
    }

    // Of which f and tie it is, as one number: 256 f and the tie.
    pub fn place(&self) -> u64
        ensures value { result ≡ place_of self.now.f self.now.tie }
    {
        256 * (self.number >> 96) as u64 + (self.number >> 64) as u64 % (1 << 32)
    }
}

// The greater of two is taken first: the one of lesser f, of equal f the one of lesser tie, of equal f and tie the one
// that was pushed last. Nodes are compared because only equal pairs may compare as equal.
impl Ord for TiedPair {
    ghost cmp = { entry_cmp };

    ghost total = { Prim.search (comparing, rules) depth 7 };

    ghost matches_partial_cmp = { Prim.search (comparing, rules) };

    ghost matches_eq = { Prim.search (comparing, rules) };

    fn cmp(&self, other: &TiedPair) -> Ordering {
        other.number.cmp(&self.number)
    }
}

impl PartialEq for TiedPair {
    ghost eq = { entry_eq };

    ghost laws = { Prim.search (comparing, rules) };

    fn eq(&self, other: &TiedPair) -> bool {
        self.number == other.number
    }
}

impl Eq for TiedPair {
    ghost laws = { Prim.search (comparing, rules) };
}

impl PartialOrd for TiedPair {
    ghost partial_cmp = { as_partial_cmp entry_cmp };

    ghost laws = { partial_order_from_own_ties (Prim.search comparing depth 7) (Prim.search (comparing, rules)) };

    fn partial_cmp(&self, other: &TiedPair) -> Option<Ordering> {
        Some(self.cmp(other))
    }
}
