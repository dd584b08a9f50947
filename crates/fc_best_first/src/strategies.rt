ghost use Rattle.std.specs.Prelude.{◌≡◌};

use crate::limits::{GreatBudget, Weight};

/// Which children of a key that is taken are stored.
#[derive(Clone, Copy, Debug, PartialEq, Eq, Default)]
pub enum Expansion {
    /// All of them.
    #[default]
    Full,
    /// Those whose cost plus the number shown of them, both weighed, is no greater than the f that was taken. The others are put off:
    /// the key is open again at the least f of those, and is expanded again when that is taken. It stores fewer keys, and expands more
    /// often.
    Partial,
}

/// How a space is searched: how much what is shown of a key counts, which children are stored, and how many keys may be.
#[derive(Clone, Copy, Debug, PartialEq, Eq)]
pub struct Strategy {
    pub weight: Weight,
    pub expansion: Expansion,
    pub budget: GreatBudget,
}

impl Strategy {
    /// By full expansion.
    pub fn full(weight: Weight, budget: GreatBudget) -> Self
        ensures value { result ≡ record { weight = weight; expansion = Expansion.Full; budget = budget } }
    {
        Strategy {
            weight,
            expansion: Expansion::Full,
            budget,
        }
    }
}
