ghost use Rattle.std.specs.Prelude.{◌≡◌, ◌≤◌, ◌↔◌, IsSome, IfSome};

use crate::settling::GREATEST_RULE;
use std::marker::Model;

/// A home rule, seen by contracts as its number: 0 sends nothing home, 1 the forced cards, 2 the free ones.
#[derive(Clone, Copy, Debug, PartialEq, Eq)]
pub struct HomeRule {
    number: u8,
}

impl Model for HomeRule {
    ghost use Rattle.std.specs.Prelude.{ℕ, ◌≤◌};
    ghost use Rattle.fc_home.specs.declared.settling.TheConstants.{GREATEST_RULE};

    ghost Value = { ℕ };

    ghost view = { λ rule. rule.number };

    ghost invariant = { λ rule. rule.number ≤ GREATEST_RULE };

    ghost inverse = { λ n. record { number = n } };
}

impl HomeRule {
    /// The rule that sends the free cards home, the one that is searched by unless another is asked for.
    pub const FREE: HomeRule = HomeRule {
        number: GREATEST_RULE,
    };

    /// The rule of this number; `None` above 2.
    pub fn new(number: u8) -> Option<HomeRule>
        ensures known { IsSome result ↔ (number ≤ GREATEST_RULE) }
        ensures value { IfSome result (λ rule. rule ≡ number) }
    {
        if number <= GREATEST_RULE {
            Some(HomeRule { number })
        } else {
            None
        }
    }

    /// The number, 0 to 2.
    #[inline]
    pub fn get(self) -> u8
        ensures value { result ≡ self }
        ensures known { self ≤ GREATEST_RULE }
    {
        self.number
    }
}
