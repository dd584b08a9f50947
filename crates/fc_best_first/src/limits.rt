ghost use Rattle.std.specs.Prelude.{◌≡◌, ◌≢◌, ◌*◌, ◌/◌, ◌%◌, ◌≤◌, ◌↔◌, IsSome, IfSome};
ghost use Rattle.fc_best_first.specs.Limits.{IsBudget, IsGreatBudget, IsWeight};

use std::marker::Model;

/// The greatest budget of who asks for one search, in stored keys.
pub const MOST_BUDGET: u32 = 4_000_000;

/// The greatest budget at all, in stored keys.
pub const MOST_GREAT_BUDGET: u32 = 16_000_000;

/// The greatest weight, which says how many times as much as a cost a bound counts.
pub const MOST_WEIGHT: u8 = 10;

/// How many times a cost counts where a bound counts in tenths.
pub const TENTHS: u8 = 10;

/// How many times as much as a cost a bound counts, 1.0 to 10.0, seen by contracts as a ratio: a cost counts once, or ten
/// times where that takes tenths.
#[derive(Clone, Copy, Debug, PartialEq, Eq)]
pub struct Weight {
    parts: u8,
    times: u8,
}

impl Model for Weight {
    ghost use Rattle.fc_best_first.specs.Limits.{IsWeight, Ratio};

    ghost Value = { Ratio };

    ghost view = { λ weight. record { parts = weight.parts; times = weight.times } };

    ghost invariant = { λ weight. IsWeight (record { parts = weight.parts; times = weight.times }) };

    ghost inverse = { λ ratio. record { parts = ratio.parts; times = ratio.times } };
}

impl Weight {
    /// A bound counts as much as a cost: what wins costs no more than any answer.
    pub const ONE: Weight = Weight { parts: 1, times: 1 };

    /// A bound counts so many times; `None` outside 1 to 10.
    pub fn new(times: u8) -> Option<Weight>
        ensures range { IsSome result ↔ (1 ≤ times) × (times ≤ MOST_WEIGHT) }
        ensures value { IfSome result (λ weight. weight ≡ record { parts = 1; times = times }) }
    {
        if times >= 1 && times <= MOST_WEIGHT {
            Some(Weight { parts: 1, times })
        } else {
            None
        }
    }

    /// A bound counts so many tenths as much as a cost; `None` outside 10 to 100. A whole number is the same as by `new`.
    pub fn of_tenths(tenths: u8) -> Option<Weight>
        ensures range { IsSome result ↔ (TENTHS ≤ tenths) × (tenths ≤ MOST_WEIGHT * TENTHS) }
        ensures whole { IfSome result (λ weight. tenths % TENTHS ≡ 0 → weight ≡ record { parts = 1; times = tenths / TENTHS }) }
        ensures other { IfSome result (λ weight. tenths % TENTHS ≢ 0 → weight ≡ record { parts = TENTHS; times = tenths }) }
    {
        if tenths % TENTHS == 0 {
            return Weight::new(tenths / TENTHS);
        }
        if tenths >= TENTHS && tenths <= MOST_WEIGHT * TENTHS {
            Some(Weight {
                parts: TENTHS,
                times: tenths,
            })
        } else {
            None
        }
    }

    /// How many times a cost counts, 1 to 10.
    #[inline]
    pub fn parts(self) -> u8
        ensures value { result ≡ self.parts }
        ensures range { IsWeight self }
    {
        self.parts
    }

    /// How many times a bound counts, 1 to 100, and no fewer than a cost.
    #[inline]
    pub fn times(self) -> u8
        ensures value { result ≡ self.times }
        ensures range { IsWeight self }
    {
        self.times
    }
}

/// How many keys may be stored where one search is asked for, 1 to 4,000,000, seen by contracts as its number.
#[derive(Clone, Copy, Debug, PartialEq, Eq)]
pub struct Budget {
    keys: u32,
}

impl Model for Budget {
    ghost use Rattle.std.specs.Prelude.{ℕ};
    ghost use Rattle.fc_best_first.specs.Limits.{IsBudget};

    ghost Value = { ℕ };

    ghost view = { λ budget. budget.keys };

    ghost invariant = { λ budget. IsBudget budget.keys };

    ghost inverse = { λ n. record { keys = n } };
}

impl Budget {
    /// The greatest.
    pub const MOST: Budget = Budget { keys: MOST_BUDGET };

    /// So many keys; `None` outside 1 to 4,000,000.
    pub fn new(keys: u32) -> Option<Budget>
        ensures range { IsSome result ↔ IsBudget keys }
        ensures value { IfSome result (λ budget. budget ≡ keys) }
    {
        if keys >= 1 && keys <= MOST_BUDGET {
            Some(Budget { keys })
        } else {
            None
        }
    }

    /// How many keys, 1 to 4,000,000.
    #[inline]
    pub fn get(self) -> u32
        ensures value { result ≡ self }
        ensures range { IsBudget self }
    {
        self.keys
    }
}

/// How many keys a search may store, or several that share it, 1 to 16,000,000, seen by contracts as its number.
#[derive(Clone, Copy, Debug, PartialEq, Eq)]
pub struct GreatBudget {
    number: u32,
}

impl Model for GreatBudget {
    ghost use Rattle.std.specs.Prelude.{ℕ};
    ghost use Rattle.fc_best_first.specs.Limits.{IsGreatBudget};

    ghost Value = { ℕ };

    ghost view = { λ budget. budget.number };

    ghost invariant = { λ budget. IsGreatBudget budget.number };

    ghost inverse = { λ n. record { number = n } };
}

impl From<Budget> for GreatBudget {
    ghost use Rattle.std.specs.Prelude.{◌≡◌};

    ghost from_gives = { λ budget great. great ≡ budget };

    fn from(budget: Budget) -> GreatBudget {
        GreatBudget {
            number: budget.get(),
        }
    }
}

impl GreatBudget {
    /// The greatest.
    pub const MOST: GreatBudget = GreatBudget {
        number: MOST_GREAT_BUDGET,
    };

    /// So many keys; `None` outside 1 to 16,000,000.
    pub fn new(keys: u32) -> Option<GreatBudget>
        ensures range { IsSome result ↔ IsGreatBudget keys }
        ensures value { IfSome result (λ budget. budget ≡ keys) }
    {
        if keys >= 1 && keys <= MOST_GREAT_BUDGET {
            Some(GreatBudget { number: keys })
        } else {
            None
        }
    }

    /// How many keys, 1 to 16,000,000.
    #[inline]
    pub fn get(self) -> u32
        ensures value { result ≡ self }
        ensures range { IsGreatBudget self }
    {
        self.number
    }
}
