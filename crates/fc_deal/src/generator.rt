ghost use Rattle.std.specs.Prelude.{◌≡◌, ℕ, ◌+◌, ◌/◌, ◌<◌, ◌^◌};
ghost use Rattle.fc_deal.specs.Draw.{next_state, state, draw};

use std::marker::Model;

/// The draws of a numbered deal, seen by contracts as the generator's state: at first the deal's number, and below
/// 2^31 from the first draw on.
#[derive(Clone, Copy, Debug, PartialEq, Eq)]
pub struct Draws {
    state: u32,
}

impl Model for Draws {
    ghost Value = { ℕ };

    ghost view = { λ d. d.state };

    ghost inverse = { λ n. record { state = n } };
}

impl Draws {
    /// The draws of deal `n`, before the first. Every number has draws, also those that name no deal.
    pub fn new(n: u32) -> Draws
        ensures start { result ≡ n }
    {
        Draws { state: n }
    }

    /// The next draw, below 32768.
    pub fn next(&mut self) -> u16
        ensures after { self.new ≡ next_state self.old }
        ensures value { result ≡ next_state self.old / 65536 }
        ensures below { result < 32768 }
        ensures in_order { (n k : ℕ) → self.old ≡ state n k → result ≡ draw n (k + 1) }
        ensures goes_on { (n k : ℕ) → self.old ≡ state n k → self.new ≡ state n (k + 1) }
    {
        self.state = ((self.state as u64 * 214013 + 2531011) % (1 << 31)) as u32;
        (self.state / 65536) as u16
    }
}
