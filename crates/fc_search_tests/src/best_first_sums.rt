//! A question of the tests' own: to reach a sum by adding 2, 4 and 6.

ghost use Rattle.std.specs.Prelude.{◌≡◌, ℕ, [], ◌∷◌, length, ◌-◌, ◌≤◌, IfNone, MatchOption};
ghost use Rattle.fc_best_first.specs.Turn.{AreChildren};
ghost use Rattle.fc_search_tests.specs.Sums.{IsChildOf, in_turn, number_exact, sums, sums_lawful};

use fc_best_first::{Child, Noted, Space};
use fc_keys::ExactKey;
use std::alloc::{AllocError, Global};
use std::marker::Model;

/// A sum that was reached.
#[derive(Clone, Copy, PartialEq, Eq, Hash)]
pub struct Sum {
    pub value: u32,
}

impl Model for Sum {
    ghost Value = { ℕ };

    ghost view = { λ s. s.value };

    ghost inverse = { λ n. record { value = n } };
}

impl ExactKey for Sum {
    ghost exact = { number_exact };
}

/// To reach a sum by adding 2 at a cost of 3, 4 at a cost of 4 and 6 at a cost of 9.
#[derive(Drop)]
pub struct Sums {
    pub goal: u8,
}

/// The addends of a sum that are left, and the sum at which a walk over them stands.
#[derive(Drop)]
pub struct Addends {
    at: Sum,
    two: Option<Child<Sum>>,
    four: Option<Child<Sum>>,
    six: Option<Child<Sum>>,
}

impl Sums {
    fn child(&self, key: Sum, size: u8, cost: u8) -> Option<Child<Sum>>
        ensures child { IsChildOf self.now.goal key size cost result }
        ensures byte { self.now.goal ≤ 255 }
    {
        let goal = self.goal;
        let room = goal.checked_sub(size)?;
        if u32::from(room) < key.value {
            return None;
        }
        let value = key.value + u32::from(size);
        Some(Child {
            key: Sum { value },
            cost,
        })
    }

    // What is missing of a sum to the goal.
    fn missing(&self, sum: Sum) -> u8
        ensures value { result ≡ self.now.goal - sum }
    {
        u32::from(self.goal).saturating_sub(sum.value) as u8
    }

    fn addends(&self, key: Sum) -> Addends
        ensures children { AreChildren (sums self.now.goal) key (in_turn result.two result.four result.six) }
    {
        Addends {
            at: key,
            two: self.child(key, 2, 3),
            four: self.child(key, 4, 4),
            six: self.child(key, 6, 9),
        }
    }
}

impl Addends {
    // Takes out the first addend that is left.
    fn next(&mut self) -> Option<Child<Sum>>
        ensures next { MatchOption result (in_turn self.old.two self.old.four self.old.six ≡ []) (λ child. in_turn self.old.two self.old.four self.old.six ≡ child ∷ in_turn self.new.two self.new.four self.new.six) }
        ensures none { IfNone result (self.new ≡ self.old) }
    {
        if let Some(child) = self.two.take() {
            return Some(child);
        }
        if let Some(child) = self.four.take() {
            return Some(child);
        }
        self.six.take()
    }
}

impl Space<Sum> for Sums {
    ghost graph = { λ s. sums s.goal };

    type Walk = Addends;

    ghost rest = { λ w children. children ≡ in_turn w.two w.four w.six };

    ghost owns = { λ s w. Unit {0} };

    ghost at = { λ w key. key ≡ w.at };

    ghost left = { λ w. length (in_turn w.two w.four w.six) };

    fn start(&self, _alloc: Global) -> Result<(Child<Sum>, Addends), AllocError> {
        let key = Sum { value: 0 };
        let walk = Addends {
            at: key,
            two: None,
            four: None,
            six: None,
        };
        Ok((Child { key, cost: 0 }, walk))
    }

    fn is_won(&self, key: &Sum) -> bool {
        key.value == u32::from(self.goal)
    }

    fn least(&self, walk: &Addends) -> u8 {
        self.missing(walk.at)
    }

    fn key(&self, walk: &Addends) -> Sum {
        walk.at
    }

    fn noted(&self, _walk: &mut Addends, key: &Sum, _most: u8) -> Noted {
        Noted {
            bound: self.missing(*key),
            note: u64::from(key.value),
        }
    }

    fn visit(&self, key: &Sum, _noted: Noted, _is_first: bool, walk: &mut Addends) -> bool {
        *walk = self.addends(*key);
        false
    }

    fn next(&self, walk: &mut Addends) -> Option<u8> {
        let child = walk.next()?;
        walk.at = child.key;
        Some(child.cost)
    }

    ghost lawful = { λ s. sums_lawful s.goal };
}
