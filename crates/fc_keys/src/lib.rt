//! What a key has to be that something is kept under: keys that compare equal are the same.
#![tactic(auto)]

ghost use Rattle.std.specs.Prelude.{◌≡◌, true};

use std::hash::Hash;

/// A key that is exact: two keys that compare equal are the same.
pub trait ExactKey: Eq + Hash + Drop {
    ghost exact: { (x y : Self) → Self.PartialEq.eq x y ≡ true → x ≡ y };
}
