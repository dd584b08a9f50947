//! Weights as they are typed.

ghost use Rattle.std.specs.Prelude.{◌≡◌, ℕ, ◌+◌, ◌*◌, ◌<◌, ◌≤◌, IfSome, IfNone};
ghost use Rattle.fc_words.specs.Weights.{SpellsTenths};

use fc_methods::{TENTHS, Weight};

/// The weight that a text spells, a number from 1 to 10 with at most one digit behind a point, as in `2`, `2.0` and `1.3`;
/// `None` for a text that spells none.
pub fn weight_of(text: &[u8]) -> Option<Weight>
    ensures value { IfSome result (λ weight. (tenths : ℕ) × SpellsTenths text.now tenths × (TENTHS * weight.times ≡ tenths * weight.parts)) }
    ensures none { IfNone result ((tenths : ℕ) → SpellsTenths text.now tenths → tenths < TENTHS) }
{
    Weight::of_tenths(read_tenths(text)?)
}

// The tenths that a text spells, which are 100 at most; `None` for a text that spells none.
fn read_tenths(text: &[u8]) -> Option<u8>
    ensures value { IfSome result (λ tenths. SpellsTenths text.now tenths × (tenths ≤ 100)) }
    ensures none { IfNone result ((tenths : ℕ) → SpellsTenths text.now tenths → tenths < TENTHS) }
{
    match text {
        [whole] => Some(TENTHS * digit_of(*whole)?),
        [whole, b'.', tenth] => Some(TENTHS * digit_of(*whole)? + digit_of(*tenth)?),
        b"10" | b"10.0" => Some(100),
        _ => None,
    }
}

// The value of a digit; `None` for another byte.
fn digit_of(byte: u8) -> Option<u8>
    ensures value { IfSome result (λ digit. (byte ≡ 48 + digit) × (digit < 10)) }
    ensures none { IfNone result ((digit : ℕ) → byte ≡ 48 + digit → digit < 10 → ⊥) }
{
    match byte {
        b'0'..=b'9' => Some(byte - b'0'),
        _ => None,
    }
}
