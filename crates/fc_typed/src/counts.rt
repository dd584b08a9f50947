ghost use Rattle.std.specs.Prelude.{◌≡◌, ℕ, ◌*◌, ◌^◌, ◌<◌, ◌≤◌, min, length, slice_index, IfSome, IfNone};
ghost use Rattle.fc_typed.specs.Count.{SpellsTypedCount, SpellsNumber, SpellsUnit};
ghost use Rattle.fc_typed.specs.inner.Count.{IsNumberByte};

/// The count that a text spells: digits, among which underscores say nothing, and then perhaps `k` for thousands, `M` for
/// millions or `e` with the number of noughts, as in `100000`, `100_000`, `100k` and `1e5`. A count past 4,294,967,295 is
/// told as that. `None` for a text that spells none.
pub fn read_count(text: &[u8]) -> Option<u32>
    ensures value { IfSome result (λ n. (m : ℕ) × SpellsTypedCount text.now m × (n ≡ min m 4294967295)) }
    ensures none { IfNone result ((m : ℕ) → SpellsTypedCount text.now m → ⊥) }
{
    let (number, unit) = text.split_at(number_len(text));
    let value = read_number(number)?;
    let zeros = read_unit(unit)?;
    Some(with_zeros(value, zeros))
}

// How many bytes the text begins with that are digits or underscores.
fn number_len(text: &[u8]) -> usize
    ensures within { result ≤ length text.now }
    ensures number { (k : ℕ) → k < result → IsNumberByte (slice_index text.now k) }
    ensures unit { result < length text.now → IsNumberByte (slice_index text.now result) → ⊥ }
{
    for (i, byte) in text.iter().enumerate() {
        if !byte.is_ascii_digit() && *byte != b'_' {
            return i;
        }
    }
    text.len()
}

// The number that a text spells; one past 4,294,967,295 is told as that.
fn read_number(text: &[u8]) -> Option<u32>
    ensures value { IfSome result (λ n. (m : ℕ) × SpellsNumber text.now m × (n ≡ min m 4294967295)) }
    ensures none { IfNone result ((m : ℕ) → SpellsNumber text.now m → ⊥) }
{
    if !text.first()?.is_ascii_digit() {
        return None;
    }
    let mut value = 0u32;
    for byte in text {
        if byte.is_ascii_digit() {
            value = value
                .saturating_mul(10)
                .saturating_add(u32::from(*byte - b'0'));
        } else if *byte != b'_' {
            return None;
        }
    }
    Some(value)
}

// How many noughts a unit stands for; a number past 4,294,967,295 is told as that.
fn read_unit(unit: &[u8]) -> Option<u32>
    ensures value { IfSome result (λ n. (m : ℕ) × SpellsUnit unit.now m × (n ≡ min m 4294967295)) }
    ensures none { IfNone result ((m : ℕ) → SpellsUnit unit.now m → ⊥) }
{
    match unit {
        [] => Some(0),
        [b'k' | b'K'] => Some(3),
        [b'm' | b'M'] => Some(6),
        [b'e' | b'E', zeros @ ..] => read_number(zeros),
        _ => None,
    }
}

// A number with so many noughts behind it; one past 4,294,967,295 is told as that.
fn with_zeros(value: u32, zeros: u32) -> u32
    ensures { (m n : ℕ) → value ≡ min m 4294967295 → zeros ≡ min n 4294967295 → result ≡ min (m * 10 ^ n) 4294967295 }
{
    let mut value = value;
    // (ten noughts are past it already)
    for _ in 0..zeros.min(10) {
        value = value.saturating_mul(10);
    }
    value
}
