//! Sets of cards, one bit for each by its number.

ghost use Rattle.std.specs.Prelude.{◌≡◌, ℕ, ◌<◌, ◌==◌, ◌↔◌, cond};
ghost use Rattle.std.specs.Int.{bit_at};
ghost use Rattle.fc_cards.specs.Card.{suit};
ghost use Rattle.fc_bound.specs.Bound.{is_lower};
ghost use Rattle.fc_bound.specs.inner.Rows.{HasLower};

// The bits of the higher cards of each card's suit, by the card's number: to look them up takes less than to make them.
static HIGHER: [u64; 52] = [
    0x1_1111_1111_1110,
    0x2_2222_2222_2220,
    0x4_4444_4444_4440,
    0x8_8888_8888_8880,
    0x1_1111_1111_1100,
    0x2_2222_2222_2200,
    0x4_4444_4444_4400,
    0x8_8888_8888_8800,
    0x1_1111_1111_1000,
    0x2_2222_2222_2000,
    0x4_4444_4444_4000,
    0x8_8888_8888_8000,
    0x1_1111_1111_0000,
    0x2_2222_2222_0000,
    0x4_4444_4444_0000,
    0x8_8888_8888_0000,
    0x1_1111_1110_0000,
    0x2_2222_2220_0000,
    0x4_4444_4440_0000,
    0x8_8888_8880_0000,
    0x1_1111_1100_0000,
    0x2_2222_2200_0000,
    0x4_4444_4400_0000,
    0x8_8888_8800_0000,
    0x1_1111_1000_0000,
    0x2_2222_2000_0000,
    0x4_4444_4000_0000,
    0x8_8888_8000_0000,
    0x1_1111_0000_0000,
    0x2_2222_0000_0000,
    0x4_4444_0000_0000,
    0x8_8888_0000_0000,
    0x1_1110_0000_0000,
    0x2_2220_0000_0000,
    0x4_4440_0000_0000,
    0x8_8880_0000_0000,
    0x1_1100_0000_0000,
    0x2_2200_0000_0000,
    0x4_4400_0000_0000,
    0x8_8800_0000_0000,
    0x1_1000_0000_0000,
    0x2_2000_0000_0000,
    0x4_4000_0000_0000,
    0x8_8000_0000_0000,
    0x1_0000_0000_0000,
    0x2_0000_0000_0000,
    0x4_0000_0000_0000,
    0x8_0000_0000_0000,
    0x0,
    0x0,
    0x0,
    0x0,
];

// The least number whose bit is set.
#[inline]
pub(crate) fn least(bits: u64) -> u8
    requires some { 0 < bits }
    ensures below { result < 64 }
    ensures set { bit_at bits result ≡ 1 }
    ensures least { (c : ℕ) → c < result → bit_at bits c ≡ 0 }
{
    bits.trailing_zeros() as u8
}

// The bits without that of this number.
#[inline]
pub(crate) fn remove(bits: u64, c: u8) -> u64
    requires below { c < 64 }
    ensures value { (d : ℕ) → bit_at result d ≡ cond (d == c) 0 (bit_at bits d) }
    ensures less { bit_at bits c ≡ 1 → result < bits }
{
    bits & !(1 << c)
}

// The bits without the least of them: fewer steps than to remove it.
#[inline]
pub(crate) fn but_least(bits: u64) -> u64
    requires some { 0 < bits }
    ensures less { result < bits }
{
    bits & (bits - 1)
}

// The bits of the higher cards of the suit of the card with this number.
#[inline]
pub(crate) fn higher_cards(index: u8) -> u64
    requires below { index < 52 }
    ensures value { (c : ℕ) → c < 52 → bit_at result c ≡ cond (is_lower c index) 1 0 }
{
    HIGHER[index as usize]
}

// The bits of the cards of each suit.
static SUITS: [u64; 4] = [
    0x1_1111_1111_1111,
    0x2_2222_2222_2222,
    0x4_4444_4444_4444,
    0x8_8888_8888_8888,
];

// The bits of all cards of the suit of the card with this number.
#[inline]
pub(crate) fn suit_cards(index: u8) -> u64
    requires below { index < 52 }
    ensures value { (c : ℕ) → c < 52 → bit_at result c ≡ cond (suit c == suit index) 1 0 }
{
    SUITS[index as usize % 4]
}

// The bits of all numbers that are greater than one of these by a multiple of four: of the cards that have a lower card of
// their own suit among these.
#[inline]
pub(crate) fn above(bits: u64) -> u64
    ensures value { (c : ℕ) → c < 64 → (bit_at result c ≡ 1) ↔ HasLower bits c }
{
    let mut all = bits << 4;
    all |= all << 4;
    all |= all << 8;
    all |= all << 16;
    all | all << 32
}
