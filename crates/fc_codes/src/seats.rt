ghost use Rattle.std.specs.Prelude.{◌≡◌, ◌+◌, ◌<◌, ◌≤◌, ◌==◌, ◌*◌, ◌/◌, ◌&&◌, ℕ, nat_lt, if◌then◌else◌, map, length, replicate, IsTrue, ◌↔◌, All, Some, None, IfSome, IfNone, [], ◌∷◌, ◌++◌, slice_index, slice_set};
ghost use Rattle.std.specs.Int.{bit_at};
ghost use Rattle.fc_cards.specs.Card.{suit};

use fc_cards::Card;

// What a card lies on that lies on no card: the table, or nothing at all. On a card without a card on it lies nothing.
pub(crate) const TABLE: u8 = 52;

pub(crate) const NOTHING: u8 = 53;

// What the cards lie on by a code, where it isn't what they lay on at the start.
#[derive(Drop)]
pub(crate) struct Seats {
    // for each card the number of the card that came onto it, or 53
    pub above: [u8; 52],
    // the bits of the deepest cards of columns
    pub deepest: u64,
    // the bits of the cards that moved
    pub moved: u64,
    // the cards in cells, rising, and how many they are
    pub cells: [Option<Card>; 4],
    pub held: u8,
    // how many cards of each suit are home
    pub homes: [u8; 4],
}

impl Seats {
    // No card has moved, where such cards lay on the table.
    #[inline]
    pub fn unmoved(deepest: u64) -> Seats
        ensures above { result.above ≡ replicate 52 53 }
        ensures deepest { result.deepest ≡ deepest }
        ensures moved { result.moved ≡ 0 }
        ensures cells { result.cells ≡ replicate 4 None }
        ensures held { result.held ≡ 0 }
        ensures homes { result.homes ≡ 0 ∷ 0 ∷ 0 ∷ 0 ∷ [] }
    {
        Seats {
            above: [NOTHING; 52],
            deepest,
            moved: 0,
            cells: [None; 4],
            held: 0,
            homes: [0; 4],
        }
    }

    // Takes the card with this number from where it lay.
    #[inline]
    pub fn leave(&mut self, index: u8)
        requires card { index < 52 }
        ensures deepest { (c : ℕ) → bit_at self.new.deepest c ≡ (if c == index then 0 else bit_at self.old.deepest c) }
        ensures moved { (c : ℕ) → bit_at self.new.moved c ≡ (if c == index then 1 else bit_at self.old.moved c) }
        ensures above { self.new.above ≡ self.old.above }
        ensures cells { self.new.cells ≡ self.old.cells }
        ensures held { self.new.held ≡ self.old.held }
        ensures homes { self.new.homes ≡ self.old.homes }
    {
        self.deepest = without_card(self.deepest, index);
        self.moved = with_card(self.moved, index);
    }

    // Puts the card with this number where its state says: home, into a cell, on the table, or on a card one rank higher.
    #[inline]
    pub fn put(&mut self, index: u8, state: u8)
        requires card { index < 52 }
        requires moved { 0 < state }
        requires on_card { 4 ≤ state → index / 4 * 4 + state < 52 }
        requires in_cell { state ≡ 2 → self.old.held < 4 }
        requires above { length self.old.above ≡ 52 }
        requires cells { length self.old.cells ≡ 4 }
        requires homes { length self.old.homes ≡ 4 }
        requires few { slice_index self.old.homes (suit index) < 255 }
        ensures above { self.new.above
            ≡ (if nat_lt 3 state then slice_set self.old.above (index / 4 * 4 + state) index else self.old.above) }
        ensures deepest { (c : ℕ) → bit_at self.new.deepest c ≡ (if (state == 3) && (c == index) then 1 else bit_at self.old.deepest c) }
        ensures moved { self.new.moved ≡ self.old.moved }
        ensures cells { self.new.cells ≡ (if state == 2 then slice_set self.old.cells self.old.held (Some index) else self.old.cells) }
        ensures held { self.new.held ≡ (if state == 2 then self.old.held + 1 else self.old.held) }
        ensures homes { self.new.homes ≡ (if state == 1
            then slice_set self.old.homes (suit index) (slice_index self.old.homes (suit index) + 1) else self.old.homes) }
    {
        // Most cards that move come onto others.
        if state > 3 {
            self.above[(index / 4 * 4 + state) as usize] = index;
        } else if state == 3 {
            self.deepest = with_card(self.deepest, index);
        } else if state == 2 {
            self.cells[self.held as usize] = Card::from_index(index);
            self.held += 1;
        } else {
            self.homes[(index % 4) as usize] += 1;
        }
    }
}

// The bits with that of this card.
#[inline]
pub(crate) fn with_card(bits: u64, index: u8) -> u64
    requires below { index < 64 }
    ensures value { (c : ℕ) → bit_at result c ≡ (if c == index then 1 else bit_at bits c) }
{
    bits | 1 << index
}

// The bits without that of this card.
#[inline]
pub(crate) fn without_card(bits: u64, index: u8) -> u64
    requires below { index < 64 }
    ensures value { (c : ℕ) → bit_at result c ≡ (if c == index then 0 else bit_at bits c) }
{
    bits & !(1 << index)
}

// Whether the card's bit is set.
#[inline]
pub(crate) fn has_card(bits: u64, card: Card) -> bool
    ensures value { IsTrue result ↔ bit_at bits card ≡ 1 }
    ensures card { card < 52 }
{
    bits >> card.index() & 1 != 0
}

// The least card of those whose bits are set, if there is one.
#[inline]
pub(crate) fn least_card(bits: u64) -> Option<Card>
    ensures set { IfSome result (λ c. bit_at bits c ≡ 1) }
    ensures least { IfSome result (λ c. (d : ℕ) → d < c → bit_at bits d ≡ 0) }
    ensures none { IfNone result ((d : ℕ) → d < 52 → bit_at bits d ≡ 0) }
{
    Card::from_index(bits.trailing_zeros() as u8)
}
