//! Sets of cards, one bit a card.

ghost use Rattle.std.specs.Prelude.{◌≡◌, false, ℕ, ◌+◌, ◌-◌, ◌*◌, ◌^◌, ◌<◌, ◌≤◌, ◌↔◌, IsTrue, All, length, Some};
ghost use Rattle.fc_position.specs.Board.{count_in_column, count_in_cell, count_at_home};
ghost use Rattle.fc_canonical.specs.inner.Parts.{times_in, times_due, count_in_cells};

use std::marker::Model;

// The bits of all the cards.
const ALL: u64 = 0xF_FFFF_FFFF_FFFF;

// The bits of the cards of each suit, which are every fourth.
const CLUBS: u64 = 0x1_1111_1111_1111;

const DIAMONDS: u64 = 0x2_2222_2222_2222;

const HEARTS: u64 = 0x4_4444_4444_4444;

const SPADES: u64 = 0x8_8888_8888_8888;

// A set of cards: the bit with a card's number is set where the card is in it.
#[derive(Drop)]
pub(crate) struct CardSet {
    bits: u64,
}

impl Model for CardSet {
    ghost Value = { ℕ };

    ghost view = { λ s. s.bits };

    ghost invariant = { λ s. s.bits < 2 ^ 52 };
}

impl CardSet {
    // The cards that are home by these counts.
    #[inline]
    pub(crate) fn home(counts: &[u8]) -> CardSet
        requires count { length counts.now ≡ 4 }
        requires most { All (λ n. n ≤ 13) counts.now }
        ensures value { (c : ℕ) → times_in result c ≡ count_at_home c counts.now }
    {
        let clubs = lowest(counts[0]) & CLUBS;
        let diamonds = lowest(counts[1]) & DIAMONDS;
        let hearts = lowest(counts[2]) & HEARTS;
        let spades = lowest(counts[3]) & SPADES;
        CardSet {
            bits: clubs | diamonds | hearts | spades,
        }
    }

    // Whether each card is in it.
    #[inline]
    pub(crate) fn is_full(&self) -> bool
        ensures value { IsTrue result ↔ ((c : ℕ) → times_in self.now c ≡ times_due c) }
    {
        self.bits == ALL
    }

    // Puts the card with this number into it. False where there is no such card, or it was there.
    #[inline]
    pub(crate) fn insert(&mut self, card: u8) -> bool
        ensures added { IsTrue result → (c : ℕ) → times_in self.new c ≡ times_in self.old c + count_in_cell c (Some card) }
        ensures refused { result ≡ false → times_due card < times_in self.old card + 1 }
    {
        if card >= 52 {
            return false;
        }
        let bit = 1 << card;
        if self.bits & bit != 0 {
            return false;
        }
        self.bits |= bit;
        true
    }

    // Puts the cards with these numbers into it, one after the other. False where that can't be done with one of them.
    #[inline]
    pub(crate) fn insert_all(&mut self, cards: &[u8]) -> bool
        ensures added { IsTrue result → (c : ℕ) → times_in self.new c ≡ times_in self.old c + count_in_column c cards.now }
        ensures refused { result ≡ false → (c : ℕ) × (times_due c < times_in self.old c + count_in_column c cards.now) }
    {
        for card in cards {
            if !self.insert(*card) {
                return false;
            }
        }
        true
    }

    // Puts the cards in cells with these bytes into it, one after the other. False where that can't be done with one.
    #[inline]
    pub(crate) fn insert_cells(&mut self, cells: &[u8]) -> bool
        ensures added { IsTrue result → (c : ℕ) → times_in self.new c ≡ times_in self.old c + count_in_cells c cells.now }
        ensures refused { result ≡ false → (c : ℕ) × (times_due c < times_in self.old c + count_in_cells c cells.now) }
    {
        for byte in cells {
            if *byte != 255 && !self.insert(*byte) {
                return false;
            }
        }
        true
    }
}

// The bits of the cards of so many lowest ranks.
fn lowest(ranks: u8) -> u64
    requires most { ranks ≤ 13 }
    ensures value { result ≡ 2 ^ (4 * ranks) - 1 }
{
    (1 << (4 * ranks)) - 1
}
