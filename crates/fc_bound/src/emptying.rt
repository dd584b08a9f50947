//! Rings that are met while the cards of columns are taken out, as bits of cards. Here, too, that one is found isn't promised.

ghost use Rattle.std.specs.Prelude.{◌≡◌, ◌<◌, ◌^◌, bit_and};
ghost use Rattle.std.specs.Int.{bit_at};
ghost use Rattle.fc_bound.specs.inner.Tied.{AreTiedIn};

use crate::bits::{above, but_least, remove, suit_cards};
use crate::ring_search::{CARDS, least_card, long_ring_through, pair};
use crate::waiting_rows::{Marks, Rows};

// The columns while their cards are taken out, each from its column's end: the cards that are left, the last ones among them, and
// those that leave as soon as they are last.
#[derive(Clone, Copy)]
pub(crate) struct Emptying {
    all: u64,
    lasts: u64,
    free: u64,
    ghost cards: { all < 2 ^ 52 },
    ghost left: { bit_and lasts all ≡ lasts },
}

impl Emptying {
    // Free are at first the held cards and those that wait for none.
    #[inline]
    pub(crate) fn new(marks: Marks) -> Emptying {
        let all = marks.all & CARDS;
        Emptying {
            all,
            lasts: marks.lasts & all,
            free: marks.held | !above(all),
        }
    }

    // Whether all cards are out.
    #[inline]
    pub(crate) fn is_done(&self) -> bool {
        self.all == 0
    }

    // Takes out a last card.
    #[inline]
    fn take(&mut self, rows: &Rows, card: u8)
        requires card { card < 52 }
        ensures less { bit_at self.old.all card ≡ 1 → self.new.all < self.old.all }
    {
        let all = remove(self.all, card);
        self.all = all;
        self.lasts = (self.lasts | rows[card as usize].beneath) & all;
    }

    // Takes out free cards until none is last. The lowest card of a suit that is left waits for none.
    #[inline]
    pub(crate) fn loosen(&mut self, rows: &Rows) {
        let mut loose = self.lasts & self.free;
        while loose != 0 {
            let card = least_card(loose);
            self.take(rows, card);
            let suit = self.all & suit_cards(card);
            self.free |= suit & suit.wrapping_neg();
            loose = self.lasts & self.free;
        }
    }

    // Takes out last cards.
    #[inline]
    pub(crate) fn shed(&mut self, rows: &Rows, cards: u64) {
        let mut rest = cards & self.all;
        while rest != 0 {
            let card = least_card(rest);
            self.take(rows, card);
            rest = but_least(rest);
        }
    }

    // Where no last card is free, a ring of last cards: two, if two are one.
    #[inline]
    pub(crate) fn knot(&self, rows: &Rows) -> u64
        ensures { AreTiedIn rows.now result }
    {
        let mut rest = self.lasts;
        while rest != 0 {
            let card = least_card(rest);
            rest = remove(rest, card);
            let pair = pair(rows, rest, card);
            if pair != 0 {
                return pair;
            }
        }
        self.long_ring(rows)
    }

    // The same where no two are one: a shortest ring through the least card that is on any.
    #[cold]
    fn long_ring(&self, rows: &Rows) -> u64
        ensures { AreTiedIn rows.now result }
    {
        let mut rest = self.lasts;
        while rest != 0 {
            let card = least_card(rest);
            let ring = long_ring_through(rows, self.lasts, card);
            if ring != 0 {
                return ring;
            }
            rest = remove(rest, card);
        }
        0
    }
}
