ghost use Rattle.std.specs.Prelude.{◌≡◌, ℕ, ◌<◌, ◌&&◌, cond, false, true, [], Some, IfSome, IfNone, length, count_by, slice_index_or};
ghost use Rattle.std.specs.Int.{bit_at};
ghost use Rattle.std.specs.List.{list_any};
ghost use Rattle.fc_position.specs.Board.{last_of};
ghost use Rattle.fc_position.specs.Position.{IsPosition};
ghost use Rattle.fc_bound.specs.Bound.{is_above_lower};
ghost use Rattle.fc_cards.specs.Card.{suit};
ghost use Rattle.fc_bound.specs.Clearing.{waits, without};
ghost use Rattle.fc_bound.specs.Rows.{AreBits, AreRows, stands_among};
ghost use Rattle.fc_bound.specs.inner.Rows.{Mark, AreApart, AreLow, TellsKnot, ends_in, is_set, waiting_in};
ghost use Rattle.fc_bound.specs.Knots.{has_last, waits_in, waits_above, is_loose, are_knotted, waits_among, is_ring, ring, is_in_knot, without_last_where, ends_among};

use crate::bits::{above, least, remove, suit_cards};
use crate::waiting_rows::{Marks, Rows};
use fc_position::Position;
use std::marker::Model;

// The lowest cards of the columns of a position, while cards are taken out of them: the bits of those that are left, and of the
// last ones among them.
#[derive(Drop)]
pub(crate) struct Left<'a> {
    position: &'a Position,
    rows: &'a Rows,
    held: u64,
    all: u64,
    lasts: u64,
}

impl<'a> Model for Left<'a> {
    ghost use Rattle.std.specs.Prelude.{ℕ, List};
    ghost use Rattle.fc_bound.specs.inner.Rows.{left_in, IsLeft};

    ghost Value = { List (List ℕ) };

    ghost view = { λ s. left_in s.all s.position.now.columns };

    ghost invariant = { λ s. IsLeft s.position.now s.rows.now s.held s.all s.lasts };
}

impl<'a> Left<'a> {
    // All cards of the columns.
    #[inline]
    pub(crate) fn new(position: &'a Position, rows: &'a Rows, marks: Marks) -> Left<'a>
        requires whole { IsPosition position.now }
        requires long { length rows.now ≡ 52 }
        requires rows { AreRows position.now.columns rows.now }
        requires all { AreBits marks.all (stands_among position.now.columns) }
        requires lasts { AreBits marks.lasts (ends_among position.now.columns) }
        requires held { AreBits marks.held (λ c. list_any (is_above_lower c) position.now.columns) }
        ensures value { result ≡ position.now.columns }
    {
        Left {
            position,
            rows,
            held: marks.held,
            all: marks.all,
            lasts: marks.lasts,
        }
    }

    // The same cards.
    #[inline]
    pub(crate) fn copy(&self) -> Left<'a>
        ensures value { result ≡ self.now }
    {
        Left {
            position: self.position,
            rows: self.rows,
            held: self.held,
            all: self.all,
            lasts: self.lasts,
        }
    }

    // Whether a card is left.
    #[inline]
    pub(crate) fn has_cards(&self) -> bool
        ensures value { result ≡ list_any (λ column. has_last (last_of column)) self.now }
    {
        self.all != 0
    }

    // How many of the cards that are left wait for a card beneath them.
    #[inline]
    pub(crate) fn waiting(&self) -> u8
        ensures value { result ≡ waiting_in self.now }
    {
        (self.held & self.all).count_ones() as u8
    }

    // Takes out the card with this number, the last one of a column, of which there is only one.
    #[inline]
    pub(crate) fn take(&mut self, u: u8)
        requires last { ends_among self.old u ≡ true }
        ensures value { (i : ℕ) → last_of (slice_index_or self.old i []) ≡ Some u → self.new ≡ without self.old i }
        ensures apart { AreApart self.old }
        ensures eight { length self.old ≡ 8 }
        ensures below { u < 52 }
    {
        let row = self.rows[u as usize];
        self.all = remove(self.all, u);
        self.lasts = remove(self.lasts, u) | row.beneath;
    }

    // Takes out these last cards: how many of them wait for a card beneath them.
    #[inline]
    pub(crate) fn shed(&mut self, bits: u64) -> u8
        requires lasts { (u : ℕ) → bit_at bits u ≡ 1 → ends_among self.old u ≡ true }
        ensures value { self.new ≡ without_last_where (λ column. ends_in bits (last_of column)) self.old }
        ensures met { result ≡ count_by (λ column. ends_in bits (last_of column) && waits_above column) self.old }
    {
        let mut met = 0;
        let mut rest = bits;
        while rest != 0 {
            let u = least(rest);
            rest = remove(rest, u);
            met += self.waits_above(u) as u8;
            self.take(u);
        }
        met
    }

    // Whether the last card with this number waits for a card beneath it.
    #[inline]
    fn waits_above(&self, u: u8) -> bool
        requires last { ends_among self.now u ≡ true }
        ensures value { (i : ℕ) → last_of (slice_index_or self.now i []) ≡ Some u → result ≡ waits_above (slice_index_or self.now i []) }
        ensures eight { length self.now ≡ 8 }
    {
        self.held >> u & 1 != 0
    }

    // The bits of the cards that are left and wait for none, and perhaps of some that aren't left.
    #[inline]
    pub(crate) fn lows(&self) -> u64
        ensures value { AreLow result self.now }
    {
        !above(self.all)
    }

    // The bits of the last cards that may leave at once, by those of the cards that wait for none.
    #[inline]
    fn loose(&self, lows: u64) -> u64
        requires lows { AreLow lows self.now }
        ensures value { Mark result self.now (is_loose self.now) }
    {
        self.lasts & (self.held | lows)
    }

    // A last card that may leave at once, by the bits of the cards that wait for none.
    #[inline]
    pub(crate) fn first_loose(&self, lows: u64) -> Option<u8>
        requires lows { AreLow lows self.now }
        ensures last { IfSome result (λ u. ends_among self.now u ≡ true) }
        ensures loose { IfSome result (λ u. (i : ℕ) → last_of (slice_index_or self.now i []) ≡ Some u
            → is_loose self.now (slice_index_or self.now i []) ≡ true) }
        ensures none { IfNone result (list_any (is_loose self.now) self.now ≡ false) }
    {
        let loose = self.loose(lows);
        if loose == 0 {
            return None;
        }
        Some(least(loose))
    }

    // The bit of the lowest card that is left of the suit of the card with this number, which waits for none.
    #[inline]
    fn lowest_of_suit(&self, u: u8) -> u64
        requires below { u < 52 }
        ensures low { (c : ℕ) → bit_at result c ≡ 1 → waits self.now (Some c) ≡ false }
        ensures each { (c : ℕ) → stands_among self.now c ≡ true → suit c ≡ suit u → waits self.now (Some c) ≡ false → bit_at result c ≡ 1 }
    {
        let suit = self.all & suit_cards(u);
        if suit == 0 { 0 } else { 1 << least(suit) }
    }

    // Takes out the last card with this number: the bits of the cards that wait for none afterwards, by those before. Only the lowest
    // card of its suit may wait no more.
    #[inline]
    pub(crate) fn take_of(&mut self, u: u8, lows: u64) -> u64
        requires last { ends_among self.old u ≡ true }
        requires lows { AreLow lows self.old }
        ensures value { (i : ℕ) → last_of (slice_index_or self.old i []) ≡ Some u → self.new ≡ without self.old i }
        ensures lows { AreLow result self.new }
    {
        self.take(u);
        lows | self.lowest_of_suit(u)
    }

    // Takes out the last cards that may leave at once: how many wait for a card beneath them, `None` where there is none.
    #[inline]
    pub(crate) fn take_loose(&mut self) -> Option<u8>
        ensures met { IfSome result (λ met. met ≡ count_by waits_above self.old) }
        ensures some_loose { IfSome result (λ met. list_any (is_loose self.old) self.old ≡ true) }
        ensures taken { IfSome result (λ met. self.new ≡ without_last_where (is_loose self.old) self.old) }
        ensures none_loose { IfNone result (list_any (is_loose self.old) self.old ≡ false) }
        ensures same { IfNone result (self.new ≡ self.old) }
    {
        let loose = self.loose(self.lows());
        if loose == 0 {
            return None;
        }
        Some(self.shed(loose))
    }

    // Whether the one last card waits for a card of the other's column.
    #[inline]
    fn waits_in(&self, u: u8, v: u8) -> bool
        requires one { ends_among self.now u ≡ true }
        requires two { ends_among self.now v ≡ true }
        ensures value { (i j : ℕ) → last_of (slice_index_or self.now i []) ≡ Some u → last_of (slice_index_or self.now j []) ≡ Some v
            → result ≡ waits_in (slice_index_or self.now i []) (slice_index_or self.now j []) }
    {
        self.rows[v as usize].waiting >> u & 1 != 0
    }

    // Whether two last cards wait for cards of each other's columns.
    #[inline]
    fn is_knotted(&self, u: u8, v: u8) -> bool
        requires one { ends_among self.now u ≡ true }
        requires two { ends_among self.now v ≡ true }
        ensures value { (i j : ℕ) → last_of (slice_index_or self.now i []) ≡ Some u → last_of (slice_index_or self.now j []) ≡ Some v
            → result ≡ are_knotted (slice_index_or self.now i []) (slice_index_or self.now j []) }
    {
        self.waits_in(u, v) && self.waits_in(v, u)
    }

    // The least of these last cards that is knotted with the one of this number, if one is.
    #[inline]
    fn partner(&self, u: u8, others: u64) -> Option<u8>
        requires one { ends_among self.now u ≡ true }
        requires others { (v : ℕ) → bit_at others v ≡ 1 → ends_among self.now v ≡ true }
        ensures set { IfSome result (λ v. bit_at others v ≡ 1) }
        ensures knotted { IfSome result (λ v. TellsKnot self.now u v true) }
        ensures least { IfSome result (λ v. (w : ℕ) → w < v → bit_at others w ≡ 1 → TellsKnot self.now u w false) }
        ensures none { IfNone result ((w : ℕ) → bit_at others w ≡ 1 → TellsKnot self.now u w false) }
    {
        // None of them is knotted with it but those that wait for a card of its column.
        let mut rest = others & self.rows[u as usize].waiting;
        while rest != 0 {
            let v = least(rest);
            if self.is_knotted(u, v) {
                return Some(v);
            }
            rest = remove(rest, v);
        }
        None
    }

    // The bits of the cards that wait for a card of a column that ends with one of these.
    #[inline]
    fn waiting_among(&self, set: u64) -> u64
        requires lasts { (v : ℕ) → bit_at set v ≡ 1 → ends_among self.now v ≡ true }
        ensures value { (u i : ℕ) → last_of (slice_index_or self.now i []) ≡ Some u
            → bit_at result u ≡ cond (waits_among self.now (is_set set) (slice_index_or self.now i [])) 1 0 }
    {
        let mut waiting = 0;
        let mut rest = set;
        while rest != 0 {
            let v = least(rest);
            waiting |= self.rows[v as usize].waiting;
            rest = remove(rest, v);
        }
        waiting
    }

    // Whether these last cards are a ring: each waits for a card of a column that ends with one of them.
    #[inline]
    fn is_ring(&self, set: u64) -> bool
        requires lasts { (u : ℕ) → bit_at set u ≡ 1 → ends_among self.now u ≡ true }
        ensures value { result ≡ is_ring self.now (is_set set) }
    {
        set != 0 && set & !self.waiting_among(set) == 0
    }

    // The bits of a ring of last cards: of all of them, each is left out, the least first, if a ring is left without it.
    fn ring(&self) -> u64
        ensures value { AreBits result (ring self.now) }
    {
        let mut ring = self.lasts;
        let mut rest = self.lasts;
        while rest != 0 {
            let u = least(rest);
            rest = remove(rest, u);
            let others = remove(ring, u);
            if self.is_ring(others) {
                ring = others;
            }
        }
        ring
    }

    // The bits of the last cards of the knot, where no card may leave at once.
    #[inline]
    pub(crate) fn knot(&self) -> u64
        requires tight { list_any (is_loose self.now) self.now ≡ false }
        ensures value { Mark result self.now (is_in_knot self.now) }
    {
        let mut rest = self.lasts;
        while rest != 0 {
            let u = least(rest);
            rest = remove(rest, u);
            if let Some(v) = self.partner(u, rest) {
                return 1 << u | 1 << v;
            }
        }
        self.ring()
    }
}
