ghost use Rattle.std.specs.Prelude.{◌≡◌, ℕ, ◌<◌, ◌≤◌, ◌++◌, ◌∷◌, [], ◌↔◌, IsTrue, length, map, take, slice_set, swap};
ghost use Rattle.std.specs.List.Sorted.{IsPermutation};
ghost use Rattle.fc_position.specs.Board.{column, last_of, front_of};
ghost use Rattle.fc_position.specs.Columns.{cards_at};

use crate::positions::Position;
use arrayvec::ArrayVec;
use fc_cards::Card;
use std::marker::Model;

// The cards of a column, the deepest first. They lie in an array of a fixed size, so that a copy is one of few steps.
#[derive(Drop)]
pub(crate) struct Column {
    cards: [Card; 52],
    count: usize,
}

impl Model for Column {
    ghost use Rattle.std.specs.Prelude.{◌≡◌, ◌≤◌, ℕ, List, length, take};

    ghost Value = { List ℕ };

    ghost view = { λ v. take v.count v.cards };

    ghost invariant = { λ v. (v.count ≤ 52) × (length v.cards ≡ 52) };
}

impl Column {
    // A column of no card.
    pub fn empty() -> Column
        ensures { result ≡ [] }
    {
        Column {
            cards: [Card::default(); 52],
            count: 0,
        }
    }

    // A column of these cards.
    pub fn of(cards: &[Card]) -> Column
        requires few { length cards.now ≤ 52 }
        ensures value { result ≡ cards.now }
    {
        let mut column = Column::empty();
        for card in cards {
            column.push(*card);
        }
        column
    }

    // The cards.
    #[inline]
    pub fn as_slice(&self) -> &[Card]
        ensures value { result.now ≡ self.now }
        ensures most { length self.now ≤ 52 }
    {
        &self.cards[..self.count]
    }

    // Puts a card on the others.
    #[inline]
    pub fn push(&mut self, card: Card)
        requires room { length self.old < 52 }
        ensures value { self.new ≡ self.old ++ card ∷ [] }
    {
        self.cards[self.count] = card;
        self.count += 1;
    }

    // Takes the last card away.
    #[inline]
    pub fn pop(&mut self) -> Option<Card>
        ensures value { result ≡ last_of self.old }
        ensures rest { self.new ≡ front_of self.old }
    {
        let card = self.as_slice().last().copied()?;
        self.count -= 1;
        Some(card)
    }

    // Takes so many of the first cards of another column in place of its own.
    #[inline]
    pub fn lay(&mut self, other: &Column, count: usize)
        requires few { count ≤ length other.now }
        ensures value { self.new ≡ take count other.now }
    {
        self.cards = other.cards;
        self.count = count;
    }

    // Takes all cards away.
    #[inline]
    pub fn clear(&mut self)
        ensures value { self.new ≡ [] }
    {
        self.count = 0;
    }

    // The same column.
    #[inline]
    pub fn copy(&self) -> Column
        ensures { result ≡ self.now }
    {
        Column {
            cards: self.cards,
            count: self.count,
        }
    }
}

impl PartialEq for Column {
    ghost use Rattle.std.specs.Prelude.{nat_eq};
    ghost use Rattle.std.specs.Cmp.{partial_equiv_from_equiv};
    ghost use Rattle.std.specs.Cmp.Lexicographic.{pointwise, nat_list_eq_equiv};

    ghost eq = { pointwise nat_eq };

    ghost laws = { partial_equiv_from_equiv nat_list_eq_equiv };

    fn eq(&self, other: &Column) -> bool {
        self.as_slice() == other.as_slice()
    }
}

/// Eight columns of cards, the deepest card first, whether or not each card has one place.
#[derive(Drop)]
pub struct Columns {
    columns: [Column; 8],
}

impl Model for Columns {
    ghost use Rattle.std.specs.Prelude.{◌≡◌, ℕ, List, length};

    ghost Value = { List (List ℕ) };

    ghost view = { λ s. s.columns };

    ghost invariant = { λ s. length s.columns ≡ 8 };
}

/// What fills columns anew.
pub trait Filling {
    ghost use Rattle.std.specs.Prelude.{List, ℕ, ◌≡◌, length};

    // What it fills them with, where it can.
    ghost fills: { Self → List (List ℕ) };

    ghost is_ready: { Self → Type 0 };

    /// Fills the columns, whatever is in them.
    fn fill(&self, columns: &mut Columns)
        requires ready { is_ready self.now }
        requires eight { length columns.old ≡ 8 }
        ensures value { columns.new ≡ fills self.now };
}

impl Columns {
    // The columns with these cards.
    pub(crate) fn of(parts: &[ArrayVec<Card, 52>; 8]) -> Columns
        ensures { result ≡ map (λ v. v.items) parts.now }
    {
        let [a, b, c, d, e, f, g, h] = parts;
        Columns {
            columns: [
                Column::of(a.as_slice()),
                Column::of(b.as_slice()),
                Column::of(c.as_slice()),
                Column::of(d.as_slice()),
                Column::of(e.as_slice()),
                Column::of(f.as_slice()),
                Column::of(g.as_slice()),
                Column::of(h.as_slice()),
            ],
        }
    }

    // The cards of a column.
    #[inline]
    pub(crate) fn column(&self, i: u8) -> &[Card]
        requires there { i < 8 }
        ensures value { result.now ≡ cards_at self.now i }
        ensures most { length result.now ≤ 52 }
    {
        self.columns[i as usize].as_slice()
    }

    // The last card of a column; `None` past the last column, too.
    #[inline]
    pub(crate) fn last(&self, i: u8) -> Option<Card>
        ensures value { result ≡ last_of (cards_at self.now i) }
    {
        self.columns.get(i as usize)?.as_slice().last().copied()
    }

    /// How many cards a column has.
    #[inline]
    pub fn count(&self, i: u8) -> usize
        requires there { i < 8 }
        ensures value { result ≡ length (cards_at self.now i) }
    {
        self.columns[i as usize].as_slice().len()
    }

    /// Puts a card on a column.
    #[inline]
    pub fn push(&mut self, i: u8, card: Card)
        requires there { i < 8 }
        requires room { length (cards_at self.old i) < 52 }
        ensures value { self.new ≡ slice_set self.old i (cards_at self.old i ++ card ∷ []) }
    {
        self.columns[i as usize].push(card);
    }

    /// Takes all cards of a column away.
    #[inline]
    pub fn clear(&mut self, i: u8)
        requires there { i < 8 }
        ensures value { self.new ≡ slice_set self.old i [] }
    {
        self.columns[i as usize].clear();
    }

    /// Puts so many of the first cards of a position's column in the place of what is in a column.
    #[inline]
    pub fn lay(&mut self, i: u8, position: &Position, j: u8, count: usize)
        requires there { i < 8 }
        requires other { j < 8 }
        requires few { count ≤ length (column position.now j) }
        ensures value { self.new ≡ slice_set self.old i (take count (column position.now j)) }
    {
        let columns = position.columns();
        self.columns[i as usize].lay(&columns.columns[j as usize], count);
    }

    // Takes the last card of a column away.
    #[inline]
    pub(crate) fn pop(&mut self, i: u8) -> Option<Card>
        requires there { i < 8 }
        ensures value { result ≡ last_of (cards_at self.old i) }
        ensures rest { self.new ≡ slice_set self.old i (front_of (cards_at self.old i)) }
    {
        self.columns[i as usize].pop()
    }

    // Exchanges two columns.
    pub(crate) fn swap(&mut self, i: u8, j: u8)
        requires first { i < 8 }
        requires second { j < 8 }
        ensures after { self.new ≡ swap self.old i j }
        ensures permutation { IsPermutation self.old self.new }
    {
        self.columns.swap(i as usize, j as usize);
    }

    // Whether the columns have the same cards.
    pub(crate) fn equals(&self, other: &Columns) -> bool
        ensures { IsTrue result ↔ self.now ≡ other.now }
    {
        same_columns(&self.columns, &other.columns)
    }

    // The same columns.
    pub(crate) fn copy(&self) -> Columns
        ensures { result ≡ self.now }
    {
        let [a, b, c, d, e, f, g, h] = &self.columns;
        Columns {
            columns: [
                a.copy(),
                b.copy(),
                c.copy(),
                d.copy(),
                e.copy(),
                f.copy(),
                g.copy(),
                h.copy(),
            ],
        }
    }
}

// Whether the columns have the same cards.
fn same_columns(columns: &[Column], others: &[Column]) -> bool
    ensures { IsTrue result ↔ columns.now ≡ others.now }
{
    columns == others
}
