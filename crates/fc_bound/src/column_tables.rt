//! What is looked up of a position's columns, kept while a card is taken from one place to another.

ghost use Rattle.std.specs.Prelude.{◌≡◌, ◌<◌, ◌↔◌, ℕ, Some, IfSome, length};
ghost use Rattle.std.specs.Int.{bit_at};
ghost use Rattle.fc_position.specs.Board.{Board, column, last_of, front_of, board_without};
ghost use Rattle.fc_position.specs.Position.{IsPosition};
ghost use Rattle.fc_cards.specs.declared.places.Place.TheVariants.{Column};
ghost use Rattle.fc_bound.specs.Bound.{is_held_back};
ghost use Rattle.fc_bound.specs.Rows.{AreBits, HaveMoved, IsTableBut, IsTableOf, LiesOnOne};

use crate::bits::{higher_cards, remove};
use crate::ring_search::{CARDS, least_card};
use crate::waiting_rows::{ColumnTable, Marks, Row, blank, fill, fill_moved, restore};
use fc_cards::{Card, Place};
use fc_position::Position;

impl ColumnTable {
    /// The table of a position's columns.
    #[inline]
    pub fn new(position: &Position) -> ColumnTable
        ensures table { IsTableOf position.now.columns result }
        ensures whole { IsPosition position.now }
    {
        let _cell = position.cell(0);
        let mut rows = blank();
        let marks = fill(&mut rows, position);
        ColumnTable { rows, marks }
    }

    /// Makes it the table of a position's columns, in its place, by that of a start: of the cards that moved since then, one bit for
    /// each, the rows are looked up anew, and of those that had moved before, but haven't now, they are the start's again.
    #[inline(never)]
    pub fn lay_over(&mut self, start: &ColumnTable, before: u64, position: &Position, moved: u64)
        requires start { (s : Board) × IsPosition s × IsTableOf s.columns start.now × IsTableBut before s.columns self.old × HaveMoved s.columns position.now.columns moved }
        ensures table { IsTableOf position.now.columns self.new }
        ensures whole { IsPosition position.now }
    {
        let _cell = position.cell(0);
        restore(&mut self.rows, &start.rows, before & !moved & CARDS);
        let marks = fill_moved(&mut self.rows, position, moved);
        self.marks = Marks {
            all: marks.all | start.marks.all & !moved,
            lasts: marks.lasts,
            held: marks.held | start.marks.held & !moved,
        };
    }

    /// The cards that stand above a lower card of their own suit, one bit for each.
    #[inline]
    pub fn held(&self) -> u64
        ensures value { (b : Board) → IsTableOf b.columns self.now → AreBits result (is_held_back b) }
    {
        self.marks.held
    }

    /// The last cards of the columns that lie on one of these, one bit for each.
    #[inline]
    pub fn covers(&self, cards: u64) -> u64
        ensures value { (b : Board) → IsPosition b → IsTableOf b.columns self.now → (u : ℕ) → (bit_at result u ≡ 1) ↔ LiesOnOne b.columns cards u }
    {
        let mut covers = 0;
        let mut rest = self.marks.lasts & CARDS;
        while rest != 0 {
            let card = least_card(rest);
            rest = remove(rest, card);
            if self.rows[card as usize].beneath & cards != 0 {
                covers |= 1 << card;
            }
        }
        covers
    }

    /// Takes the playable card of a place out of the table of the position's columns.
    #[inline]
    pub fn lift(&mut self, position: &Position, from: Place)
        requires table { IsTableOf position.now.columns self.old }
        ensures table { IsTableOf (board_without position.now from).columns self.new }
        ensures whole { IsPosition position.now }
    {
        match (from, position.playable(from)) {
            (Place::Column(_), Some(card)) => {
                let index = card.index();
                let beneath = self.rows[index as usize].beneath;
                self.marks.all = remove(self.marks.all, index);
                self.marks.lasts = remove(self.marks.lasts, index) | beneath;
                self.marks.held = remove(self.marks.held, index);
            }
            (Place::Column(_), None) => {}
            (Place::Cell(_), _) => {}
            (Place::Home, _) => {}
        }
    }

    /// Puts the playable card of a place back into the table of the position's columns without it.
    #[inline]
    pub fn put(&mut self, position: &Position, to: Place)
        requires table { IsTableOf (board_without position.now to).columns self.old }
        ensures table { IsTableOf position.now.columns self.new }
        ensures whole { IsPosition position.now }
    {
        match (to, position.playable(to)) {
            (Place::Column(i), Some(card)) => {
                self.push(beneath_last(position.column(i)), card.index());
            }
            (Place::Column(_), None) => {}
            (Place::Cell(_), _) => {}
            (Place::Home, _) => {}
        }
    }

    // Puts in the card with this number on the one with that number, or on none.
    #[inline]
    fn push(&mut self, below: Option<u8>, index: u8)
        requires card { index < 52 }
        requires below { IfSome below (λ n. n < 52) }
        requires long { length self.old.rows ≡ 52 }
        ensures table { (b : Board) (i : ℕ) → IsPosition b → last_of (column b i) ≡ Some index → last_of (front_of (column b i)) ≡ below
            → IsTableOf (board_without b (Column i)).columns self.old → IsTableOf b.columns self.new }
    {
        let (waiting, beneath, lasts) = match below {
            Some(below) => (
                self.rows[below as usize].waiting,
                1 << below,
                remove(self.marks.lasts, below),
            ),
            None => (0, 0, self.marks.lasts),
        };
        let bit = 1 << index;
        self.marks.all |= bit;
        self.marks.lasts = lasts | bit;
        self.marks.held |= waiting & bit;
        self.rows[index as usize] = Row {
            waiting: waiting | higher_cards(index),
            beneath,
        };
    }
}

// The number of the card beneath the last one.
#[inline]
fn beneath_last(cards: &[Card]) -> Option<u8>
    ensures value { result ≡ last_of (front_of cards.now) }
    ensures below { IfSome result (λ n. n < 52) }
{
    let (_, front) = cards.split_last()?;
    Some(front.last()?.index())
}
