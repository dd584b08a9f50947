ghost use Rattle.std.specs.Prelude.{◌≡◌, ℕ, ◌≤◌, ◌<◌, ◌↔◌, IsTrue, Some, map, swap, All, IfOk, IfErr};
ghost use Rattle.fc_cards.specs.Suit.{suit_index};
ghost use Rattle.fc_position.specs.Board.{board_of, column, cell, home, playable, places, IsNext, Receives, IsShift};
ghost use Rattle.fc_position.specs.Position.{IsPosition, IsWon, Fits};
ghost use Rattle.fc_position.specs.Tally.{IsFaultOf};

use crate::columns::{Columns, Filling};
use crate::faults::PartsFault;
use crate::layouts::{Layout, tally_of};
use arrayvec::ArrayVec;
use fc_cards::{Card, Place, Suit};
use std::marker::Model;

/// A position: eight columns, four freecells and four foundations, with each of the 52 cards in exactly one place.
/// Columns are numbered from 0 to 7, cells from 0 to 3.
#[derive(Drop)]
pub struct Position {
    layout: Layout,
}

impl Model for Position {
    ghost use Rattle.fc_position.specs.Board.{Board};
    ghost use Rattle.fc_position.specs.Position.{IsPosition};

    ghost Value = { Board };

    ghost view = { λ p. p.layout };

    ghost invariant = { λ p. IsPosition p.layout };
}

impl Position {
    /// The position with these columns, the deepest card first, these cells, and so many cards home of each suit, in
    /// the order clubs, diamonds, hearts, spades. Each count is at most 13.
    ///
    /// # Errors
    /// The least card that has two places or more; where there is none, the least card that has no place.
    pub fn from_parts(
        columns: [ArrayVec<Card, 52>; 8],
        cells: [Option<Card>; 4],
        homes: [u8; 4],
    ) -> Result<Position, PartsFault>
        requires counts { All (λ n. n ≤ 13) homes }
        ensures position { IfOk result (λ p. p ≡ board_of columns cells homes) }
        ensures whole { IfOk result IsPosition }
        ensures fault { IfErr result (IsFaultOf (places (board_of columns cells homes))) }
    {
        match tally_of(&columns, &cells, &homes).fault() {
            Some(fault) => Err(fault),
            None => Ok(Position::of_parts(columns, cells, homes)),
        }
    }

    /// The position with these columns, the deepest card first, these cells, and so many cards home of each suit, where
    /// it is known that each card has one place: nothing is tested.
    #[inline]
    pub fn of_parts(
        columns: [ArrayVec<Card, 52>; 8],
        cells: [Option<Card>; 4],
        homes: [u8; 4],
    ) -> Position
        requires whole { IsPosition (board_of columns cells homes) }
        ensures value { result ≡ board_of columns cells homes }
    {
        Position {
            layout: Layout {
                columns: Columns::of(&columns),
                cells,
                homes,
            },
        }
    }

    /// Makes it the position whose columns are filled by this, with these cells, and so many cards home of each suit, where it
    /// is known that each card has one place: nothing is tested, and no column is moved.
    #[inline(always)]
    pub fn refill<F: Filling>(&mut self, filling: &F, cells: [Option<Card>; 4], homes: [u8; 4])
        requires ready { F.is_ready filling.now }
        requires whole { IsPosition (record { columns = F.fills filling.now; cells = cells; homes = homes }) }
        ensures value { self.new ≡ record { columns = F.fills filling.now; cells = cells; homes = homes } }
        ensures whole { IsPosition self.new }
    {
        let layout = &mut self.layout;
        filling.fill(&mut layout.columns);
        layout.cells = cells;
        layout.homes = homes;
    }

    // All columns.
    #[inline]
    pub(crate) fn columns(&self) -> &Columns
        ensures value { result.now ≡ self.now.columns }
    {
        let layout = &self.layout;
        &layout.columns
    }

    /// The cards of a column, the deepest first.
    #[inline]
    pub fn column(&self, i: u8) -> &[Card]
        requires there { i < 8 }
        ensures value { result.now ≡ column self.now i }
        ensures whole { IsPosition self.now }
    {
        let layout = &self.layout;
        layout.columns.column(i)
    }

    /// The card in a cell, if there is one.
    #[inline]
    pub fn cell(&self, i: u8) -> Option<Card>
        requires there { i < 4 }
        ensures value { result ≡ cell self.now i }
        ensures whole { IsPosition self.now }
    {
        let layout = &self.layout;
        layout.cells[i as usize]
    }

    /// How many cards of a suit are home, 0 to 13.
    #[inline]
    pub fn home(&self, suit: Suit) -> u8
        ensures value { result ≡ home self.now (suit_index suit) }
        ensures most { result ≤ 13 }
        ensures whole { IsPosition self.now }
    {
        let layout = &self.layout;
        layout.homes[suit.index() as usize]
    }

    /// Whether the card is the next one of its suit: its suit is home up to the rank below its own.
    #[inline]
    pub fn is_next(&self, card: Card) -> bool
        ensures value { IsTrue result ↔ IsNext self.now.homes card }
        ensures whole { IsPosition self.now }
    {
        self.home(card.suit()) + 1 == card.rank()
    }

    /// Whether every card is home.
    #[inline]
    pub fn is_won(&self) -> bool
        ensures value { IsTrue result ↔ IsWon self.now }
        ensures whole { IsPosition self.now }
    {
        let layout = &self.layout;
        layout.homes == [13; 4]
    }

    /// The card that may be taken from a place: the last of the column, or the card in the cell. `None` where there is
    /// none, for a number out of range and for home.
    #[inline]
    pub fn playable(&self, place: Place) -> Option<Card>
        ensures value { result ≡ playable self.now place }
        ensures whole { IsPosition self.now }
    {
        self.layout.playable(place)
    }

    /// Whether the cells from number `cells` on are empty, so that the position fits a game with so many cells.
    pub fn fits(&self, cells: u8) -> bool
        ensures value { IsTrue result ↔ Fits cells self.now }
        ensures whole { IsPosition self.now }
    {
        let layout = &self.layout;
        layout
            .cells
            .iter()
            .skip(cells as usize)
            .all(|cell| cell.is_none())
    }

    /// Whether the two are the same: the same cards in each column, in each cell and at home.
    pub fn equals(&self, other: &Position) -> bool
        ensures value { IsTrue result ↔ self.now ≡ other.now }
    {
        self.layout.equals(&other.layout)
    }

    /// The same position. It takes no memory.
    pub fn copy(&self) -> Position
        ensures value { result ≡ self.now }
        ensures whole { IsPosition self.now }
    {
        Position {
            layout: self.layout.copy(),
        }
    }

    /// Takes the playable card of `from` to `to`. `from` has one, and `to` can take it: a column or an empty cell, or
    /// home where the card is next in its suit.
    pub fn shift(&mut self, from: Place, to: Place)
        requires moves { (u : ℕ) × (playable self.old from ≡ Some u) × Receives self.old u to }
        ensures after { IsShift self.old from to self.new }
        ensures whole { IsPosition self.new }
    {
        if let Some(card) = self.layout.lift(from) {
            self.layout.put(card, to);
        }
    }

    /// Exchanges two columns.
    pub fn swap_columns(&mut self, i: u8, j: u8)
        requires first { i < 8 }
        requires second { j < 8 }
        ensures after { self.new ≡ record self.old { columns = swap self.old.columns i j } }
        ensures whole { IsPosition self.new }
    {
        let layout = &mut self.layout;
        layout.columns.swap(i, j);
    }

    /// Exchanges the cards of two cells.
    pub fn swap_cells(&mut self, i: u8, j: u8)
        requires first { i < 4 }
        requires second { j < 4 }
        ensures after { self.new ≡ record self.old { cells = swap self.old.cells i j } }
        ensures whole { IsPosition self.new }
    {
        let layout = &mut self.layout;
        layout.cells.swap(i as usize, j as usize);
    }
}
