ghost use Rattle.std.specs.Prelude.{◌≡◌, ◌↔◌, IsTrue, replicate};
ghost use Rattle.fc_position.specs.Board.{board_of, playable, board_without, board_with, places};
ghost use Rattle.fc_position.specs.inner.Board.{HasRoom};
ghost use Rattle.fc_position.specs.Position.{IsShaped};
ghost use Rattle.fc_position.specs.Tally.{Adds};
ghost use Rattle.fc_position.specs.inner.Tally.{IsOfCards};

use crate::columns::Columns;
use crate::tallies::Tally;
use arrayvec::ArrayVec;
use fc_cards::{Card, Place};
use std::marker::Model;

/// Columns, cells and counts, whether or not each card has one place. A position passes through such boards while a
/// card is between two places.
#[derive(Drop)]
pub(crate) struct Layout {
    pub columns: Columns,
    pub cells: [Option<Card>; 4],
    pub homes: [u8; 4],
}

impl Model for Layout {
    ghost use Rattle.std.specs.Prelude.{◌≡◌, length};
    ghost use Rattle.fc_position.specs.Board.{Board};

    ghost Value = { Board };

    ghost view = { λ p. record { columns = p.columns; cells = p.cells; homes = p.homes } };

    ghost invariant = { λ p. (length p.columns ≡ 8) × (length p.cells ≡ 4) × (length p.homes ≡ 4) };
}

impl Layout {
    // The playable card of a place.
    pub fn playable(&self, place: Place) -> Option<Card>
        ensures { result ≡ playable self.now place }
    {
        match place {
            Place::Column(i) => self.columns.last(i),
            Place::Cell(i) => *self.cells.get(i as usize)?,
            Place::Home => None,
        }
    }

    // Takes the playable card of a place away.
    pub fn lift(&mut self, place: Place) -> Option<Card>
        ensures value { result ≡ playable self.old place }
        ensures after { self.new ≡ board_without self.old place }
    {
        match place {
            Place::Column(i) if i < 8 => self.columns.pop(i),
            Place::Cell(i) if i < 4 => self.cells[i as usize].take(),
            _ => None,
        }
    }

    // Puts a card at a place.
    pub fn put(&mut self, card: Card, place: Place)
        requires { HasRoom self.old place }
        ensures { self.new ≡ board_with self.old card place }
    {
        match place {
            Place::Column(i) => self.columns.push(i, card),
            Place::Cell(i) => self.cells[i as usize] = Some(card),
            Place::Home => self.homes[card.suit().index() as usize] = card.rank(),
        }
    }

    // Whether the two are the same board.
    pub fn equals(&self, other: &Layout) -> bool
        ensures { IsTrue result ↔ self.now ≡ other.now }
    {
        same_cells(&self.cells, &other.cells)
            && self.homes == other.homes
            && self.columns.equals(&other.columns)
    }

    // The same board.
    pub fn copy(&self) -> Layout
        ensures { result ≡ self.now }
    {
        Layout {
            columns: self.columns.copy(),
            cells: cells_of(&self.cells),
            homes: self.homes,
        }
    }
}

// How often each card stands in these columns, in these cells, and at home.
pub(crate) fn tally_of(
    columns: &[ArrayVec<Card, 52>; 8],
    cells: &[Option<Card>; 4],
    homes: &[u8; 4],
) -> Tally
    ensures times { Adds (places (board_of columns.now cells.now homes.now)) (replicate 52 0) result }
    ensures cards { IsOfCards (board_of columns.now cells.now homes.now) }
    ensures shape { IsShaped (board_of columns.now cells.now homes.now) }
{
    let mut tally = Tally::new();
    tally.add_columns(columns);
    tally.add_cells(cells);
    tally.add_homes(homes);
    tally
}

// Whether the cells hold the same cards.
fn same_cells(cells: &[Option<Card>], others: &[Option<Card>]) -> bool
    ensures { IsTrue result ↔ cells.now ≡ others.now }
{
    cells == others
}

// The same cells.
fn cells_of(cells: &[Option<Card>; 4]) -> [Option<Card>; 4]
    ensures { result ≡ cells.now }
{
    let [a, b, c, d] = cells;
    [*a, *b, *c, *d]
}
