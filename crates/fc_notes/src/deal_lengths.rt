//! Boards whose cards all stand in columns, and columns as long as a deal's.

ghost use Rattle.std.specs.Prelude.{◌≡◌, ℕ, ◌<◌, ◌↔◌, IsTrue, None, length, slice_index, count_by};
ghost use Rattle.fc_position.specs.Board.{cell, column, home};
ghost use Rattle.fc_notes.specs.Length.{AllInColumns, AreLengths, IsAsLongAsDeal, IsSixOrSeven, has_seven};

use fc_cards::Suit;
use fc_position::Position;

/// Whether no card is home or in a cell.
pub(crate) fn has_all_in_columns(start: &Position) -> bool
    ensures value { IsTrue result ↔ AllInColumns start.now }
{
    has_no_held(start) && has_no_home(start)
}

// Whether no card is in a cell.
fn has_no_held(start: &Position) -> bool
    ensures value { IsTrue result ↔ ((i : ℕ) → i < 4 → cell start.now i ≡ None) }
{
    for cell in 0..4 {
        if start.cell(cell).is_some() {
            return false;
        }
    }
    true
}

// Whether no card is home.
fn has_no_home(start: &Position) -> bool
    ensures value { IsTrue result ↔ ((s : ℕ) → s < 4 → home start.now s ≡ 0) }
{
    start.home(Suit::C) == 0
        && start.home(Suit::D) == 0
        && start.home(Suit::H) == 0
        && start.home(Suit::S) == 0
}

/// Whether four of the columns have seven cards each, and the others six; their order says nothing.
pub(crate) fn has_lengths_of_deal(start: &Position) -> bool
    ensures value { IsTrue result ↔ IsAsLongAsDeal start.now }
{
    has_sixes_and_sevens(start) && seven_count(start) == 4
}

// Whether each column has six cards or seven.
fn has_sixes_and_sevens(start: &Position) -> bool
    ensures value { IsTrue result ↔ ((i : ℕ) → i < 8 → IsSixOrSeven (length (column start.now i))) }
{
    for column in 0..8 {
        let count = start.column(column).len();
        if count != 6 && count != 7 {
            return false;
        }
    }
    true
}

// How many columns have seven cards.
fn seven_count(start: &Position) -> usize
    ensures value { result ≡ count_by has_seven start.now.columns }
{
    let mut sevens = 0;
    for column in 0..8 {
        if start.column(column).len() == 7 {
            sevens += 1;
        }
    }
    sevens
}

/// How many cards each column has.
pub(crate) fn lengths_of(start: &Position) -> [usize; 8]
    ensures value { AreLengths start.now result }
{
    [
        start.column(0).len(),
        start.column(1).len(),
        start.column(2).len(),
        start.column(3).len(),
        start.column(4).len(),
        start.column(5).len(),
        start.column(6).len(),
        start.column(7).len(),
    ]
}
