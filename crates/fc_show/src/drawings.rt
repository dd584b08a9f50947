ghost use Rattle.std.specs.Prelude.{◌≡◌, ◌+◌, ◌≤◌, ◌++◌, length};
ghost use Rattle.fc_cards.specs.Texts.{with_line_end};
ghost use Rattle.fc_cards.specs.Suit.{suit_index};
ghost use Rattle.fc_position.specs.Board.{home};
ghost use Rattle.fc_position.specs.Position.{Fits};
ghost use Rattle.fc_show.specs.Drawing.{cells_row, drawing, foundations_row, height, row, top, top_card, top_names, top_row};

use crate::entries::{push, push_held, push_names, push_place};
use crate::styles::Style;
use arrayvec::ArrayVec;
use fc_cards::{Card, Suit};
use fc_position::Position;

/// The most bytes that a drawing has room for.
pub const MOST_BYTES: usize = 8192;

/// A board that is drawn.
pub type Drawing = ArrayVec<u8, MOST_BYTES>;

/// The drawing of a position that fits a game with so many cells, at most four: the game's cells by their names and the
/// top cards of the foundations, an empty line, and the columns by their numbers, each going downward from its deepest card.
pub fn draw(position: &Position, cells: u8, style: &Style) -> Drawing
    requires game { cells ≤ 4 }
    requires fits { Fits cells position.now }
    ensures value { result.items ≡ drawing style.now cells position.now }
{
    let mut text = ArrayVec::new();
    push_top(&mut text, position, cells, style);
    for i in 0..height(position) {
        push_row(&mut text, position, i, style);
    }
    text
}

// How many cards the longest column has.
fn height(position: &Position) -> usize
    ensures value { result ≡ height position.now.columns }
    ensures most { result ≤ 52 }
{
    let mut most = 0;
    for i in 0..8 {
        most = most.max(position.column(i).len());
    }
    most
}

// Appends what stands above the columns, and their names.
fn push_top(text: &mut Drawing, position: &Position, cells: u8, style: &Style)
    requires game { cells ≤ 4 }
    requires room { length text.old.items + 154 ≤ 8192 }
    ensures text { text.new.items ≡ text.old.items ++ top style.now cells position.now }
    ensures within { length text.new.items ≤ length text.old.items + 154 }
{
    push_top_names(text, cells);
    push_top_row(text, position, cells, style);
    push(text, b"\n");
    push_names(text, b"12345678");
    push(text, b"\n");
}

// Appends the names of the game's cells and the suits of the foundations.
fn push_top_names(text: &mut Drawing, cells: u8)
    requires game { cells ≤ 4 }
    requires room { length text.old.items + 28 ≤ 8192 }
    ensures text { text.new.items ≡ text.old.items ++ with_line_end (top_names cells) }
    ensures within { length text.new.items ≤ length text.old.items + 28 }
{
    push_names(text, &b"abcd"[..cells as usize]);
    push(text, b"   ");
    push_names(text, b"CDHS");
    push(text, b"\n");
}

// Appends what the game's cells hold and the top cards of the foundations.
fn push_top_row(text: &mut Drawing, position: &Position, cells: u8, style: &Style)
    requires game { cells ≤ 4 }
    requires room { length text.old.items + 100 ≤ 8192 }
    ensures text { text.new.items ≡ text.old.items ++ with_line_end (top_row style.now cells position.now) }
    ensures within { length text.new.items ≤ length text.old.items + 100 }
{
    push_cells(text, position, cells, style);
    push(text, b"   ");
    push_foundations(text, position, style);
    push(text, b"\n");
}

// Appends what the game's cells hold.
fn push_cells(text: &mut Drawing, position: &Position, cells: u8, style: &Style)
    requires game { cells ≤ 4 }
    requires room { length text.old.items + 48 ≤ 8192 }
    ensures text { text.new.items ≡ text.old.items ++ cells_row style.now cells position.now }
    ensures within { length text.new.items ≤ length text.old.items + 48 }
{
    for i in 0..cells {
        push_held(text, style, position.cell(i));
    }
}

// Appends the top cards of the foundations.
fn push_foundations(text: &mut Drawing, position: &Position, style: &Style)
    requires room { length text.old.items + 48 ≤ 8192 }
    ensures text { text.new.items ≡ text.old.items ++ foundations_row style.now position.now }
    ensures within { length text.new.items ≤ length text.old.items + 48 }
{
    push_held(text, style, top_card(position, Suit::C));
    push_held(text, style, top_card(position, Suit::D));
    push_held(text, style, top_card(position, Suit::H));
    push_held(text, style, top_card(position, Suit::S));
}

// The top card of a foundation.
fn top_card(position: &Position, suit: Suit) -> Option<Card>
    ensures value { result ≡ top_card (suit_index suit) (home position.now (suit_index suit)) }
{
    Card::new(position.home(suit), suit)
}

// Appends one card of each column.
fn push_row(text: &mut Drawing, position: &Position, i: usize, style: &Style)
    requires room { length text.old.items + 97 ≤ 8192 }
    ensures text { text.new.items ≡ text.old.items ++ with_line_end (row style.now position.now.columns i) }
    ensures within { length text.new.items ≤ length text.old.items + 97 }
{
    for column in 0..8 {
        push_place(text, style, position.column(column), i);
    }
    push(text, b"\n");
}
