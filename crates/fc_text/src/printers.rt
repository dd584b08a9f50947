ghost use Rattle.std.specs.Prelude.{◌≡◌, ℕ, ◌+◌, ◌*◌, ◌≤◌, ◌<◌, [], ◌∷◌, ◌++◌, length};
ghost use Rattle.arrayvec.specs.ArrayString.{array_string_len};
ghost use Rattle.fc_cards.specs.Suit.{suit_index};
ghost use Rattle.fc_cards.specs.Texts.{card_text, with_line_end};
ghost use Rattle.fc_position.specs.Board.{home};
ghost use Rattle.fc_position.specs.Position.{Fits};
ghost use Rattle.fc_text.specs.Board.{Spells};
ghost use Rattle.fc_text.specs.Printed.{count_letter, home_text, cell_text, foundations_text, cells_text, column_text, board_text};

use arrayvec::ArrayString;
use fc_cards::{Card, Suit, rank_letter};
use fc_position::Position;

/// The text of a position in a game with so many cells, at most four, which the position fits: ten lines, each ended by
/// LF. The first tells how many cards are home (`Foundations: H-0 C-2 D-A S-T`), the second what the game's cells hold
/// (`Freecells: - KH`), the others the columns, the deepest card first (`: 7C KH`). `read_board` gives the position back.
pub fn print_board(position: &Position, cells: u8) -> ArrayString<400>
    requires game { cells ≤ 4 }
    requires fits { Fits cells position.now }
    ensures text { result.bytes ≡ board_text cells position.now }
    ensures spelled { Spells cells result.bytes position.now }
{
    let mut text = ArrayString::new();
    push_foundations(&mut text, position);
    push_cells(&mut text, position, cells);
    for i in 0..8 {
        push_column(&mut text, position.column(i));
    }
    text
}

// Appends the line of the foundations.
fn push_foundations(text: &mut ArrayString<400>, position: &Position)
    requires room { array_string_len text.old + 29 ≤ 400 }
    ensures text { text.new.bytes ≡ text.old.bytes ++ with_line_end (foundations_text position.now) }
{
    text.push_str("Foundations:");
    push_home(text, position, Suit::H);
    push_home(text, position, Suit::C);
    push_home(text, position, Suit::D);
    push_home(text, position, Suit::S);
    push_byte(text, b'\n');
}

// Appends the line of the cells of a game with so many of them.
fn push_cells(text: &mut ArrayString<400>, position: &Position, cells: u8)
    requires game { cells ≤ 4 }
    requires room { array_string_len text.old + 23 ≤ 400 }
    ensures text { text.new.bytes ≡ text.old.bytes ++ with_line_end (cells_text cells position.now) }
{
    text.push_str("Freecells:");
    for i in 0..cells {
        push_cell(text, position.cell(i));
    }
    push_byte(text, b'\n');
}

// Appends the line of a column.
fn push_column(text: &mut ArrayString<400>, cards: &[Card])
    requires room { array_string_len text.old + 3 * length cards.now + 2 ≤ 400 }
    ensures text { text.new.bytes ≡ text.old.bytes ++ with_line_end (column_text cards.now) }
{
    push_byte(text, b':');
    for card in cards {
        push_card(text, *card);
    }
    push_byte(text, b'\n');
}

// Appends a blank, and how many cards of a suit are home.
fn push_home(text: &mut ArrayString<400>, position: &Position, suit: Suit)
    requires room { array_string_len text.old + 4 ≤ 400 }
    ensures text { text.new.bytes ≡ text.old.bytes ++ 32 ∷ home_text (suit_index suit) (home position.now (suit_index suit)) }
{
    push_byte(text, b' ');
    push_byte(text, suit.letter());
    push_byte(text, b'-');
    push_byte(text, count_letter(position.home(suit)));
}

// The letter of a count of cards that are home.
fn count_letter(count: u8) -> u8
    requires count { count ≤ 13 }
    ensures value { result ≡ count_letter count }
    ensures ascii { result < 128 }
{
    if count == 0 {
        return b'0';
    }
    rank_letter(count)
}

// Appends a blank, and what a cell holds.
fn push_cell(text: &mut ArrayString<400>, held: Option<Card>)
    requires room { array_string_len text.old + 3 ≤ 400 }
    ensures text { text.new.bytes ≡ text.old.bytes ++ 32 ∷ cell_text held }
{
    match held {
        Some(card) => push_card(text, card),
        None => text.push_str(" -"),
    }
}

// Appends a blank and a card.
fn push_card(text: &mut ArrayString<400>, card: Card)
    requires room { array_string_len text.old + 3 ≤ 400 }
    ensures text { text.new.bytes ≡ text.old.bytes ++ 32 ∷ card_text card }
{
    push_byte(text, b' ');
    push_byte(text, rank_letter(card.rank()));
    push_byte(text, card.suit().letter());
}

// Appends a byte of ASCII.
fn push_byte(text: &mut ArrayString<400>, byte: u8)
    requires ascii { byte < 128 }
    requires room { array_string_len text.old + 1 ≤ 400 }
    ensures text { text.new.bytes ≡ text.old.bytes ++ byte ∷ [] }
{
    text.push(byte as char);
}
