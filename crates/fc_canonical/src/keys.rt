ghost use Rattle.std.specs.Prelude.{◌≡◌, ◌+◌, ◌≤◌, ◌<◌, length, map, [], ◌∷◌, ◌++◌};
ghost use Rattle.std.specs.List.{flat_map};
ghost use Rattle.std.specs.List.Sorted.{IsPermutation};
ghost use Rattle.fc_position.specs.Board.{column};
ghost use Rattle.fc_position.specs.Position.{IsPosition};
ghost use Rattle.fc_canonical.specs.Key.{column_bytes, IsKeyOf};

use crate::orders::{cell_bytes, column_numbers};
use arrayvec::ArrayVec;
use fc_cards::{Card, Suit};
use fc_position::Position;

/// The bytes that spell a class's canonical position: the counts of clubs, diamonds, hearts and spades; the cells, the
/// cards rising and then 255 for each empty one; and the columns, each as the number of its cards and the cards, the
/// deepest first, those that hold cards by rising deepest card and then the empty ones.
pub type Key = ArrayVec<u8, 68>;

/// The key of the position's class.
pub fn key(position: &Position) -> Key
    ensures value { IsKeyOf position.now result.items }
    ensures whole { IsPosition position.now }
{
    let mut key = ArrayVec::new();
    let _ = key.try_extend_from_slice(&counts(position));
    let _ = key.try_extend_from_slice(&cell_bytes(position));
    write_columns(position, &column_numbers(position), &mut key);
    key
}

// The four counts.
fn counts(position: &Position) -> [u8; 4]
    ensures value { result ≡ position.now.homes }
    ensures whole { IsPosition position.now }
{
    [
        position.home(Suit::C),
        position.home(Suit::D),
        position.home(Suit::H),
        position.home(Suit::S),
    ]
}

// Writes the columns with these numbers behind the first eight bytes.
fn write_columns(position: &Position, numbers: &[u8; 8], key: &mut Key)
    requires whole { IsPosition position.now }
    requires columns { IsPermutation (0 ∷ 1 ∷ 2 ∷ 3 ∷ 4 ∷ 5 ∷ 6 ∷ 7 ∷ []) numbers.now }
    requires front { length key.old.items ≤ 8 }
    ensures after { key.new.items ≡ key.old.items ++ flat_map column_bytes (map (column position.now) numbers.now) }
{
    for number in numbers {
        write_column(position.column(*number), key);
    }
}

// Writes a column behind what is written.
fn write_column(cards: &[Card], key: &mut Key)
    requires room { length key.old.items + length cards.now < 68 }
    ensures after { key.new.items ≡ key.old.items ++ column_bytes cards.now }
{
    key.push(cards.len() as u8);
    for card in cards {
        key.push(card.index());
    }
}
