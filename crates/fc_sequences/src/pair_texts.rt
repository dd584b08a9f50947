//! The texts of entries.

ghost use Rattle.std.specs.Prelude.{◌≡◌, ◌<◌, ◌≤◌};
ghost use Rattle.fc_sequences.specs.Pair.{HasPairText, SpellsPair, hexadecimal, pair_text};

use crate::pairs::Pair;
use arrayvec::ArrayVec;
use fc_moves::{Move, move_text};

/// The text of an entry, which `read_pair` reads: a move's two letters, and, where it is told, `v` and how many cards, from 1
/// to 15, in hexadecimal in small letters.
pub fn print_pair(pair: Pair) -> ArrayVec<u8, 4>
    requires has_text { HasPairText pair }
    ensures value { result.items ≡ pair_text pair }
    ensures read { SpellsPair result.items pair }
{
    let Pair { from, to, count } = pair;
    let [source, target] = move_text(Move { from, to });
    let mut text = ArrayVec::new();
    text.push(source);
    text.push(target);
    if let Some(count) = count {
        text.push(b'v');
        text.push(print_digit(count));
    }
    text
}

// A number from 1 to 15 in hexadecimal.
fn print_digit(number: u8) -> u8
    requires most { number < 16 }
    ensures value { result ≡ hexadecimal number }
{
    if number < 10 {
        b'0' + number
    } else {
        b'a' + (number - 10)
    }
}
