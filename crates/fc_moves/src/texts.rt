ghost use Rattle.std.specs.Prelude.{◌≡◌, IfSome, IfNone};
ghost use Rattle.fc_cards.specs.declared.places.Place.{Place};
ghost use Rattle.fc_moves.specs.declared.steps.Move.{Move};
ghost use Rattle.fc_moves.specs.MoveText.{move_text, place_letter, HasText, IsThere, IsSource};

use crate::steps::Move;
use fc_cards::Place;

/// The move in two characters, source and destination: columns are `1` to `8`, cells `a` to `d`, and home is `h`.
/// The source is a column or a cell, and the numbers are in range.
pub fn move_text(m: Move) -> [u8; 2]
    requires has_text { HasText m }
    ensures value { result ≡ move_text m }
{
    [place_letter(m.from), place_letter(m.to)]
}

/// The move that a text spells in the same two characters, small letters alone; `None` at any other text. Whether it
/// is allowed is another question: `11` and `ab` are read, and no game allows them.
pub fn read_move(text: &[u8]) -> Option<Move>
    ensures read { IfSome result (λ m. HasText m × (text.now ≡ move_text m)) }
    ensures refused { IfNone result ((m : Move) → HasText m → text.now ≡ move_text m → ⊥) }
{
    match text {
        [from, to] => Some(Move {
            from: read_place(*from).filter(|place| *place != Place::Home)?,
            to: read_place(*to)?,
        }),
        _ => None,
    }
}

// The letter of a place.
fn place_letter(place: Place) -> u8
    requires there { IsThere place }
    ensures value { result ≡ place_letter place }
{
    match place {
        Place::Column(i) => b'1' + i,
        Place::Cell(i) => b'a' + i,
        Place::Home => b'h',
    }
}

// The place with this letter.
fn read_place(letter: u8) -> Option<Place>
    ensures read { IfSome result (λ place. IsThere place × (place_letter place ≡ letter)) }
    ensures refused { IfNone result ((place : Place) → IsThere place → place_letter place ≡ letter → ⊥) }
{
    match letter {
        b'1'..=b'8' => Some(Place::Column(letter - b'1')),
        b'a'..=b'd' => Some(Place::Cell(letter - b'a')),
        b'h' => Some(Place::Home),
        _ => None,
    }
}
