//! Entries in words, as Freecell Solver prints them.

ghost use Rattle.std.specs.Prelude.{◌≡◌, ℕ, ◌<◌, ◌≤◌, Option, IfSome, IfNone, map};
ghost use Rattle.fc_cards.specs.declared.places.Place.{Place};
ghost use Rattle.fc_moves.specs.MoveText.{IsSource, IsThere};
ghost use Rattle.fc_sequences.specs.Saying.{SaysPair, SaysNoPair, card_word, digits, kind_word, name_word, number_word};

use crate::pairs::Pair;
use fc_cards::Place;

/// The entry that the words of a line tell as Freecell Solver prints it, where stacks and freecells are counted from 0:
/// `Move 2 cards from stack 1 to stack 4`, `Move a card from freecell 0 to the foundations`. `None` at any other words.
pub fn read_saying(words: &[&[u8]]) -> Option<Pair>
    ensures read { IfSome result (SaysPair (map (λ w. w.now) words.now)) }
    ensures refused { IfNone result (SaysNoPair (map (λ w. w.now) words.now)) }
{
    let [
        start,
        number,
        cards,
        from,
        kind,
        name,
        to,
        last_kind,
        last_name,
    ] = words
    else {
        return None;
    };
    if *start != b"Move".as_slice() || *from != b"from".as_slice() || *to != b"to".as_slice() {
        return None;
    }
    let count = read_cards(number, cards)?;
    let source = read_source(kind, name)?;
    let target = read_place(last_kind, last_name)?;
    Some(Pair {
        from: source,
        to: target,
        count,
    })
}

// How many cards two words tell: `a card`, or such as `2 cards`, from 1 to 15.
fn read_cards(number: &[u8], cards: &[u8]) -> Option<Option<u8>>
    ensures read { IfSome result (λ count. IfSome count (λ n. (1 ≤ n) × (n < 16))
        × (number.now ≡ number_word count) × (cards.now ≡ card_word count)) }
    ensures refused { IfNone result ((count : Option ℕ) → IfSome count (λ n. (1 ≤ n) × (n < 16))
        → number.now ≡ number_word count → cards.now ≡ card_word count → ⊥) }
{
    if cards == b"card".as_slice() {
        return (number == b"a".as_slice()).then_some(None);
    }
    if cards != b"cards".as_slice() {
        return None;
    }
    match read_number(number)? {
        0 => None,
        count => Some(Some(count)),
    }
}

// The column or the cell that two words tell.
fn read_source(kind: &[u8], name: &[u8]) -> Option<Place>
    ensures read { IfSome result (λ place. IsSource place × (kind.now ≡ kind_word place) × (name.now ≡ name_word place)) }
    ensures refused { IfNone result ((place : Place) → IsSource place → kind.now ≡ kind_word place → name.now ≡ name_word place → ⊥) }
{
    match read_place(kind, name)? {
        Place::Home => None,
        place => Some(place),
    }
}

// The place that two words tell: such as `stack 1`, `freecell 0`, or `the foundations`.
fn read_place(kind: &[u8], name: &[u8]) -> Option<Place>
    ensures read { IfSome result (λ place. IsThere place × (kind.now ≡ kind_word place) × (name.now ≡ name_word place)) }
    ensures refused { IfNone result ((place : Place) → IsThere place → kind.now ≡ kind_word place → name.now ≡ name_word place → ⊥) }
{
    if kind == b"the".as_slice() {
        return (name == b"foundations".as_slice()).then_some(Place::Home);
    }
    if kind == b"stack".as_slice() {
        let number = read_number(name)?;
        return (number < 8).then_some(Place::Column(number));
    }
    if kind == b"freecell".as_slice() {
        let number = read_number(name)?;
        return (number < 4).then_some(Place::Cell(number));
    }
    None
}

// The number below 16 of a word in decimal.
fn read_number(word: &[u8]) -> Option<u8>
    ensures read { IfSome result (λ n. (n < 16) × (word.now ≡ digits n)) }
    ensures refused { IfNone result ((n : ℕ) → n < 16 → word.now ≡ digits n → ⊥) }
{
    match word {
        [digit @ b'0'..=b'9'] => Some(*digit - b'0'),
        [b'1', digit @ b'0'..=b'5'] => Some(10 + (*digit - b'0')),
        _ => None,
    }
}
