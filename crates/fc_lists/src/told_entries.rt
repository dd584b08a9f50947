//! Entries that a line tells in words, as the program and Freecell Solver print them.

ghost use Rattle.std.specs.Prelude.{◌≡◌, ℕ, ◌==◌, ◌-◌, ◌<◌, ◌++◌, List, [], ◌∷◌, IfSome, IfNone, codes, length, map, slice_index};
ghost use Rattle.fc_replay.specs.Token.{move_tokens};
ghost use Rattle.fc_sequences.specs.Pair.{HasPairText};
ghost use Rattle.fc_lists.specs.Told.{HasCards, IsCardCount, IsLetterOf, SaysEntry, TellsEntry, TellsWay, ends_with_point};
ghost use Rattle.fc_lists.specs.declared.told_entries.ToldEntry.{ToldEntry};
ghost use Rattle.fc_lists.specs.inner.Told.{RefusesCards, RefusesWay, SaysNoEntry};

use arrayvec::ArrayVec;
use fc_replay::MoveGaps;
use fc_sequences::{Pair, read_pair, read_saying};
use fc_text::Tokens;

// An entry that a line tells in words: the letters of its places, and how many cards it moves.
#[derive(Clone, Copy)]
pub(crate) struct ToldEntry {
    pub from: u8,
    pub to: u8,
    pub count: u8,
}

// The entry that a line tells in words, as the program prints it.
pub(crate) fn told_entry(line: &[u8]) -> Option<ToldEntry>
    ensures told { IfSome result (TellsEntry (move_tokens line.now)) }
    ensures few { IfSome result (λ told. told.count < 14) }
    ensures refused { IfNone result ((told : ToldEntry) → TellsEntry (move_tokens line.now) told → ⊥) }
{
    let mut words = Tokens::new(line, MoveGaps);
    let number = words.next()?;
    let count = told_count(&mut words)?;
    let (from, to) = told_way(words.rest)?;
    if !ends_with_point(number) {
        return None;
    }
    Some(ToldEntry { from, to, count })
}

// Whether a word's last byte is a point.
fn ends_with_point(word: &[u8]) -> bool
    ensures value { result ≡ ends_with_point word.now }
{
    matches!(word, [.., b'.'])
}

// How many cards are told, before the word `from`.
fn told_count(words: &mut Tokens<'_, MoveGaps>) -> Option<u8>
    ensures told { IfSome result (λ count. HasCards (move_tokens words.old.rest.now) count (move_tokens words.new.rest.now)) }
    ensures few { IfSome result (λ count. count < 14) }
    ensures refused { IfNone result (RefusesCards (move_tokens words.old.rest.now)) }
{
    let cards = words.next()?;
    let word = words.next()?;
    if word == b"from".as_slice() {
        return Some(1);
    }
    if word != b"cards,".as_slice() {
        return None;
    }
    let count = card_count(cards)?;
    let _deepest = words.next()?;
    let _to = words.next()?;
    let _last = words.next()?;
    let word = words.next()?;
    if word != b"from".as_slice() {
        return None;
    }
    Some(count)
}

// How many cards are carried, from 2 to 13.
fn card_count(number: &[u8]) -> Option<u8>
    ensures told { IfSome result (IsCardCount number.now) }
    ensures refused { IfNone result ((count : ℕ) → IsCardCount number.now count → ⊥) }
{
    match number {
        [digit @ b'2'..=b'9'] => Some(*digit - b'0'),
        [b'1', digit @ b'0'..=b'3'] => Some(10 + (*digit - b'0')),
        _ => None,
    }
}

// The letters of the places that are told behind the word `from`.
fn told_way(text: &[u8]) -> Option<(u8, u8)>
    ensures told { IfSome result (λ way. TellsWay (move_tokens text.now) way.0 way.1) }
    ensures refused { IfNone result (RefusesWay (move_tokens text.now)) }
{
    let mut words = Tokens::new(text, MoveGaps);
    let _kind = words.next()?;
    let name = words.next()?;
    let from = letter_of(name)?;
    let last = last_of(words.rest)?;
    let to = letter_of(last)?;
    Some((from, to))
}

// The last word of a text.
fn last_of(text: &[u8]) -> Option<&[u8]>
    ensures last { IfSome result (λ last. (front : List (List ℕ)) × (move_tokens text.now ≡ front ++ last.now ∷ [])) }
    ensures none { IfNone result (move_tokens text.now ≡ []) }
{
    let mut words = Tokens::new(text, MoveGaps);
    let mut last = words.next()?;
    for word in words {
        last = word;
    }
    Some(last)
}

// The letter of a place by its name.
fn letter_of(name: &[u8]) -> Option<u8>
    ensures letter { IfSome result (IsLetterOf name.now) }
    ensures refused { IfNone result ((letter : ℕ) → IsLetterOf name.now letter → ⊥) }
{
    if name == b"home".as_slice() {
        return Some(b'h');
    }
    match name {
        [letter] => Some(*letter),
        _ => None,
    }
}

// The entry that a line tells as Freecell Solver prints it: in words, or, where it draws boards between entries in standard
// notation, behind `Move:`.
pub(crate) fn said_entry(line: &[u8]) -> Option<Pair>
    ensures text { IfSome result HasPairText }
    ensures said { IfSome result (SaysEntry (move_tokens line.now)) }
    ensures refused { IfNone result (SaysNoEntry (move_tokens line.now)) }
{
    let mut words = ArrayVec::<&[u8], 9>::new();
    for word in Tokens::new(line, MoveGaps) {
        if words.try_push(word).is_err() {
            return None;
        }
    }
    said_by(words.as_slice())
}

// The entry that words tell so.
fn said_by(words: &[&[u8]]) -> Option<Pair>
    ensures text { IfSome result HasPairText }
    ensures said { IfSome result (SaysEntry (map (λ w. w.now) words.now)) }
    ensures refused { IfNone result (SaysNoEntry (map (λ w. w.now) words.now)) }
{
    let [start, entry] = words else {
        return read_saying(words);
    };
    if *start != b"Move:".as_slice() {
        return None;
    }
    read_pair(entry)
}
