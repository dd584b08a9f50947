//! Moves told in words, as players say them.

ghost use Rattle.std.specs.Prelude.{◌≡◌, ◌≤◌, ◌+◌, ◌++◌, length};
ghost use Rattle.fc_moves.specs.MoveText.{HasText};
ghost use Rattle.fc_replay.specs.Telling.{card_phrase, move_phrase, onto_phrase, source_phrase, target_phrase, told_move, phrase_line};

use arrayvec::ArrayVec;
use fc_cards::{Card, Place};
use fc_moves::{Move, move_text};
use fc_position::Position;
use fc_show::card_shown;
use itoa::Buffer;

/// A move as it is told from the board before it.
#[derive(Clone, Copy, Debug, PartialEq, Eq)]
pub struct ToldMove {
    /// Its number in the list, which counts from 1.
    pub number: u32,
    /// The move.
    pub m: Move,
    /// The card that it moves.
    pub card: Option<Card>,
    /// The card at the end of the column to which it goes.
    pub beneath: Option<Card>,
}

impl ToldMove {
    /// The move of a number, as it is told from the board before it.
    pub fn of(number: u32, position: &Position, m: Move) -> ToldMove
        ensures value { result ≡ told_move number position.now m }
    {
        ToldMove {
            number,
            m,
            card: position.playable(m.from),
            beneath: position.playable(m.to),
        }
    }

    /// The move in words: its card, where that comes from, and where it goes, as in `KC from column 3 to cell c`. Red suits are
    /// in red, as terminals show it, or not.
    pub fn phrase(&self, is_coloured: bool) -> ArrayVec<u8, 128>
        requires has_text { HasText self.now.m }
        ensures text { result.items ≡ move_phrase is_coloured self.now }
        ensures within { length result.items ≤ 56 }
    {
        let mut line = ArrayVec::new();
        push_card(&mut line, self.card, is_coloured);
        push_source(&mut line, self.m);
        push_target(&mut line, self, is_coloured);
        line
    }
}

// A line of words, with room for the longest.
pub(crate) type PhraseLine = ArrayVec<u8, 128>;

/// The line of a move in words, behind its number.
pub(crate) fn phrase_line(told: &ToldMove, is_coloured: bool) -> PhraseLine
    requires has_text { HasText told.now.m }
    ensures text { result.items ≡ phrase_line is_coloured told.now }
{
    let mut buffer = Buffer::new();
    let mut line = ArrayVec::new();
    push(&mut line, buffer.format(told.number).as_bytes());
    push(&mut line, b". ");
    push(&mut line, &told.phrase(is_coloured));
    push(&mut line, b"\n");
    line
}

// Appends a text.
fn push(line: &mut PhraseLine, piece: &[u8])
    requires room { length line.old.items + length piece.now ≤ 128 }
    ensures text { line.new.items ≡ line.old.items ++ piece.now }
{
    let _fits = line.try_extend_from_slice(piece);
}

// Appends a card, if there is one.
fn push_card(line: &mut PhraseLine, card: Option<Card>, is_coloured: bool)
    requires room { length line.old.items + 11 ≤ 128 }
    ensures text { line.new.items ≡ line.old.items ++ card_phrase is_coloured card }
    ensures within { length line.new.items ≤ length line.old.items + 11 }
{
    if let Some(card) = card {
        push(line, &card_shown(card, is_coloured));
    }
}

// Appends where the card of a move comes from.
fn push_source(line: &mut PhraseLine, m: Move)
    requires has_text { HasText m }
    requires room { length line.old.items + 14 ≤ 128 }
    ensures text { line.new.items ≡ line.old.items ++ source_phrase m.from }
    ensures within { length line.new.items ≤ length line.old.items + 14 }
{
    let [letter, _] = move_text(m);
    match m.from {
        Place::Column(_) => push(line, b" from column "),
        Place::Cell(_) => push(line, b" from cell "),
        Place::Home => return,
    }
    push(line, &[letter]);
}

// Appends where the card of a move goes.
fn push_target(line: &mut PhraseLine, told: &ToldMove, is_coloured: bool)
    requires has_text { HasText told.now.m }
    requires room { length line.old.items + 31 ≤ 128 }
    ensures text { line.new.items ≡ line.old.items ++ target_phrase is_coloured told.now.m.to told.now.beneath }
    ensures within { length line.new.items ≤ length line.old.items + 31 }
{
    let [_, letter] = move_text(told.m);
    match told.m.to {
        Place::Column(_) => push_onto(line, told.beneath, is_coloured),
        Place::Cell(_) => push(line, b" to cell "),
        Place::Home => return push(line, b" home"),
    }
    push(line, &[letter]);
}

// Appends that a card goes to a column, on the card at its end, if there is one; the column's number is to follow.
fn push_onto(line: &mut PhraseLine, beneath: Option<Card>, is_coloured: bool)
    requires room { length line.old.items + 30 ≤ 128 }
    ensures text { line.new.items ≡ line.old.items ++ onto_phrase is_coloured beneath }
    ensures within { length line.new.items ≤ length line.old.items + 30 }
{
    if beneath.is_none() {
        return push(line, b" to the empty column ");
    }
    push(line, b" to the ");
    push_card(line, beneath, is_coloured);
    push(line, b" on column ");
}
