ghost use Rattle.std.specs.Prelude.{◌≡◌, ℕ, List, ◌+◌, ◌*◌, ◌<◌, ◌≤◌, ◌∷◌, ◌++◌, length, position, IfNone, IfSome, IsTrue, ◌↔◌, slice_index};
ghost use Rattle.fc_cards.specs.Texts.{with_line_end};
ghost use Rattle.fc_cards.specs.Suit.{suit_index};
ghost use Rattle.fc_position.specs.Board.{Board};
ghost use Rattle.fc_text.specs.Board.{Spells};
ghost use Rattle.fc_text.specs.Printed.{count_letter, home_text};
ghost use Rattle.fc_typed.specs.Guess.{AreCounts, LacksFirst, LacksFirstOfEach, TellsNoCard, first_line, foundation_line, with_foundations};

use crate::labels::line_len;
use crate::missing::stands_nowhere;
use arrayvec::ArrayVec;
use fc_cards::{Card, Suit, rank_letter};
use fc_text::read_board;
use std::marker::Model;

// The most bytes that a board text may have that is read.
const MOST_BOARD_BYTES: usize = 4096;

// The bytes of a board text.
type BoardBytes = ArrayVec<u8, MOST_BOARD_BYTES>;

/// A board text behind a foundation line that makes it a board, seen by contracts as its bytes.
#[derive(Debug, Drop)]
pub struct GuessedText {
    bytes: BoardBytes,
}

impl Model for GuessedText {
    ghost use Rattle.std.specs.Prelude.{ℕ, List};

    ghost Value = { List ℕ };

    ghost view = { λ s. s.bytes.items };
}

impl GuessedText {
    /// The tidy text of a board without its foundations, behind the line that tells them, for a game with so many cells:
    /// of each suit the cards are home, from the ace, that stand in no column and no cell.
    ///
    /// `None` where no line of counts makes the text a board, as where it has a foundation line of its own, and where no column
    /// and no cell has a card: such a text tells of no board.
    pub fn of(text: &[u8], cells: u8) -> Option<GuessedText>
        requires game { cells ≤ 4 }
        ensures line { IfSome result (λ guess. (counts : List ℕ) × LacksFirstOfEach text.now counts
            × (guess ≡ with_foundations counts text.now)) }
        ensures spelled { IfSome result (λ guess. (b : Board) × Spells cells guess b) }
        ensures card { IfSome result (λ _. TellsNoCard text.now → ⊥) }
        ensures none { IfNone result ((TellsNoCard text.now → ⊥) → (counts : List ℕ) (b : Board) → AreCounts counts
            → Spells cells (with_foundations counts text.now) b → ⊥) }
    {
        if tells_no_card(text) {
            return None;
        }
        let counts = lacked_counts(text);
        let mut bytes = foundation_text(counts);
        if bytes.try_extend_from_slice(text).is_err() {
            return None;
        }
        if read_board(bytes.as_slice(), cells).is_err() {
            return None;
        }
        Some(GuessedText { bytes })
    }

    /// Its first line, which tells the foundations, without the LF that ends it.
    pub fn line(&self) -> &[u8]
        ensures value { result.now ≡ first_line self.now }
    {
        let bytes = self.bytes();
        match line_len(bytes) {
            Some(len) => &bytes[..len],
            None => bytes,
        }
    }

    /// Its bytes, at most 4,096.
    pub fn bytes(&self) -> &[u8]
        ensures value { result.now ≡ self.now }
        ensures most { length result.now ≤ 4096 }
    {
        self.bytes.as_slice()
    }
}

// Whether no column and no cell has a card.
fn tells_no_card(text: &[u8]) -> bool
    ensures { IsTrue result ↔ TellsNoCard text.now }
{
    for index in 0..52 {
        let card = Card::from_index(index).unwrap();
        if !stands_nowhere(text, card) {
            return false;
        }
    }
    true
}

// How many cards of each suit, from the ace, stand in no column and no cell.
fn lacked_counts(text: &[u8]) -> [u8; 4]
    ensures { LacksFirstOfEach text.now result }
{
    [
        lacked_count(text, Suit::C),
        lacked_count(text, Suit::D),
        lacked_count(text, Suit::H),
        lacked_count(text, Suit::S),
    ]
}

// How many cards of a suit, from the ace, stand in no column and no cell.
fn lacked_count(text: &[u8], suit: Suit) -> u8
    ensures { LacksFirst text.now (suit_index suit) result }
{
    for count in 0..13 {
        if !stands_nowhere(text, card_above(count, suit)) {
            return count;
        }
    }
    13
}

// The card of a suit that has so many below it.
fn card_above(count: u8, suit: Suit) -> Card
    requires within { count < 13 }
    ensures { result ≡ 4 * count + suit_index suit }
{
    Card::from_index(4 * count + suit.index()).unwrap()
}

// The foundation line, and the LF that ends it.
fn foundation_text(counts: [u8; 4]) -> BoardBytes
    requires most { (s : ℕ) → s < 4 → slice_index counts s ≤ 13 }
    ensures { result.items ≡ with_line_end (foundation_line counts) }
{
    let [clubs, diamonds, hearts, spades] = counts;
    let mut bytes = ArrayVec::new();
    push(&mut bytes, b"Foundations:");
    push_home(&mut bytes, Suit::H, hearts);
    push_home(&mut bytes, Suit::C, clubs);
    push_home(&mut bytes, Suit::D, diamonds);
    push_home(&mut bytes, Suit::S, spades);
    push(&mut bytes, b"\n");
    bytes
}

// Pushes a blank, and how many cards of a suit are home.
fn push_home(bytes: &mut BoardBytes, suit: Suit, count: u8)
    requires room { length bytes.old.items + 4 ≤ MOST_BOARD_BYTES }
    requires most { count ≤ 13 }
    ensures { bytes.new.items ≡ bytes.old.items ++ 32 ∷ home_text (suit_index suit) count }
{
    push(bytes, &[b' ', suit.letter(), b'-', count_letter(count)]);
}

// The letter of a count of cards that are home.
fn count_letter(count: u8) -> u8
    requires most { count ≤ 13 }
    ensures { result ≡ count_letter count }
{
    if count == 0 {
        return b'0';
    }
    rank_letter(count)
}

// Pushes a piece of a text.
fn push(bytes: &mut BoardBytes, piece: &[u8])
    requires room { length bytes.old.items + length piece.now ≤ MOST_BOARD_BYTES }
    ensures { bytes.new.items ≡ bytes.old.items ++ piece.now }
{
    let _has_room = bytes.try_extend_from_slice(piece);
}
