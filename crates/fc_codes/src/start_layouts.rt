ghost use Rattle.std.specs.Prelude.{◌≡◌, ℕ, ◌+◌, ◌*◌, ◌<◌, ◌≤◌, ◌==◌, if◌then◌else◌, Some, IfSome, IfNone, List, [], ◌∷◌, length, slice_index};
ghost use Rattle.std.specs.Int.{bit_at};
ghost use Rattle.fc_position.specs.Board.{Board, column, last_of};
ghost use Rattle.fc_position.specs.Position.{IsPosition};
ghost use Rattle.fc_codes.specs.Moved.{Moves};
ghost use Rattle.fc_codes.specs.Spelled.{under, board_of_code};
ghost use Rattle.fc_codes.specs.State.{AreMoved, IsStateOf, IsCodeOf};
ghost use Rattle.fc_codes.specs.inner.Landed.{table_state, card_state, IsCellState, IsHomeState, IsOver, TellsCards};
ghost use Rattle.fc_codes.specs.inner.Seats.{AreSeatsOf, AreSeatsUntil};

use crate::codes::{Code, unmoved_before};
use crate::seats::{NOTHING, Seats, TABLE, with_card};
use crate::stacks::Stacks;
use fc_cards::{Card, Place};
use fc_moves::Move;
use fc_position::Position;
use std::marker::Model;

/// What lay beneath each card and on it in the position that a search starts from. Contracts see it as that position's board.
#[derive(Drop)]
pub struct Layout {
    pub(crate) start: Position,
    beneath: [u8; 52],
    // for each card that lay deepest at the start the number of its column
    pub(crate) heads: [u8; 52],
    // the bits of those cards
    deepest: u64,
}

impl Model for Layout {
    ghost use Rattle.fc_position.specs.Board.{Board};
    ghost use Rattle.fc_codes.specs.inner.Beneath.{IsTableOf};

    ghost Value = { Board };

    ghost view = { λ l. l.start };

    ghost invariant = { λ l. IsTableOf l.start l.beneath l.heads l.deepest };
}

impl Layout {
    /// The layout of a search that starts from this position.
    pub fn new(start: &Position) -> Layout
        ensures value { result ≡ start.now }
        ensures whole { IsPosition start.now }
    {
        let mut beneath = [NOTHING; 52];
        for i in 0..8 {
            note_column(&mut beneath, start.column(i));
        }
        Layout {
            start: start.copy(),
            beneath,
            heads: heads_of(start),
            deepest: cards_on_table(&beneath),
        }
    }

    /// The same layout.
    pub fn copy(&self) -> Layout
        ensures value { result ≡ self.now }
    {
        Layout {
            start: self.start.copy(),
            beneath: self.beneath,
            heads: self.heads,
            deepest: self.deepest,
        }
    }

    /// The code of the position at the start.
    pub fn start_code(&self) -> Code
        ensures value { IsCodeOf self.now self.now result }
        ensures whole { IsPosition self.now }
    {
        with_homes(&self.start, with_cells(&self.start))
    }

    /// The code of a position. `None` where it has none: some card stands neither where it stood at the start nor on a card
    /// one rank higher, and isn't its column's deepest.
    pub fn code_of(&self, position: &Position) -> Option<Code>
        ensures value { IfSome result (IsCodeOf self.now position.now) }
        ensures none { IfNone result ((code : List ℕ) → IsCodeOf self.now position.now code → ⊥) }
    {
        let _cell = position.cell(0);
        let mut code = with_homes(position, with_cells(position));
        for i in 0..8 {
            code = self.with_column(code, position, i)?;
        }
        Some(code)
    }

    // The code with the states of the cards of a column. `None` where one of them has none.
    fn with_column(&self, code: Code, position: &Position, i: u8) -> Option<Code>
        requires there { i < 8 }
        ensures value { IfSome result (TellsCards self.now position.now (column position.now i) code) }
        ensures count { IfSome result (λ r. length r ≡ length code) }
        ensures none { IfNone result ((c : ℕ) × (c < 52) × ((n : ℕ) → IsStateOf self.now position.now c n → ⊥)) }
    {
        let mut code = code;
        let mut below = None;
        let cards = position.column(i);
        for card in cards {
            let state = self.state_over(&code, below, *card)?;
            code = code.with_state(*card, state);
            below = Some(*card);
        }
        Some(code)
    }

    // The state of a card that stands on this one, or on none. `None` where it has none.
    fn state_over(&self, code: &Code, below: Option<Card>, card: Card) -> Option<u8>
        ensures value { (b : Board) → IsOver self.now b code.now below card → IfSome result (IsStateOf self.now b card) }
        ensures below { IfSome result (λ n. n < 8) }
        ensures card { card < 52 }
        ensures none { (b : Board) → IsOver self.now b code.now below card
            → IfNone result ((n : ℕ) → IsStateOf self.now b card n → ⊥) }
    {
        let Some(host) = below else {
            return Some(self.state_on_table(card));
        };
        let state = self.state_on_card(code, card, host);
        if state == 0 {
            return Some(state);
        }
        if card.rank() + 1 == host.rank() {
            Some(state)
        } else {
            None
        }
    }

    /// The code after a move from the position, which has this code.
    #[inline(always)]
    pub fn moved(&self, code: &Code, position: &Position, m: Move) -> Code
        ensures value { (c : Board) (card : ℕ) → Moves self.now code.now card position.now m c → IsCodeOf self.now c result }
        ensures whole { IsPosition position.now }
    {
        match position.playable(m.from) {
            Some(card) => self.landed(code, position, card, m.to),
            None => *code,
        }
    }

    // The code after a move of this card to that place.
    #[inline]
    fn landed(&self, code: &Code, position: &Position, card: Card, to: Place) -> Code
        ensures value { (c : Board) (m : Move) → Moves self.now code.now card position.now m c → m.to ≡ to
            → IsCodeOf self.now c result }
    {
        match to {
            Place::Home => code.at_home(card),
            Place::Cell(_) => code.in_cell(card),
            Place::Column(i) => self.stacked(code, position, card, i),
        }
    }

    // The code after a move of this card to a column.
    #[inline(always)]
    fn stacked(&self, code: &Code, position: &Position, card: Card, i: u8) -> Code
        ensures value { (c : Board) (m : Move) → Moves self.now code.now card position.now m c → m.to ≡ Place.Column i
            → IsCodeOf self.now c result }
    {
        match position.playable(Place::Column(i)) {
            Some(host) => self.on_card(code, card, host),
            None => self.on_table(code, card),
        }
    }

    /// The code after a move of a card to an empty column, from a position with this code.
    #[inline]
    pub fn on_table(&self, code: &Code, card: Card) -> Code
        ensures value { (b c : Board) (m : Move) (j : ℕ) → Moves self.now code.now card b m c → m.to ≡ Place.Column j
            → column b j ≡ [] → IsCodeOf self.now c result }
    {
        code.with_state(card, self.state_on_table(card))
    }

    /// The code after a move of a card onto another, the last of a column, from a position with this code.
    #[inline]
    pub fn on_card(&self, code: &Code, card: Card, host: Card) -> Code
        ensures value { (b c : Board) (m : Move) (j : ℕ) → Moves self.now code.now card b m c → m.to ≡ Place.Column j
            → last_of (column b j) ≡ Some host → IsCodeOf self.now c result }
    {
        code.with_state(card, self.state_on_card(code, card, host))
    }

    // The state of a card that goes to an empty column.
    #[inline]
    fn state_on_table(&self, card: Card) -> u8
        ensures value { result ≡ table_state self.now card }
        ensures below { result < 8 }
        ensures card { card < 52 }
        ensures whole { IsPosition self.now }
    {
        let lay_there = self.beneath[card.index() as usize] == TABLE;
        if lay_there { 0 } else { 3 }
    }

    // The state of a card that goes onto another.
    #[inline]
    fn state_on_card(&self, code: &Code, card: Card, host: Card) -> u8
        ensures value { result ≡ card_state self.now code.now card host }
        ensures below { result < 8 }
        ensures card { card < 52 }
        ensures whole { IsPosition self.now }
    {
        let lay_there = self.beneath[card.index() as usize] == host.index();
        if lay_there && code.state(host) == 0 {
            0
        } else {
            4 + host.suit().index()
        }
    }

    /// The canonical position of the class with this code, which is the code of some position.
    pub fn position_of(&self, code: &Code) -> Position
        requires code { (b : Board) × IsPosition b × IsCodeOf self.now b code.now }
        ensures value { result ≡ board_of_code self.now code.now }
        ensures whole { IsPosition result }
    {
        let mut position = self.start.copy();
        let _moved = self.read(code, &mut position);
        position
    }

    /// Makes a position the canonical one of the class with this code, which is the code of some position. The cards that have moved,
    /// one bit for each.
    #[inline(never)]
    pub fn read(&self, code: &Code, position: &mut Position) -> u64
        requires code { (b : Board) × IsPosition b × IsCodeOf self.now b code.now }
        ensures value { position.new ≡ board_of_code self.now code.now }
        ensures whole { IsPosition position.new }
        ensures moved { AreMoved code.now result }
    {
        let _start = &self.start;
        let mut seats = Seats::unmoved(self.deepest);
        self.move_cards(code, &mut seats);
        let cells = seats.cells;
        let stacks = Stacks {
            layout: self,
            code,
            above: &seats.above,
            deepest: seats.deepest,
            moved: seats.moved,
        };
        position.refill(&stacks, cells, seats.homes);
        seats.moved
    }

    // Moves the cards that a code moves, where none has yet.
    #[inline(always)]
    fn move_cards(&self, code: &Code, seats: &mut Seats)
        requires code { (b : Board) × IsPosition b × IsCodeOf self.now b code.now }
        requires before { AreSeatsUntil self.now code.now 0 seats.old }
        ensures value { AreSeatsOf self.now code.now seats.new }
    {
        let _start = &self.start;
        self.move_word(code, 0, seats);
        self.move_word(code, 1, seats);
        self.move_word(code, 2, seats);
    }

    // Moves the cards whose states stand in a word of a code, over those before them. Most have the state 0 and are passed.
    #[inline]
    fn move_word(&self, code: &Code, index: u8, seats: &mut Seats)
        requires code { (b : Board) × IsPosition b × IsCodeOf self.now b code.now }
        requires index { index < 3 }
        requires before { AreSeatsUntil self.now code.now (21 * index) seats.old }
        ensures value { AreSeatsUntil self.now code.now (21 * index + 21) seats.new }
    {
        let _start = &self.start;
        let mut rest = code.word(index);
        let mut next = 21 * index;
        while rest != 0 {
            let passed = unmoved_before(rest);
            let states = rest >> (3 * passed);
            let index = next + passed;
            seats.leave(index);
            seats.put(index, (states & 7) as u8);
            rest = states >> 3;
            next += passed + 1;
        }
    }
}

// Notes of each card of a column what it lies on.
fn note_column(beneath: &mut [u8; 52], cards: &[Card])
    ensures value { (c : ℕ) → c < 52 → slice_index beneath.new c ≡ under 52 (slice_index beneath.old c) cards.now c }
{
    let mut last = TABLE;
    for card in cards {
        beneath[card.index() as usize] = last;
        last = card.index();
    }
}

// The code that has the state 2 for the cards that are in cells, and else 0.
fn with_cells(start: &Position) -> Code
    requires whole { IsPosition start.now }
    ensures value { (c : ℕ) → c < 52 → IsCellState start.now 4 c (slice_index result c) }
    ensures count { length result ≡ 52 }
{
    let mut code = Code::unmoved();
    for i in 0..4 {
        if let Some(card) = start.cell(i) {
            code = code.with_state(card, 2);
        }
    }
    code
}

// The code that has the state 1 for the cards that are home, and else that of another code.
fn with_homes(start: &Position, code: Code) -> Code
    ensures value { (c : ℕ) → c < 52 → IsHomeState start.now c (slice_index code c) (slice_index result c) }
    ensures count { length code ≡ 52 → length result ≡ 52 }
{
    let mut code = code;
    for index in 0..52 {
        if let Some(card) = Card::from_index(index)
            && card.rank() <= start.home(card.suit())
        {
            code = code.with_state(card, 1);
        }
    }
    code
}

// For each card that lies deepest in a column the number of that column.
fn heads_of(start: &Position) -> [u8; 52]
    ensures count { length result ≡ 52 }
    ensures there { (c : ℕ) → c < 52 → slice_index result c < 8 }
    ensures begun { (j c : ℕ) (rest : List ℕ) → j < 8 → column start.now j ≡ c ∷ rest → slice_index result c ≡ j }
{
    let mut heads = [0; 52];
    for i in 0..8 {
        if let Some(card) = start.column(i).first() {
            heads[card.index() as usize] = i;
        }
    }
    heads
}

// The bits of the cards that lie on the table.
fn cards_on_table(beneath: &[u8; 52]) -> u64
    ensures value { (c : ℕ) → c < 52 → bit_at result c ≡ (if slice_index beneath.now c == 52 then 1 else 0) }
{
    let mut deepest = 0;
    for index in 0..52_u8 {
        if beneath[index as usize] == TABLE {
            deepest = with_card(deepest, index);
        }
    }
    deepest
}
