//! How the columns of a position are filled by a code: what lies where it lay at the start is laid all at once, and only the cards
//! that moved are put on it one by one.

ghost use Rattle.std.specs.Prelude.{◌≡◌, ◌≢◌, ◌-◌, ◌<◌, ◌≤◌, ◌++◌, ℕ, [], length, slice_index, slice_set};
ghost use Rattle.std.specs.Int.{bit_at};
ghost use Rattle.fc_position.specs.Board.{Board};
ghost use Rattle.fc_position.specs.Columns.{cards_at};
ghost use Rattle.fc_position.specs.Position.{IsPosition};
ghost use Rattle.fc_codes.specs.Spelled.{board_of_code, deepest_cards, chain_from, lying_on, seat};
ghost use Rattle.fc_codes.specs.State.{AreMoved, IsCodeOf};
ghost use Rattle.fc_codes.specs.inner.Seats.{AreOver, AreStacksOf, IsBare};
ghost use Rattle.fc_codes.specs.inner.Stacks.{HasBegun};

use crate::codes::Code;
use crate::seats::{has_card, least_card, without_card};
use crate::start_layouts::Layout;
use fc_cards::Card;
use fc_position::{Columns, Filling};

// What the columns of a class are filled by: its code, for each card the one that came onto it, and the bits of the deepest cards
// and of those that moved.
#[derive(Drop)]
pub(crate) struct Stacks<'a, 'b, 'c> {
    pub layout: &'a Layout,
    pub code: &'b Code,
    pub above: &'c [u8; 52],
    pub deepest: u64,
    pub moved: u64,
}

impl<'a, 'b, 'c> Filling for Stacks<'a, 'b, 'c> {
    ghost fills = { λ s. (board_of_code s.layout.now s.code.now).columns };

    ghost is_ready = { λ s. ((b : Board) × IsPosition b × IsCodeOf s.layout.now b s.code.now)
        × AreStacksOf s.layout.now s.code.now s.above.now s.deepest s.moved };

    #[inline(always)]
    fn fill(&self, columns: &mut Columns) {
        self.layout
            .fill(self.code, self.above, self.deepest, self.moved, columns);
    }
}

impl Layout {
    // Fills columns with those of the class with this code.
    #[inline(always)]
    fn fill(&self, code: &Code, above: &[u8; 52], deepest: u64, moved: u64, columns: &mut Columns)
        requires code { (b : Board) × IsPosition b × IsCodeOf self.now b code.now }
        requires stacks { AreStacksOf self.now code.now above.now deepest moved }
        requires eight { length columns.old ≡ 8 }
        ensures value { columns.new ≡ (board_of_code self.now code.now).columns }
    {
        let _start = &self.start;
        let count = self.fill_first(code, above, deepest, moved, columns);
        clear_from(count, columns);
    }

    // Fills the first columns with those of the class that hold cards. How many they are.
    #[inline(always)]
    fn fill_first(
        &self,
        code: &Code,
        above: &[u8; 52],
        deepest: u64,
        moved: u64,
        columns: &mut Columns,
    ) -> u8
        requires code { (b : Board) × IsPosition b × IsCodeOf self.now b code.now }
        requires stacks { AreStacksOf self.now code.now above.now deepest moved }
        requires eight { length columns.old ≡ 8 }
        ensures eight { length columns.new ≡ 8 }
        ensures count { result ≡ length (deepest_cards self.now code.now) }
        ensures most { result ≤ 8 }
        ensures done { (m : ℕ) → m < result → cards_at columns.new m ≡ cards_at (board_of_code self.now code.now).columns m }
    {
        let _start = &self.start;
        let mut rest = deepest;
        let mut i = 0;
        while let Some(card) = least_card(rest) {
            rest = without_card(rest, card.index());
            let last = self.begin(code, moved, card, i, columns);
            self.grow(code, above, last, i, columns);
            i += 1;
        }
        i
    }

    // Begins a column with this card, and with those on it that lie where they lay at the start. The last of them.
    #[inline(always)]
    fn begin(&self, code: &Code, moved: u64, card: Card, i: u8, columns: &mut Columns) -> Card
        requires there { i < 8 }
        requires code { (b : Board) × IsPosition b × IsCodeOf self.now b code.now }
        requires moved { AreMoved code.now moved }
        requires deepest { seat self.now code.now card ≡ 52 }
        requires eight { length columns.old ≡ 8 }
        ensures value { HasBegun self.now code.now card i columns.old result columns.new }
    {
        let j = self.heads[card.index() as usize];
        if has_card(moved, card) {
            columns.clear(i);
            columns.push(i, card);
            return card;
        }
        let cards = self.start.column(j);
        let last = last_unmoved(cards, moved);
        columns.lay(i, &self.start, j, last + 1);
        cards[last]
    }

    // Puts on the last card of a column the one that lies on it, the one on that, and so on.
    #[inline(always)]
    fn grow(&self, code: &Code, above: &[u8; 52], last: Card, i: u8, columns: &mut Columns)
        requires there { i < 8 }
        requires code { (b : Board) × IsPosition b × IsCodeOf self.now b code.now }
        requires over { AreOver self.now code.now above.now }
        requires bare { IsBare self.now code.now last }
        requires eight { length columns.old ≡ 8 }
        ensures value { columns.new ≡ slice_set columns.old i (cards_at columns.old i
            ++ chain_from (lying_on self.now code.now) (52 - length (cards_at columns.old i)) (lying_on self.now code.now last)) }
    {
        let _start = &self.start;
        let mut next = above[last.index() as usize];
        while columns.count(i) < 52 {
            let Some(card) = Card::from_index(next) else {
                return;
            };
            columns.push(i, card);
            next = above[card.index() as usize];
        }
    }
}

// Takes all cards of the columns from this one on away. Seldom there are any.
#[inline(always)]
fn clear_from(first: u8, columns: &mut Columns)
    requires eight { length columns.old ≡ 8 }
    requires most { first ≤ 8 }
    ensures eight { length columns.new ≡ 8 }
    ensures kept { (m : ℕ) → m < first → cards_at columns.new m ≡ cards_at columns.old m }
    ensures cleared { (m : ℕ) → first ≤ m → m < 8 → cards_at columns.new m ≡ [] }
{
    for i in first..8 {
        columns.clear(i);
    }
}

// The place of the last of these cards that hasn't moved, as the first hasn't.
#[inline(always)]
fn last_unmoved(cards: &[Card], moved: u64) -> usize
    requires some { 0 < length cards.now }
    requires first { bit_at moved (slice_index cards.now 0) ≢ 1 }
    ensures inside { result < length cards.now }
    ensures moved { (i : ℕ) → result < i → i < length cards.now → bit_at moved (slice_index cards.now i) ≡ 1 }
    ensures unmoved { bit_at moved (slice_index cards.now result) ≢ 1 }
{
    let mut last = cards.len() - 1;
    while has_card(moved, cards[last]) {
        last -= 1;
    }
    last
}
