ghost use Rattle.std.specs.Prelude.{◌≡◌, ℕ, ◌≤◌, ◌<◌, replicate, slice_index, Some, IfSome, IfNone, All, map, sum_by};
ghost use Rattle.fc_position.specs.Board.{count_in_column, count_in_cell, count_at_home};
ghost use Rattle.fc_position.specs.Tally.{Adds, AllCards, IsFaultOf, EachOnce};

use crate::faults::PartsFault;
use arrayvec::ArrayVec;
use fc_cards::Card;
use std::marker::Model;

/// How often each of the 52 cards was counted: not at all, once, or twice and more. Contracts see a tally as the list
/// of these counts, 0 to 2, by card.
#[derive(Clone, Copy, Debug, PartialEq, Eq)]
pub struct Tally {
    counts: [u8; 52],
}

impl Model for Tally {
    ghost use Rattle.std.specs.Prelude.{◌≤◌, ℕ, List, All};

    ghost Value = { List ℕ };

    ghost view = { λ t. t.counts };

    ghost invariant = { λ t. All (λ n. n ≤ 2) t.counts };

    ghost inverse = { λ counts. record { counts = counts } };
}

impl Tally {
    /// A tally of no card.
    pub fn new() -> Tally
        ensures { result ≡ replicate 52 0 }
    {
        Tally { counts: [0; 52] }
    }

    /// Counts a card.
    pub fn add(&mut self, card: Card)
        ensures added { Adds (λ c. count_in_cell c (Some card)) self.old self.new }
        ensures below { card < 52 }
    {
        let count = &mut self.counts[card.index() as usize];
        *count = (*count + 1).min(2);
    }

    /// Counts each card of a column.
    pub fn add_column(&mut self, cards: &[Card])
        ensures added { Adds (λ c. count_in_column c cards.now) self.old self.new }
        ensures below { AllCards cards.now }
    {
        let _counts = &self.counts;
        for card in cards {
            self.add(*card);
        }
    }

    /// Counts each card of each column.
    pub fn add_columns(&mut self, columns: &[ArrayVec<Card, 52>; 8])
        ensures added { Adds (λ c. sum_by (count_in_column c) (map (λ v. v.items) columns.now)) self.old self.new }
        ensures below { All AllCards (map (λ v. v.items) columns.now) }
    {
        let _counts = &self.counts;
        for column in columns {
            self.add_column(column.as_slice());
        }
    }

    /// Counts the card of each cell.
    pub fn add_cells(&mut self, cells: &[Option<Card>])
        ensures added { Adds (λ c. sum_by (count_in_cell c) cells.now) self.old self.new }
        ensures below { All (λ cell. IfSome cell (λ c. c < 52)) cells.now }
    {
        let _counts = &self.counts;
        for cell in cells {
            if let Some(card) = cell {
                self.add(*card);
            }
        }
    }

    /// Counts the cards that are home: of each suit, in the order clubs, diamonds, hearts, spades, so many from the
    /// ace on.
    pub fn add_homes(&mut self, homes: &[u8; 4])
        ensures added { Adds (λ c. count_at_home c homes.now) self.old self.new }
    {
        let _counts = &self.counts;
        for index in 0..52 {
            if let Some(card) = Card::from_index(index)
                && card.rank() <= homes[card.suit().index() as usize]
            {
                self.add(card);
            }
        }
    }

    /// The first thing that is wrong: the least card that was counted twice or more, and where there is none the least
    /// one that wasn't counted. `None` where each card was counted once.
    pub fn fault(&self) -> Option<PartsFault>
        ensures fault { IfSome result (IsFaultOf (slice_index self.now)) }
        ensures none { IfNone result (EachOnce (slice_index self.now)) }
    {
        if let Some(card) = self.repeated() {
            return Some(PartsFault::Repeated(card));
        }
        Some(PartsFault::Missing(self.missing()?))
    }

    // The least card that was counted twice or more.
    fn repeated(&self) -> Option<Card>
        ensures found { IfSome result (λ c. (c < 52) × (1 < slice_index self.now c)
            × ((d : ℕ) → d < c → slice_index self.now d ≤ 1)) }
        ensures none { IfNone result ((d : ℕ) → d < 52 → slice_index self.now d ≤ 1) }
    {
        let index = self.counts.iter().position(|count| *count > 1)?;
        Card::from_index(index as u8)
    }

    // The least card that wasn't counted.
    fn missing(&self) -> Option<Card>
        ensures found { IfSome result (λ c. (c < 52) × (slice_index self.now c ≡ 0)
            × ((d : ℕ) → d < c → 1 ≤ slice_index self.now d)) }
        ensures none { IfNone result ((d : ℕ) → d < 52 → 1 ≤ slice_index self.now d) }
    {
        let index = self.counts.iter().position(|count| *count == 0)?;
        Card::from_index(index as u8)
    }
}
