ghost use Rattle.std.specs.Prelude.{◌≡◌, ℕ, ◌<◌, length, slice_index};
ghost use Rattle.std.specs.List.{swap_remove};
ghost use Rattle.fc_cards.specs.Card.{all_cards};
ghost use Rattle.fc_deal.specs.Deal.{place_drawn};

use fc_cards::Card;
use std::marker::Model;

/// The cards that are not dealt yet, seen by contracts as a list that shrinks. They are the first `left` of an array
/// that is changed in place.
#[derive(Drop)]
pub(crate) struct Deck {
    cards: [Card; 52],
    left: usize,
}

impl Model for Deck {
    ghost use Rattle.std.specs.Prelude.{◌≡◌, ◌≤◌, ℕ, List, length, take};

    ghost Value = { List ℕ };

    ghost view = { λ d. take d.left d.cards };

    ghost invariant = { λ d. (length d.cards ≡ 52) × (d.left ≤ 52) };
}

impl Deck {
    // All cards, by number.
    pub fn new() -> Deck
        ensures whole { result ≡ all_cards }
    {
        let mut cards = [Card::default(); 52];
        for index in 0..52 {
            if let Some(card) = Card::from_index(index) {
                cards[index as usize] = card;
            }
        }
        Deck { cards, left: 52 }
    }

    // Takes out the card that a draw picks; the last card moves into its place.
    pub fn take(&mut self, draw: u16) -> Card
        requires some { 0 < length self.old }
        ensures card { result ≡ slice_index self.old (place_drawn draw self.old) }
        ensures rest { self.new ≡ swap_remove self.old (place_drawn draw self.old) 0 }
    {
        let index = draw as usize % self.left;
        let card = self.cards[index];
        self.left -= 1;
        self.cards[index] = self.cards[self.left];
        card
    }
}
