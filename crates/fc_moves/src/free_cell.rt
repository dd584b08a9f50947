ghost use Rattle.std.specs.Prelude.{◌≡◌, ℕ, ◌<◌, ◌≤◌, ◌↔◌, IsSome, IfSome, Contains};
ghost use Rattle.std.specs.List.Sorted.{IsStrictlyIncreasing};
ghost use Rattle.std.proofs.Common.{lit<};
ghost use Rattle.fc_cards.specs.Suit.{suit_index};
ghost use Rattle.fc_moves.specs.GameRules.{are_of_other_colour, free_cell};
ghost use Rattle.fc_moves.specs.inner.GameRules.{IsLowerOf};
ghost use Rattle.fc_moves.specs.inner.GameLaws.{built_game_is_game};

use crate::games::Game;
use arrayvec::ArrayVec;
use fc_cards::{Card, Suit};

/// FreeCell: columns are built down in turning colours, and every card may go to an empty column.
#[derive(Clone, Copy, Debug, PartialEq, Eq)]
pub struct FreeCell {
    cells: u8,
    pub ghost few: { cells ≤ 4 },
}

impl FreeCell {
    /// FreeCell with so many cells; `None` above 4.
    pub fn new(cells: u8) -> Option<FreeCell>
        ensures valid { IsSome result ↔ (cells ≤ 4) }
        ensures value { IfSome result (λ game. ⟦<FreeCell as Game>⟧.game game ≡ free_cell cells) }
    {
        if cells <= 4 {
            Some(FreeCell { cells })
        } else {
            None
        }
    }
}

impl Game for FreeCell {
    ghost game = { λ s. free_cell s.cells };

    fn stands(&self, upper: Card, lower: Card) -> bool {
        upper.rank() + 1 == lower.rank() && upper.is_red() != lower.is_red()
    }

    fn hosts_of(&self, card: Card) -> ArrayVec<Card, 4> {
        if card.is_red() {
            lower_cards(card, Suit::C, Suit::S)
        } else {
            lower_cards(card, Suit::D, Suit::H)
        }
    }

    fn opens(&self, card: Card) -> bool {
        // The call tells the proof that the card is one of 52.
        let _index = card.index();
        true
    }

    fn cells(&self) -> u8 {
        self.cells
    }

    fn code(&self) -> u8 {
        0
    }

    fn copy(&self) -> Self {
        *self
    }

    ghost sound = { λ s. built_game_is_game are_of_other_colour s.cells 0 s.few (lit< tt) };
}

// The cards of two suits that are one rank below a card.
fn lower_cards(card: Card, low: Suit, high: Suit) -> ArrayVec<Card, 4>
    requires order { suit_index low < suit_index high }
    ensures below { card < 52 }
    ensures exact { (u : ℕ) → Contains result.items u ↔ IsLowerOf card (suit_index low) (suit_index high) u }
    ensures rising { IsStrictlyIncreasing result.items }
{
    let mut cards = ArrayVec::new();
    let rank = card.rank() - 1;
    if let (Some(first), Some(second)) = (Card::new(rank, low), Card::new(rank, high)) {
        cards.push(first);
        cards.push(second);
    }
    cards
}
