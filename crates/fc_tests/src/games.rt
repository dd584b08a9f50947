//! A game of the tests' own.

ghost use Rattle.std.specs.Prelude.{true};
ghost use Rattle.std.proofs.Common.{lit<, lit≤};
ghost use Rattle.fc_moves.specs.inner.GameLaws.{built_game_is_game};
ghost use Rattle.fc_moves.specs.GameRules.{built_game};

use arrayvec::ArrayVec;
use fc_cards::Card;
use fc_moves::Game;

/// A game of four cells that is built down without regard to suit.
#[derive(Drop)]
pub struct AnySuit;

impl Game for AnySuit {
    ghost game = { λ _. built_game (λ _ _. true) 4 200 };

    fn stands(&self, upper: Card, lower: Card) -> bool {
        upper.rank() + 1 == lower.rank()
    }

    fn hosts_of(&self, card: Card) -> ArrayVec<Card, 4> {
        let rank = card.rank() - 1;
        let mut cards = ArrayVec::new();
        if rank == 0 {
            return cards;
        }
        for suit in 0..4 {
            if let Some(lower) = Card::from_index((rank - 1) * 4 + suit) {
                cards.push(lower);
            }
        }
        cards
    }

    fn opens(&self, card: Card) -> bool {
        let _index = card.index();
        true
    }

    fn cells(&self) -> u8 {
        4
    }

    fn code(&self) -> u8 {
        200
    }

    fn copy(&self) -> Self {
        AnySuit
    }

    ghost sound = { λ _. built_game_is_game (λ _ _. true) 4 200 (lit≤ tt) (lit< tt) };
}
