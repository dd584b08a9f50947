ghost use Rattle.std.specs.Prelude.{◌≡◌, ◌==◌, ◌≤◌, ◌↔◌, IsSome, IfSome};
ghost use Rattle.std.proofs.Common.{lit<};
ghost use Rattle.fc_cards.specs.Card.{suit};
ghost use Rattle.fc_moves.specs.GameRules.{bakers_game};
ghost use Rattle.fc_moves.specs.inner.GameLaws.{built_game_is_game};

use crate::games::Game;
use arrayvec::ArrayVec;
use fc_cards::Card;

/// Baker's Game: columns are built down in suit, and every card may go to an empty column.
#[derive(Clone, Copy, Debug, PartialEq, Eq)]
pub struct BakersGame {
    cells: u8,
    pub ghost few: { cells ≤ 4 },
}

impl BakersGame {
    /// Baker's Game with so many cells; `None` above 4.
    pub fn new(cells: u8) -> Option<BakersGame>
        ensures valid { IsSome result ↔ (cells ≤ 4) }
        ensures value { IfSome result (λ game. ⟦<BakersGame as Game>⟧.game game ≡ bakers_game cells) }
    {
        if cells <= 4 {
            Some(BakersGame { cells })
        } else {
            None
        }
    }
}

impl Game for BakersGame {
    ghost game = { λ s. bakers_game s.cells };

    fn stands(&self, upper: Card, lower: Card) -> bool {
        upper.rank() + 1 == lower.rank() && upper.suit() == lower.suit()
    }

    fn hosts_of(&self, card: Card) -> ArrayVec<Card, 4> {
        let mut cards = ArrayVec::new();
        if let Some(lower) = Card::new(card.rank() - 1, card.suit()) {
            cards.push(lower);
        }
        cards
    }

    fn opens(&self, card: Card) -> bool {
        // The call tells the proof that the card is one of 52.
        let _index = card.index();
        true
    }

    fn cells(&self) -> u8 {
        self.cells
    }

    fn code(&self) -> u8 {
        1
    }

    fn copy(&self) -> Self {
        *self
    }

    ghost sound = { λ s. built_game_is_game (λ u l. suit u == suit l) s.cells 1 s.few (lit< tt) };
}
