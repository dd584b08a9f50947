ghost use Rattle.std.specs.Prelude.{◌≡◌};
ghost use Rattle.fc_moves.specs.GameRules.{kings};
ghost use Rattle.fc_moves.specs.inner.GameLaws.{kings_is_game};

use crate::games::Game;
use arrayvec::ArrayVec;
use fc_cards::Card;

/// The game inside, but that only kings may go to an empty column.
#[derive(Clone, Copy, Debug, PartialEq, Eq)]
pub struct Kings<G> {
    inner: G,
}

impl<G: Game> Kings<G> {
    /// The game `inner` in which only kings may go to an empty column.
    pub fn new(inner: G) -> Kings<G>
        ensures value { ⟦<Kings<G> as Game>⟧.game result ≡ kings (G.game inner) }
    {
        Kings { inner }
    }
}

impl<G: Game> Game for Kings<G> {
    ghost game = { λ s. kings (G.game s.inner) };

    fn stands(&self, upper: Card, lower: Card) -> bool {
        self.inner.stands(upper, lower)
    }

    fn hosts_of(&self, card: Card) -> ArrayVec<Card, 4> {
        self.inner.hosts_of(card)
    }

    fn opens(&self, card: Card) -> bool {
        card.rank() == 13
    }

    fn cells(&self) -> u8 {
        self.inner.cells()
    }

    fn code(&self) -> u8 {
        self.inner.code() | 2
    }

    fn copy(&self) -> Self {
        Kings {
            inner: self.inner.copy(),
        }
    }

    ghost sound = { λ s. kings_is_game (G.game s.inner) (G.sound s.inner) };
}
