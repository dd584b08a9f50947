ghost use Rattle.std.specs.Prelude.{◌≡◌, ℕ, ◌≤◌, ◌↔◌, IsTrue, Contains};
ghost use Rattle.std.specs.List.Sorted.{IsStrictlyIncreasing};
ghost use Rattle.fc_moves.specs.GameRules.{GameRules, IsGame, Stands, Opens};

use arrayvec::ArrayVec;
use fc_cards::Card;

/// A game of the FreeCell family, with eight columns, four foundations and up to four cells.
pub trait Game {
    ghost game: { Self → GameRules };

    /// Whether `upper` may be put on `lower`, the last card of a column.
    fn stands(&self, upper: Card, lower: Card) -> bool
        ensures value { IsTrue result ↔ Stands (game self.now) upper lower };

    /// The cards that may be put on `card`, by rising number.
    fn hosts_of(&self, card: Card) -> ArrayVec<Card, 4>
        ensures exact { (u : ℕ) → Contains result.items u ↔ Stands (game self.now) u card }
        ensures rising { IsStrictlyIncreasing result.items };

    /// Whether the card may go to an empty column.
    fn opens(&self, card: Card) -> bool
        ensures value { IsTrue result ↔ Opens (game self.now) card };

    /// The number of cells, at most 4.
    fn cells(&self) -> u8
        ensures value { result ≡ (game self.now).cells }
        ensures most { result ≤ 4 };

    /// A number that tells the game apart in certificates; no rule looks at it.
    fn code(&self) -> u8
        ensures value { result ≡ (game self.now).code };

    /// The same game.
    fn copy(&self) -> Self
        ensures value { game result ≡ game self.now };

    ghost sound: { (s : Self) → IsGame (game s) };
}
